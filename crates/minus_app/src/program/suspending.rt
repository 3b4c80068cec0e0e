//! How a program is suspended, and comes back.
use crate::app::App;
use crate::fault::Fault;
use crate::program::{NAP, Program};
use crate::size::Size;
use minus::OutputSink;
use std::io::Read;
use std::thread;
use std::time::Duration;

impl<A: App, S: OutputSink + Drop, R: Read + Drop> Program<A, S, R> {
    // Waits until the launcher says that the program goes on.
    fn wait_for_resume(&mut self, rt: &HostRuntime) -> Option<Size> {
        let resumes = self.sizes.resumes();
        for _ in 0..u64::MAX {
            if let Some(size) = self.sizes.change(rt) {
                if size.resumes != resumes {
                    return Some(size);
                }
            }
            thread::sleep(rt, Duration::from_millis(NAP));
        }
        None
    }

    // Hands the terminal back, asks the launcher to stop the program, and comes back after that. With no launcher that
    // would say so, it goes on.
    pub(super) fn suspend(&mut self, rt: &HostRuntime) -> Result<(), Fault> {
        if !self.sizes.is_there() {
            return Ok(());
        }
        self.view.leave()?;
        self.idle.is_resting = false;
        rt.eprintln("suspend")?;
        if let Some(size) = self.wait_for_resume(rt) {
            self.view.come_back(size)?;
        }
        self.show_place()
    }
}
