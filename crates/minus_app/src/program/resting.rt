//! How a program rests where it finds nothing to do.
use crate::app::App;
use crate::fault::Fault;
use crate::program::{NAP, Program};
use minus::OutputSink;
use std::io::Read;
use std::thread;
use std::time::Duration;

/// After this many turns in a row that found nothing to do, reads of the keyboard may wait.
const RESTS: u32 = 100;

/// How long the program sleeps between two such reads, in milliseconds.
const SHORT_NAP: u64 = 1;

/// How long a program has found nothing to do.
#[derive(Clone, Copy, Default)]
pub struct Idle {
    // How many turns in a row.
    pub(super) turns: u32,
    // Whether reads of the keyboard wait.
    pub(super) is_resting: bool,
}

impl<A: App, S: OutputSink + Drop, R: Read + Drop> Program<A, S, R> {
    /// Rests for a while; after a second the launcher is asked to let reads of the keyboard wait, so that the program
    /// does not look for keys.
    pub(super) fn rest(&mut self, rt: &HostRuntime) -> Result<(), Fault> {
        if !self.idle.is_resting && self.idle.turns > RESTS && self.sizes.is_there() {
            self.idle.is_resting = true;
            rt.eprintln("rest")?;
        }
        let nap = if self.idle.is_resting { SHORT_NAP } else { NAP };
        thread::sleep(rt, Duration::from_millis(nap));
        Ok(())
    }

    /// Lets reads of the keyboard wait no more, since text comes.
    pub(super) fn wake(&mut self, rt: &HostRuntime) -> Result<(), Fault> {
        if self.idle.is_resting {
            self.idle.is_resting = false;
            rt.eprintln("busy")?;
        }
        Ok(())
    }
}
