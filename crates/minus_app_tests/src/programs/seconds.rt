//! A feed that grows.
use minus_app::{App, AppKeys, Fault, Fed, NoAct, Options, run};
use std::time::Instant;

/// Counts the seconds, a line for each.
#[derive(Drop)]
struct Seconds {
    began: Instant,
    told: u64,
}

impl App for Seconds {
    type Act = NoAct;

    fn feed(&mut self, rt: &HostRuntime) -> Result<Fed, Fault> {
        let now = self.began.elapsed(rt)?.as_secs();
        if now <= self.told {
            return Ok(Fed::NothingNow);
        }
        self.told = now;
        Ok(Fed::Text(format!(in rt.alloc(); "{now} seconds\n")?))
    }

    fn follows(&self) -> bool {
        true
    }
}

pub fn page(rt: &HostRuntime) -> Result<(), Fault> {
    let seconds = Seconds {
        began: Instant::now(rt)?,
        told: 0,
    };
    run(rt, seconds, AppKeys::less(rt.alloc())?, Options::new())
}
