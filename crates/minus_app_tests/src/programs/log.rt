//! A file that is followed as it grows.
use minus_app::{AppKeys, Fault, Options, Text, run};

pub fn page(rt: &HostRuntime, path: &str) -> Result<(), Fault> {
    let text = Text::file(rt, path, "the log")?.followed();
    let mut options = Options::new();
    options.numbers = true;
    run(rt, text, AppKeys::less(rt.alloc())?, options)
}
