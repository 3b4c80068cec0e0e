//! Pages a report that comes by standard input, follows it as it grows, and goes to its next error at `e`:
//! `make 2>&1 | bin/minus-run minus_report`.
#![tactic(auto)]

use minus::OutputSink;
use minus_app::{App, AppKeys, Fault, Fed, Flow, Opening, Options, Text, View, end_program, run};
use std::process::ExitCode;

/// What its own key does.
#[derive(Clone, Copy, Drop)]
struct NextError;

/// A report, as it is read.
#[derive(Drop)]
struct Report(Text);

// The first line behind a line, counted from 0, that begins with `error`, or else the first one of all.
fn next_error(text: &str, line: usize) -> Option<usize> {
    let mut first = None;
    for (error, _) in text
        .lines()
        .enumerate()
        .filter(|of| of.1.starts_with("error"))
    {
        if error > line {
            return Some(error);
        }
        first = first.or(Some(error));
    }
    first
}

impl App for Report {
    type Act = NextError;

    fn feed(&mut self, rt: &HostRuntime) -> Result<Fed, Fault> {
        self.0.feed(rt)
    }

    fn act<S: OutputSink + Drop>(
        &mut self,
        _act: NextError,
        _rt: &HostRuntime,
        view: &mut View<S>,
    ) -> Result<Flow, Fault> {
        if let Some(line) = next_error(view.text(), view.top_line()) {
            view.go_to_line(line)?;
        }
        Ok(Flow::On)
    }

    fn title(&self) -> &str {
        self.0.title()
    }
}

fn page(rt: &HostRuntime) -> Result<(), Fault> {
    let report = Report(Text::stdin(rt, "report")?);
    let mut keys = AppKeys::less(rt.alloc())?;
    keys.bind(&["e"], "go to the next error", NextError)?;
    let mut options = Options::new();
    options.opening = Opening::Follows;
    run(rt, report, keys, options)
}

fn main(rt: HostRuntime) -> ExitCode {
    end_program(&rt, "report", page(&rt))
}
