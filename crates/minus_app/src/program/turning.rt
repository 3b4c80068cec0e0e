//! How a program goes from one text of its application to another.
use crate::app::{App, Neighbour};
use crate::fault::Fault;
use crate::program::Program;
use crate::view::Goal;
use minus::OutputSink;
use std::alloc::Global;
use std::io::Read;

/// The lines at the top of the pages of an application's other texts, as they were left.
#[derive(Drop)]
pub struct TopLines {
    // Those of the texts before this one, and of those behind it.
    before: Vec<usize>,
    behind: Vec<usize>,
}

impl TopLines {
    /// No text was left yet.
    pub(super) fn new(alloc: Global) -> TopLines {
        TopLines {
            before: Vec::new(alloc),
            behind: Vec::new(alloc),
        }
    }

    // Keeps the line at which a text is left, and answers the one at which its neighbour was left.
    fn turn_to(&mut self, neighbour: Neighbour, left: usize) -> Result<usize, Fault> {
        let line = match neighbour {
            Neighbour::Next => {
                self.before.push(left)?;
                self.behind.pop()
            }
            Neighbour::Before => {
                self.behind.push(left)?;
                self.before.pop()
            }
        };
        Ok(line.unwrap_or(0))
    }
}

impl<A: App, S: OutputSink + Drop, R: Read + Drop> Program<A, S, R> {
    // Shows the next text of the application, or the one before, from the line on where it was left. Answers whether
    // there is one.
    pub(super) fn turn_to(
        &mut self,
        rt: &HostRuntime,
        neighbour: Neighbour,
    ) -> Result<bool, Fault> {
        if !self.app.turn_to(rt, neighbour)? {
            return Ok(false);
        }
        let left = self.view.top_line();
        let line = self.top_lines.turn_to(neighbour, left)?;
        self.growth.begin();
        self.view.begin_text()?;
        self.view.make_room(self.app.bytes_left());
        if line > 0 {
            self.view.head_for(Goal::Line(line))?;
        }
        Ok(true)
    }
}
