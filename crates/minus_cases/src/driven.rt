//! Parts that are driven manually, without a session.
ghost use Rattle.minus_state.specs.States.{IsFormed};

use crate::kept::{CaseKeys, CaseKinds, NotesBytes};
use crate::layouts::Search;
use crate::printed::{print_state, push_line, push_made};
use minus::{
    CommandOf, CommandQueueOf, MinusError, PagerState, PartsOf, WithTty, handle_event,
    handle_io_command,
};
use minus_draw::page::page_of;
use minus_script::DefaultKeys;
use std::alloc::{AllocError, Global};

// At most so many commands wait for one that was handled.
const MOST_WAITING: usize = 4;

/// Parts, what waits for them, and their sink.
#[derive(Drop)]
pub struct Driven {
    alloc: Global,
    parts: PartsOf<CaseKinds>,
    queue: CommandQueueOf<CaseKinds>,
    sink: WithTty<NotesBytes>,
    is_drawn: bool,
    ghost formed: { IsFormed parts.state },
}

impl Driven {
    /// Parts without a text; what waits for a command is drawn, or let go.
    pub(crate) fn new(
        alloc: Global,
        cols: usize,
        rows: usize,
        sink: WithTty<NotesBytes>,
        is_drawn: bool,
    ) -> Option<Driven> {
        let (Ok(state), Ok(keys)) = (PagerState::new(alloc, cols, rows), DefaultKeys::new(alloc))
        else {
            return None;
        };
        let keys = CaseKeys { keys, help: None };
        match CommandQueueOf::new(alloc) {
            Ok(queue) => Some(Driven {
                alloc,
                parts: PartsOf::keeping(alloc, state, keys, None),
                queue,
                sink,
                is_drawn,
            }),
            Err(_) => None,
        }
    }

    /// Handles a command, and adds what waits then, an exit and what was copied.
    pub(crate) fn take(
        &mut self,
        out: &mut String,
        command: CommandOf<CaseKinds>,
    ) -> Result<(), MinusError> {
        let handled = handle_event(self.alloc, command, &mut self.parts, &mut self.queue)?;
        if handled.exited {
            push_line(out, "a ", "exit")?;
        }
        if let Some(text) = &handled.copied {
            push_line(out, "a copied ", text.as_str())?;
        }
        for _ in 0..MOST_WAITING {
            match self.queue.pop_front() {
                Some(CommandOf::Io(command)) => {
                    push_made(out, "w ", format!(in self.alloc; "{command:?}"))?;
                    if self.is_drawn {
                        handle_io_command(self.alloc, command, &mut self.sink, &mut self.parts)?;
                    }
                }
                _ => return Ok(()),
            }
        }
        Ok(())
    }

    /// Searches for a term, or for none.
    pub(crate) fn set_term(&mut self, search: Option<Search>) -> Result<(), MinusError> {
        let term = match search {
            Some(search) => Some(search.pattern),
            None => None,
        };
        match self.parts.state.set_term(self.alloc, term) {
            Ok(()) => Ok(()),
            Err((_, cause)) => Err(cause),
        }
    }

    /// Adds the page, the state, and whether a text that fits is paged.
    pub(crate) fn print(&self, out: &mut String) -> Result<(), MinusError> {
        for row in &page_of(self.alloc, &self.parts.state)?.rows {
            push_line(out, "p ", row.as_str())?;
        }
        self.print_kept(out)?;
        print_state(self.alloc, out, &self.parts.state)?;
        Ok(())
    }

    fn print_kept(&self, out: &mut String) -> Result<(), AllocError> {
        push_line(
            out,
            "m ",
            if self.parts.run_no_overflow {
                "overflow on"
            } else {
                "overflow off"
            },
        )
    }
}
