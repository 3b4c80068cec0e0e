//! What a session keeps of a case: a sink and callbacks that note what comes to them.
use minus::{
    ConditionCall, Event, ExitCall, HookCall, InputClassifier, InputEvent, Kinds, PagerState,
    SearchOpts,
};
use minus_script::DefaultKeys;
use std::alloc::{AllocError, Global};
use std::cell::RefCell;
use std::io;
use std::io::{ErrorKind, Write};
use std::rc::Rc;

/// The kinds of the sessions that run cases.
pub type CaseKinds = Kinds<NotesCall, NotesExit, ShowsFrom, CaseKeys>;

/// Which writes and flushes a sink takes, and refuses.
#[derive(Clone, Copy)]
pub struct SinkCalls {
    /// This many are taken.
    pub taken: usize,
    /// This many behind those are refused, and all later ones taken.
    pub refused: usize,
    /// This many bytes are taken by a write at most.
    pub most: usize,
}

// Takes all calls, and all bytes of each.
const ALL: SinkCalls = SinkCalls {
    taken: usize::MAX,
    refused: 0,
    most: usize::MAX,
};

/// What came of a line: the bytes that were drawn, how often the sink was settled, and what was called, with `drawn` where
/// the sink was written to.
#[derive(Drop)]
pub struct Notes {
    pub alloc: Global,
    pub drawn: Vec<u8>,
    pub settled: usize,
    pub called: Vec<String>,
    /// The calls that the sink takes and refuses.
    pub calls: SinkCalls,
    /// How many calls there were since that was said.
    pub count: usize,
}

/// Notes that a session's sink and its callbacks share.
pub type Noted = Rc<RefCell<Notes>>;

/// Notes of nothing, for a sink that refuses nothing.
pub(crate) fn begin_notes(alloc: Global) -> Result<Noted, AllocError> {
    let notes = Notes {
        alloc,
        drawn: Vec::new(alloc),
        settled: 0,
        called: Vec::new(alloc),
        calls: ALL,
        count: 0,
    };
    Ok(Rc::new(alloc, RefCell::new(notes))?)
}

/// The line that stands where the sink was written to.
pub const DRAWN: &str = "drawn";

// Adds a line about a call.
fn note(noted: &Noted, line: Result<String, AllocError>) {
    if let (Ok(line), Ok(mut notes)) = (line, noted.try_borrow_mut()) {
        let _ = notes.called.push(line);
    }
}

impl Notes {
    // Whether the sink refuses this call.
    fn refuses(&mut self) -> bool {
        let past = self.count.checked_sub(self.calls.taken);
        self.count = self.count.saturating_add(1);
        past.is_some_and(|past| past < self.calls.refused)
    }

    // Notes that the sink is written to, once for the writes between two calls.
    fn note_drawn(&mut self) {
        if self
            .called
            .last()
            .is_some_and(|line| line.as_str() == DRAWN)
        {
            return;
        }
        if let Ok(line) = String::from_str(self.alloc, DRAWN) {
            let _ = self.called.push(line);
        }
    }
}

/// A sink that notes what it is sent.
#[derive(Drop)]
pub struct NotesBytes {
    pub noted: Noted,
}

impl Write for NotesBytes {
    fn write(&mut self, bytes: &[u8]) -> io::Result<usize> {
        let Ok(mut notes) = self.noted.try_borrow_mut() else {
            return Err(io::Error::from(ErrorKind::Other));
        };
        if notes.refuses() {
            return Err(io::Error::from(ErrorKind::BrokenPipe));
        }
        let first = bytes.get(..notes.calls.most).unwrap_or(bytes);
        if notes.drawn.extend_from_slice(first).is_err() {
            return Err(io::Error::from(ErrorKind::OutOfMemory));
        }
        notes.note_drawn();
        Ok(first.len())
    }

    fn flush(&mut self) -> io::Result<()> {
        if let Ok(mut notes) = self.noted.try_borrow_mut() {
            notes.settled = notes.settled.saturating_add(1);
            if notes.refuses() {
                return Err(io::Error::from(ErrorKind::BrokenPipe));
            }
        }
        Ok(())
    }
}

/// A callback of a hook that notes its id, and the mark and the typed prefix with which it is called.
#[derive(Drop)]
pub struct NotesCall {
    pub noted: Noted,
    pub id: u64,
    pub alloc: Global,
}

impl HookCall for NotesCall {
    fn call(&mut self, state: &PagerState) {
        let (id, mark, prefix) = (self.id, state.upper_mark, &state.prefix_num);
        let line = if prefix.is_empty() {
            format!(in self.alloc; "called {id} at {mark}")
        } else {
            format!(in self.alloc; "called {id} at {mark} with {prefix}")
        };
        note(&self.noted, line);
    }
}

/// A callback of an exit that notes that it is called.
#[derive(Drop)]
pub struct NotesExit {
    pub noted: Noted,
    pub alloc: Global,
}

impl ExitCall for NotesExit {
    fn call(&mut self) {
        note(
            &self.noted,
            String::from_str(self.alloc, "called at the exit"),
        );
    }
}

/// A condition that shows where queries of this many bytes or more lead.
#[derive(Clone, Copy, Drop)]
pub struct ShowsFrom(pub usize);

impl ConditionCall for ShowsFrom {
    ghost judges = { λ condition opts answer. Unit {0} };

    fn ask(&self, opts: &SearchOpts<'_>) -> bool {
        opts.string.len() >= self.0
    }
}

/// The default bindings, with another help text where one is given.
#[derive(Drop)]
pub struct CaseKeys {
    pub keys: DefaultKeys,
    pub help: Option<String>,
}

impl InputClassifier for CaseKeys {
    ghost says = { record {
      allows = λ classifier event state answer. Unit {0};
      helps = λ classifier text. Unit {0};
    } };

    fn classify_input(&self, event: Event, state: &PagerState) -> Option<InputEvent> {
        self.keys.classify_input(event, state)
    }

    fn format_help(&self, alloc: Global) -> Result<Option<String>, AllocError> {
        match &self.help {
            Some(help) => Ok(Some(String::from_str(alloc, help)?)),
            None => self.keys.format_help(alloc),
        }
    }
}
