//! A text that waits until a pager can take it.
use std::alloc::{AllocError, Global};
use std::collections::VecDeque;
use std::marker::Model;
use std::mem;

/// How many bytes a piece has at least, but for the last one.
const PIECE: usize = 65_536;

/// How many such pieces fill the queue: they are 64 MB.
const MOST_PIECES: usize = 1024;

/// A text that waits in pieces, so that a pager can take one after another and hear its keys between them.
pub struct TextQueue {
    alloc: Global,
    pieces: VecDeque<String>,
    // the piece that is being filled, behind the others
    last: String,
}

// Hand-written: a derived drop would stand again in the proof of each function that lets one go.
impl Drop for TextQueue {
    fn drop(self) {
        let TextQueue {
            alloc: _,
            pieces: _,
            last: _,
        } = self;
    }
}

impl Model for TextQueue {
    ghost use Rattle.std.specs.Prelude.{map, string_bytes};
    ghost use Rattle.minus_view.specs.TextQueue.{Waiting};

    ghost Value = { Waiting };

    ghost view = { λ q. record { pieces = map string_bytes q.pieces.items; last = string_bytes q.last } };
}

impl TextQueue {
    ghost use Rattle.std.specs.Prelude.{◌≡◌, ◌++◌, [], length, nat_le, string_bytes, OnOk, OnErr, IfSome, IfNone};
    ghost use Rattle.minus_view.specs.TextQueue.{nothing, waiting_text, most_pieces};

    /// No text waits.
    pub fn new(alloc: Global) -> TextQueue
        ensures { result ≡ nothing }
    {
        TextQueue {
            alloc,
            pieces: VecDeque::new(alloc),
            last: String::new(alloc),
        }
    }

    /// Whether so much waits that no more is to be read: 64 MB.
    pub fn is_full(&self) -> bool
        ensures { result ≡ nat_le most_pieces (length self.now.pieces) }
    {
        self.pieces.len() >= MOST_PIECES
    }

    /// Takes all text away, so that none waits.
    pub fn clear(&mut self)
        ensures { self.new ≡ nothing }
    {
        self.pieces.clear();
        self.last.clear();
    }

    // Ends the piece that is being filled. Out of memory, it goes on being filled.
    fn end_piece(&mut self)
        ensures { waiting_text self.new ≡ waiting_text self.old }
    {
        let piece = mem::replace(&mut self.last, String::new(self.alloc));
        if let Err(failed) = self.pieces.push_back(piece) {
            self.last = failed.value;
        }
    }

    /// Adds a text at the end.
    ///
    /// # Errors
    ///
    /// [`AllocError`] where there is no memory for it: nothing has changed then.
    pub fn put(&mut self, text: &str) -> Result<(), AllocError>
        ensures put { OnOk result (waiting_text self.new ≡ waiting_text self.old ++ text.now) }
        ensures kept { OnErr result (self.new ≡ self.old) }
    {
        self.last.push_str(text)?;
        if self.last.len() >= PIECE {
            self.end_piece();
        }
        Ok(())
    }

    /// Takes the first piece of the text away, or nothing where none waits.
    pub fn take(&mut self) -> Option<String>
        ensures first { IfSome result (λ t. waiting_text self.old ≡ string_bytes t ++ waiting_text self.new) }
        ensures none { IfNone result ((waiting_text self.old ≡ []) × (self.new ≡ self.old)) }
    {
        if let Some(piece) = self.pieces.pop_front() {
            return Some(piece);
        }
        if self.last.is_empty() {
            return None;
        }
        Some(mem::replace(&mut self.last, String::new(self.alloc)))
    }
}
