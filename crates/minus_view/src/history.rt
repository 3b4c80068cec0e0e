//! The queries that were taken at a search prompt, for a reader who takes one of them again.
ghost use Rattle.minus_view.specs.History.{StepsLeadBack};

use std::alloc::{AllocError, Global};
use std::marker::Model;

/// The queries that were taken, and where among them the reader is: at one of them, or at what they typed before.
pub struct History {
    alloc: Global,
    // oldest first
    taken: Vec<String>,
    // how many queries, from the newest on, the reader has gone back
    back: usize,
    typed: String,
}

// Hand-written: a derived drop would stand again in the proof of each function that lets one go.
impl Drop for History {
    fn drop(self) {
        let History {
            alloc: _,
            taken: _,
            back: _,
            typed: _,
        } = self;
    }
}

impl Model for History {
    ghost use Rattle.std.specs.Prelude.{◌≤◌, length, map, string_bytes};
    ghost use Rattle.minus_view.specs.History.{Queries};

    ghost Value = { Queries };

    ghost view = { λ h. record {
      taken = map string_bytes h.taken.items;
      back = h.back;
      typed = string_bytes h.typed;
    } };

    ghost invariant = { λ h. h.back ≤ length h.taken.items };
}

impl History {
    ghost use Rattle.std.specs.Prelude.{◌≡◌, OnOk, OnErr, IfOk};
    ghost use Rattle.minus_view.specs.History.{no_queries, shown_query, has_older, has_newer, older, newer, begun, is_newest, with_taken};

    /// No query was taken yet.
    pub fn new(alloc: Global) -> History
        ensures { result ≡ no_queries }
    {
        History {
            alloc,
            taken: Vec::new(alloc),
            back: 0,
            typed: String::new(alloc),
        }
    }

    /// Begins where nothing is typed, as a search prompt opens.
    pub fn begin(&mut self)
        ensures { self.new ≡ begun self.old }
    {
        self.back = 0;
        self.typed.clear();
    }

    // Whether a query is the one that was taken last.
    fn is_newest(&self, query: &str) -> bool
        ensures { result ≡ is_newest self.now query.now }
    {
        match self.taken.last() {
            Some(newest) => newest.as_str() == query,
            None => false,
        }
    }

    /// Keeps a query that is taken, as the newest one. An empty one is not kept, nor one that is the newest already.
    ///
    /// # Errors
    ///
    /// [`AllocError`] where there is no memory for it: nothing has changed then.
    pub fn take(&mut self, query: &str) -> Result<(), AllocError>
        ensures taken { OnOk result (self.new ≡ with_taken self.old query.now) }
        ensures kept { OnErr result (self.new ≡ self.old) }
    {
        if query.is_empty() || self.is_newest(query) {
            return Ok(());
        }
        let kept = String::from_str(self.alloc, query)?;
        self.taken.push(kept)?;
        Ok(())
    }

    /// Goes back to an older query, and answers whether there is one. What is in the prompt is kept where it is what
    /// the reader typed, and not a query that they went back to.
    ///
    /// # Errors
    ///
    /// [`AllocError`] where there is no memory for what was typed: nothing has changed then.
    pub fn go_back(&mut self, query: &str) -> Result<bool, AllocError>
        ensures older { OnOk result (self.new ≡ older self.old query.now) }
        ensures is { IfOk result (λ went. went ≡ has_older self.old) }
        ensures kept { OnErr result (self.new ≡ self.old) }
    {
        if self.back >= self.taken.len() {
            return Ok(false);
        }
        if self.back == 0 {
            self.typed = String::from_str(self.alloc, query)?;
        }
        self.back += 1;
        Ok(true)
    }

    /// Goes on to a newer query, or from the newest one to what was typed, and answers whether there is one.
    pub fn go_on(&mut self) -> bool
        ensures newer { self.new ≡ newer self.old }
        ensures is { result ≡ has_newer self.old }
    {
        if self.back == 0 {
            return false;
        }
        self.back -= 1;
        true
    }

    /// The query that the reader is at, or what they typed.
    pub fn shown(&self) -> &str
        ensures { result.now ≡ shown_query self.now }
    {
        if self.back == 0 {
            return self.typed.as_str();
        }
        match self.taken.get(self.taken.len() - self.back) {
            Some(query) => query.as_str(),
            None => self.typed.as_str(),
        }
    }
}

/// A law: a step back from what was typed shows the query that was taken last, and a step on from there what was
/// typed.
pub fn steps_lead_back()
    ensures { StepsLeadBack }
{}
