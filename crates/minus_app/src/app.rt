//! What an application adds to the pager: its text, and what its own keys do.
use crate::fault::Fault;
use crate::hand_on::hand_on_fed;
use crate::prompt::Notice;
use crate::view::View;
use minus::{OutputSink, PagerState};
use std::alloc::{AllocError, Global};
use std::io::Write;

/// What a feed gives.
#[derive(Drop)]
pub enum Fed {
    /// A piece of text.
    Text(String),
    /// Nothing now: more is being written.
    NothingNow,
    /// Nothing now: the text was read to its end, and may grow.
    EndForNow,
    /// There is no more, and it is not asked for any more.
    End,
}

/// How a program goes on after an action.
#[derive(Clone, Copy, PartialEq, Eq)]
pub enum Flow {
    /// As before.
    On,
    /// The program ends.
    Ended,
}

/// Another text of an application.
#[derive(Clone, Copy, PartialEq, Eq)]
pub enum Neighbour {
    /// The next one.
    Next,
    /// The one before.
    Before,
}

/// The action of an application that has no keys of its own.
#[derive(Clone, Copy, Drop)]
pub struct NoAct;

/// How many bytes below the page are read at first, where an application says nothing else.
pub const AHEAD: usize = 64 * 1024 * 1024;

/// What the prompt row calls a text that has no title.
pub const TITLE: &str = "text";

/// An application: the text that it pages, and what its own keys do.
///
/// `feed` has to be written, and `act` where it has keys of its own; for the rest there are answers that most
/// applications take.
pub trait App: Drop {
    ghost use Rattle.std.specs.Prelude.{List, ℕ, Option, None, IfOk};
    ghost use Rattle.minus_app.specs.Feeds.{IsFed};

    /// What its own keys do: an enum with a variant for each, or [`NoAct`].
    type Act: Copy + Drop;

    // The text that is still to come, where the application says so. One that does not owes nothing by the clause of
    // `feed`.
    ghost left: { Self → Option (List ℕ) } = { λ _. None };

    /// The next piece of text. It does not wait: where nothing has come, it says so, and is asked again later.
    ///
    /// A text is to have no control character but newline and `ESC[..m`; `minus_view::Preparation` makes one of any
    /// bytes.
    ///
    /// # Errors
    ///
    /// Where the text cannot be read: the program ends. Out of memory ([`minus::MinusError::Memory`]) it goes on: no
    /// more is read, and the prompt row says so.
    fn feed(&mut self, rt: &HostRuntime) -> Result<Fed, Fault>
        ensures { IfOk result (λ fed. IsFed (left self.old) fed (left self.new)) };

    /// Does what a key of its own asks for. While help or the search prompt is open, no key is the application's.
    ///
    /// # Errors
    ///
    /// Where it fails: the program ends.
    fn act<S: OutputSink + Drop>(
        &mut self,
        _act: Self::Act,
        _rt: &HostRuntime,
        _view: &mut View<S>,
    ) -> Result<Flow, Fault> {
        Ok(Flow::On)
    }

    /// Turns to another text, which `feed` gives from its beginning from then on, and answers whether there is one.
    ///
    /// # Errors
    ///
    /// Where it fails: the program ends.
    fn turn_to(&mut self, _rt: &HostRuntime, _neighbour: Neighbour) -> Result<bool, Fault> {
        Ok(false)
    }

    /// Whether no text comes behind this one.
    fn is_last(&self) -> bool {
        true
    }

    /// What the prompt row calls the text.
    fn title(&self) -> &str {
        TITLE
    }

    /// What the prompt row says in place of the title and the place of the page; none: these. It is asked whenever the
    /// page or the text has changed.
    ///
    /// # Errors
    ///
    /// [`AllocError`] where there is no memory: the prompt row stays as it is.
    fn prompt(&self, _alloc: Global, _state: &PagerState) -> Result<Option<String>, AllocError> {
        Ok(None)
    }

    /// How many bytes below the first row of the page are enough, so that no more is asked for; none: all is read.
    fn ahead(&self) -> Option<usize> {
        Some(AHEAD)
    }

    /// Whether another program is writing the text, which a key may end.
    fn is_written(&self) -> bool {
        false
    }

    /// Whether the end of the text is followed from the first page on, wherever the options let that begin.
    fn follows(&self) -> bool {
        false
    }

    /// Whether what `feed` gives has marks of its tabs, as [`minus_view::Shape::marks_tabs`] asks for: they are taken
    /// out of it, and tabs are copied as tabs.
    fn marks_tabs(&self) -> bool {
        false
    }

    /// How many bytes are still to come, as far as that is known: room is made for them at once.
    fn bytes_left(&self) -> u64 {
        0
    }

    /// What the prompt row says of the text before its title. It is asked where no text comes.
    fn notice(&self) -> Notice {
        Notice::Nothing
    }

    /// Hands the text on to standard output, where there is no terminal to page it on: what `feed` gives, up to its
    /// end.
    ///
    /// # Errors
    ///
    /// Those of `feed`, and [`Fault::Io`] where standard output refuses the text.
    fn hand_on(&mut self, rt: &HostRuntime) -> Result<(), Fault> {
        let mut out = rt.stdout();
        for _ in 0..u64::MAX {
            let fed = self.feed(rt)?;
            if !hand_on_fed(rt, &mut out, &fed)? {
                break;
            }
        }
        Ok(out.flush()?)
    }
}
