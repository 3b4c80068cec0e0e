//! The place of the page in its text, which stays where the rows become others.
use crate::fault::Fault;
use crate::prompt::start_of;
use crate::view::marks::Mark;
use crate::view::row_of_byte::row_at;
use crate::view::{Onward, View};
use minus::{CommandOf, InputOf, IoCommand, LineNumbers, OutputSink, PagerState};
use std::alloc::Global;

/// The place that a page was put at: it may begin before that, in the row in which the place stands.
#[derive(Clone, Copy, PartialEq, Eq)]
pub struct PutAt {
    // The row that the page begins with.
    mark: usize,
    // The place, in bytes of the text.
    byte: usize,
}

/// What the rows of a text depend on.
#[derive(Clone, Copy, PartialEq, Eq)]
pub struct Shape {
    cols: usize,
    rows: usize,
    is_wrapped: bool,
    numbers: LineNumbers,
}

impl Shape {
    /// That of the displayed text.
    pub fn of(state: &PagerState) -> Shape {
        Shape {
            cols: state.cols,
            rows: state.rows,
            is_wrapped: state.line_wrapping(),
            numbers: state.line_numbers,
        }
    }
}

/// The places of the text that are kept.
#[derive(Drop)]
pub struct Places {
    // Where the page was put, as long as it stays there.
    put_at: Option<PutAt>,
    // The place of the page that help covers, in bytes of its text, and what its rows depended on.
    covered: Option<(usize, Shape)>,
    // Where the last jump began, in bytes of the text.
    pub(super) before: usize,
    pub(super) marks: Vec<Mark>,
}

impl Places {
    /// Those of a text of which none is kept yet.
    pub(super) fn new(alloc: Global) -> Places {
        Places {
            put_at: None,
            covered: None,
            before: 0,
            marks: Vec::new(alloc),
        }
    }
}

impl<S: OutputSink + Drop> View<S> {
    ghost use Rattle.std.specs.Prelude.{◌≡◌, OnOk};
    ghost use Rattle.minus_app.specs.KeptPlace.{place_of};

    // The place of the page in its text, in bytes.
    pub(super) fn place(&self) -> usize
        ensures { result ≡ place_of self.now.places.put_at self.now.session.parts.state }
    {
        let state = self.session.state();
        match self.places.put_at {
            Some(put) if put.mark == state.upper_mark => put.byte,
            _ => start_of(state, state.upper_mark),
        }
    }

    // Lets the page begin in the row in which a place stands: that is its place then, too.
    pub(super) fn put_at(&mut self, byte: usize) -> Result<(), Fault>
        ensures kept { OnOk result (place_of self.new.places.put_at self.new.session.parts.state ≡ byte) }
    {
        let row = row_at(self.session.state(), byte);
        if row != self.session.state().upper_mark {
            self.command(CommandOf::Io(IoCommand::SetUpperMark(row)))?;
        }
        let mark = self.session.state().upper_mark;
        self.places.put_at = Some(PutAt { mark, byte });
        Ok(())
    }

    // Lets the page begin with a row, counted from 0; a move up ends following.
    pub(super) fn go_to_row(&mut self, row: usize) -> Result<(), Fault> {
        self.end_following_above(row)?;
        self.command(CommandOf::Io(IoCommand::SetUpperMark(row)))
    }

    // Tells the session what may form the rows again: the place of the page stays, unless the end is followed. That of
    // a text that help covers is put back once help is left.
    pub(super) fn step_in_place(
        &mut self,
        input: InputOf<super::AppKinds>,
    ) -> Result<Onward, Fault> {
        let (place, shape) = (self.place(), Shape::of(self.session.state()));
        let was_help = self.session.state().help_open();
        let onward = self.step(input)?;
        let state = self.session.state();
        if state.help_open() {
            if !was_help {
                self.places.covered = Some((place, shape));
            }
            return Ok(onward);
        }
        let (place, shape) = match self.places.covered.take() {
            Some(covered) if was_help => covered,
            _ => (place, shape),
        };
        if !state.follow_output() && Shape::of(state) != shape {
            self.put_at(place)?;
        }
        Ok(onward)
    }
}
