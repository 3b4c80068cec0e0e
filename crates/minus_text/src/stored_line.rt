//! A line of a text, or several, with the rows.
ghost use Rattle.std.specs.Prelude.{◌≡◌, [], ◌<◌, length, get_or};
ghost use Rattle.minus_text.specs.Lines.{cut};
ghost use Rattle.minus_text.specs.LineSplits.{lines_of};

use crate::lines::{split_line, without_return};
use crate::rows::Span;

// A line, the number of its first row, where it begins in the bytes of the text, and the places of its rows there.
#[derive(Clone, Copy)]
pub(crate) struct StoredLine<'s> {
    pub(crate) first: usize,
    pub(crate) base: usize,
    pub(crate) text: &'s str,
    pub(crate) rows: &'s [Span],
}

// Lines, the number of their first row, where they begin in the bytes of a text, the places of their rows there, and
// the number of the first row of each line.
#[derive(Clone, Copy)]
pub(crate) struct StoredText<'s> {
    pub(crate) first: usize,
    pub(crate) base: usize,
    pub(crate) text: &'s str,
    pub(crate) rows: &'s [Span],
    pub(crate) firsts: &'s [usize],
}

// The first line of a text, without the newline that ends it, if one does, and a carriage return before that.
pub(crate) fn first_line(text: &str) -> &str
    requires { 0 < length (lines_of (cut text.now)) }
    ensures { result.now ≡ get_or (lines_of (cut text.now)) 0 [] }
{
    match split_line(text) {
        Some((line, _)) => without_return(line),
        None => text,
    }
}
