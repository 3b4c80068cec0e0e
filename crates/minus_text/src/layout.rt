//! How the lines of a text fill rows.
ghost use Rattle.std.specs.Prelude.{◌≡◌, IsTrue};
ghost use Rattle.minus_text.specs.Layouts.{plain, wrapped, relaid};

use crate::line_numbers::LineNumbers;

/// How the rows of a document are formed.
#[derive(Clone, Copy, Debug)]
pub struct Layout {
    /// The columns of a row. What stands before its text takes some of them where numbers are on.
    pub cols: usize,
    /// Whether a line that is too long for the columns fills several rows. Otherwise each line is one
    /// row, however long.
    pub wrapping: bool,
    /// Whether rows begin with the numbers of their lines.
    pub numbers: LineNumbers,
    /// Whether a term is searched for in each line. Otherwise it is searched for in each row by itself, so that a match
    /// does not go over the end of a row.
    pub match_lines: bool,
    /// Whether each row is put with the style that its line carries to it: the style sequences, `ESC[..m`, before the
    /// row in its line since the last reset, `ESC[m` or `ESC[0m`. No style goes on from a line into the next one.
    /// Blocks of rows that stand by themselves carry none.
    pub carry_style: bool,
}

impl Layout {
    /// This many columns, in which lines are wrapped and have no numbers.
    pub fn plain(cols: usize) -> Layout
        ensures { result ≡ plain cols }
    {
        Layout {
            cols,
            wrapping: true,
            numbers: LineNumbers::Disabled,
            match_lines: false,
            carry_style: false,
        }
    }

    // This layout with other numbers and columns.
    pub(crate) fn relaid(self, numbers: LineNumbers, cols: usize) -> Layout
        ensures { result ≡ relaid self numbers cols }
    {
        Layout {
            cols,
            wrapping: self.wrapping,
            numbers,
            match_lines: self.match_lines,
            carry_style: self.carry_style,
        }
    }
}

// How a line fills rows: wrapped to some columns, or as one row.
#[derive(Clone, Copy, Debug)]
pub(crate) enum Wrap {
    At(usize),
    Off,
}

impl Wrap {
    // What it is for this many columns, if lines are wrapped.
    pub(crate) fn of(wrapping: bool, cols: usize) -> Wrap
        ensures { result ≡ wrapped wrapping cols }
    {
        if wrapping { Wrap::At(cols) } else { Wrap::Off }
    }

    // Whether another is the same.
    pub(crate) fn is_same(self, other: Wrap) -> bool
        ensures { IsTrue result → self ≡ other }
    {
        match (self, other) {
            (Wrap::At(cols), Wrap::At(others)) => cols == others,
            (Wrap::Off, Wrap::Off) => true,
            _ => false,
        }
    }
}
