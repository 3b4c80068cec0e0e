//! What is selected, and which characters of a row are.
ghost use Rattle.std.specs.Prelude.{◌≡◌};
ghost use Rattle.minus_state.specs.Selection.{comes_first, in_order, ends_in_order, first_column, column_behind, visible_at, marked_range};

/// An end of what is selected: a row of the document and a column of it, both counted from 0.
#[derive(Clone, Copy, Debug, PartialEq, Eq)]
pub struct Selection {
    /// The row, counted from 0 at the text's first one.
    pub absolute_row: usize,
    /// The column of the row's own text, counted from 0 behind the number of its line.
    pub col: usize,
}

impl Selection {
    // Whether this end comes first, by row and then by column.
    fn comes_first(self, other: Selection) -> bool
        ensures { result ≡ comes_first self other }
    {
        self.absolute_row < other.absolute_row
            || self.absolute_row == other.absolute_row && self.col <= other.col
    }

    /// This end and another, in order of row and column.
    pub fn in_order(self, other: Selection) -> (Selection, Selection)
        ensures { result ≡ in_order self other }
    {
        if self.comes_first(other) {
            (self, other)
        } else {
            (other, self)
        }
    }
}

/// The two ends of what is selected, in any order, as far as they are there: where it began, and where it
/// was led to.
#[derive(Clone, Copy)]
pub struct SelectionEnds {
    /// Where it began.
    pub anchor: Option<Selection>,
    /// Where it was led to.
    pub selection: Option<Selection>,
}

impl SelectionEnds {
    /// Both ends in order of row and column; `None` where one is missing.
    pub fn in_order(self) -> Option<(Selection, Selection)>
        ensures { result ≡ ends_in_order self }
    {
        match (self.anchor, self.selection) {
            (Some(anchor), Some(selection)) => Some(anchor.in_order(selection)),
            _ => None,
        }
    }
}

// The column of a row that is selected first.
fn first_column(first: Selection, row: usize) -> usize
    ensures { result ≡ first_column first row }
{
    if row == first.absolute_row {
        first.col
    } else {
        0
    }
}

// The column behind the last one of a row that is selected, if there is a limit.
fn column_behind(last: Selection, row: usize) -> Option<usize>
    ensures { result ≡ column_behind last row }
{
    if row == last.absolute_row {
        Some(last.col.saturating_add(1))
    } else {
        None
    }
}

// The number of the visible character at a column.
fn visible_at(prefix: usize, cut: usize, column: usize) -> usize
    ensures { result ≡ visible_at prefix cut column }
{
    prefix.saturating_add(column.saturating_sub(cut))
}

/// Which visible characters of a row are selected, from the first up to but without the other, where there
/// is one; `None` for a row that is not between the two ends, which are in order. Before the row's text
/// stands a prefix of this many columns, and this many of the text's columns are cut off at the left. Sums go
/// no further than the greatest number: no row has as many characters.
pub fn marked_range(
    first: Selection,
    last: Selection,
    row: usize,
    prefix: usize,
    cut: usize,
) -> Option<(usize, Option<usize>)>
    ensures { result ≡ marked_range first last row prefix cut }
{
    if row < first.absolute_row || row > last.absolute_row {
        return None;
    }
    let start = visible_at(prefix, cut, first_column(first, row));
    match column_behind(last, row) {
        Some(column) => Some((start, Some(visible_at(prefix, cut, column)))),
        None => Some((start, None)),
    }
}
