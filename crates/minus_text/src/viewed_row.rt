//! A row of a view.
ghost use Rattle.std.specs.Prelude.{◌≡◌, ◌++◌, Some, OnOk};
ghost use Rattle.minus_text.specs.Found.{marked, IsPlaced};
ghost use Rattle.minus_text.specs.FoundRows.{matches_of, FoundStands, FoundStands-prop};

use crate::carried_style::StyleSource;
use crate::formatted::FormattedRow;
use crate::push_text::PushText;
use crate::screen::Row;
use crate::search::found::FoundRow;
use crate::search::highlight::{HighlightMatchesArgs, push_marked};
use std::alloc::{AllocError, Global};

// The bytes of a match's two markers.
const MARKS: usize = 9;

/// Where the line of a row and what was found in it are looked for first: where those of the row that was asked for
/// before were found. Rows that are asked for in their order are found at once; for any other they are searched.
#[derive(Clone, Copy, Debug)]
pub struct RowPlace {
    // A line, counted from 0.
    pub(crate) line: usize,
    // How many rows match above it.
    pub(crate) found: usize,
}

impl RowPlace {
    /// The place of the first row.
    pub const TOP: RowPlace = RowPlace { line: 0, found: 0 };
}

/// A row of a view: what stands before its text, the style that is carried to it, its text, and what was found in that.
#[derive(Clone, Copy)]
pub struct ViewedRow<'s> {
    pub(crate) row: FormattedRow<'s>,
    pub(crate) style: StyleSource<'s>,
    pub(crate) found: Option<&'s FoundRow>,
    pub(crate) ghost placed: { FoundStands row.row.now found } by { FoundStands-prop row.row.now found },
}

// Adds a row's text with what was found in it in reverse.
fn push_found<T: PushText>(
    alloc: Global,
    out: &mut T,
    row: &str,
    found: &FoundRow,
) -> Result<(), AllocError>
    requires { IsPlaced row.now (matches_of found.now) }
    ensures { OnOk result (T.bytes out.new ≡ T.bytes out.old ++ marked (Some (matches_of found.now)) row.now) }
{
    if found.escapes.is_empty() {
        push_marked(out, row, found.matches.as_slice())?;
        return Ok(());
    }
    let shown = HighlightMatchesArgs::of_places(alloc, row, &found.escapes, &found.matches)?;
    let text = shown.to_string(alloc)?;
    out.push_text(text.as_str())?;
    Ok(())
}

impl<'s> ViewedRow<'s> {
    ghost use Rattle.std.specs.Prelude.{string_bytes, IfOk};
    ghost use Rattle.minus_text.specs.ViewedRows.{viewed_text};

    // Bytes enough for it, where it has no escape sequences and no style is carried to it.
    fn room(self) -> usize {
        let marks = match self.found {
            Some(found) => found.matches.len().saturating_mul(MARKS),
            None => 0,
        };
        let text = self.row.row.len().saturating_add(marks);
        self.row.prefix.room().saturating_add(text)
    }

    // Adds it to a row, or to the bytes of a drawing.
    fn push_to<T: PushText>(self, alloc: Global, out: &mut T) -> Result<(), AllocError>
        ensures { OnOk result (T.bytes out.new ≡ T.bytes out.old ++ viewed_text self.entry) }
    {
        let FormattedRow { row, prefix } = self.row;
        prefix.push_to(out)?;
        self.style.push_to(alloc, out)?;
        match self.found {
            Some(found) => push_found(alloc, out, row, found)?,
            None => out.push_text(row)?,
        }
        Ok(())
    }

    /// Adds it to the bytes of a drawing: what stands before its text, the style that is carried to it, and its text
    /// with its matches in reverse.
    ///
    /// # Errors
    ///
    /// [`AllocError`] where there is no memory for it: a beginning of it was added.
    pub fn write_to(self, alloc: Global, out: &mut Vec<u8>) -> Result<(), AllocError>
        ensures { OnOk result (out.new.items ≡ out.old.items ++ viewed_text self.entry) }
    {
        self.push_to(alloc, out)
    }

    /// It as a row of its own: what stands before its text, the style that is carried to it, and its text with its
    /// matches in reverse.
    ///
    /// # Errors
    ///
    /// [`AllocError`] where there is no memory for it.
    pub fn to_row(self, alloc: Global) -> Result<Row, AllocError>
        ensures { IfOk result (λ row. string_bytes row ≡ viewed_text self.entry) }
    {
        let mut out = String::with_capacity(alloc, self.room())?;
        self.push_to(alloc, &mut out)?;
        Ok(out)
    }
}
