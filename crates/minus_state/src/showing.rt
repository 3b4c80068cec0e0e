//! What is shown of the rows of a text.
ghost use Rattle.std.specs.Prelude.{◌+◌, ◌<◌, ◌^◌, option_map, string_bytes, IfOk};
ghost use Rattle.minus_text.specs.Searched.{IsStoredRow};
ghost use Rattle.minus_text.specs.Views.{viewed};
ghost use Rattle.minus_state.specs.Showing.{row_text, IsCroppedRow, IsLaidRow, IsUnmarkedRow, IsShownRow};

use crate::frame::Frame;
use crate::selection::SelectionEnds;
use crate::visible::highlight_visible_range;
use minus_text::search::styles::closing;
use minus_text::{Row, RowsView};
use std::alloc::{AllocError, Global};

/// What is shown of a row: its own text as it stands, or a text that was put together.
#[derive(Drop)]
pub enum ShownRow<'a> {
    /// The row's own text.
    Own(&'a str),
    /// A text that was put together: behind a number, cropped, or with what matches or is selected in reverse.
    Formed(String),
}

impl<'a> ShownRow<'a> {
    ghost use Rattle.std.specs.Prelude.{◌≡◌};
    ghost use Rattle.minus_text.specs.Styles.{ended};
    ghost use Rattle.minus_state.specs.ShownRow.{with_marks};

    /// Its text.
    pub fn as_str(&self) -> &str
        ensures { result.now ≡ row_text self.now }
    {
        match self {
            ShownRow::Own(row) => row,
            ShownRow::Formed(row) => row.as_str(),
        }
    }

    /// Its text, which is copied where it is the row's own.
    ///
    /// # Errors
    ///
    /// [`AllocError`] where there is no memory for the copy.
    pub fn into_row(self, alloc: Global) -> Result<Row, AllocError>
        ensures { IfOk result (λ row. string_bytes row ≡ row_text self.entry) }
    {
        match self {
            ShownRow::Own(row) => String::from_str(alloc, row),
            ShownRow::Formed(row) => Ok(row),
        }
    }

    // It with a reset behind it where a style is open at its end.
    fn ended(self, alloc: Global) -> Result<ShownRow<'a>, AllocError>
        ensures { IfOk result (λ shown. row_text shown ≡ ended (row_text self.entry)) }
    {
        let end = closing(alloc, self.as_str().as_bytes())?;
        if end.is_empty() {
            return Ok(self);
        }
        let mut row = self.into_row(alloc)?;
        row.push_str(end)?;
        Ok(ShownRow::Formed(row))
    }

    // It with marks around a range of its visible characters.
    fn with_marks(
        self,
        alloc: Global,
        range: Option<(usize, Option<usize>)>,
    ) -> Result<ShownRow<'a>, AllocError>
        ensures { IfOk result (λ shown. row_text shown ≡ with_marks range (row_text self.entry)) }
    {
        let Some((start, end)) = range else {
            return Ok(self);
        };
        let text = self.as_str();
        let marked = highlight_visible_range(alloc, text, start, end.unwrap_or(text.len()))?;
        Ok(ShownRow::Formed(marked))
    }
}

/// What rows are shown of, and how.
#[derive(Clone, Copy)]
pub struct ShownRows<'s> {
    /// The rows, and what was found in them.
    pub view: RowsView<'s>,
    /// The columns of the text that are cut off at the left where lines are not wrapped.
    pub left_mark: usize,
    /// What is selected.
    pub ends: SelectionEnds,
}

impl<'s> ShownRows<'s> {
    // A row as it is stored, counted from 0, if there is one; without a number and a match it is its own text.
    fn stored(self, alloc: Global, i: usize) -> Result<Option<ShownRow<'s>>, AllocError>
        ensures { IfOk result (λ row. IsStoredRow (viewed self.entry.view) i (option_map row_text row)) }
    {
        if let Some(row) = self.view.plain_row(i) {
            return Ok(Some(ShownRow::Own(row)));
        }
        match self.view.formatted_row(alloc, i)? {
            Some(row) => Ok(Some(ShownRow::Formed(row))),
            None => Ok(None),
        }
    }

    // A line that is its one row, counted from 0, from the left mark on, if there is one.
    pub(crate) fn cropped(self, alloc: Global, i: usize) -> Result<Option<Row>, AllocError>
        requires { i + 1 < 2 ^ 64 }
        ensures { IfOk result (λ row. IsCroppedRow self.entry i (option_map string_bytes row)) }
    {
        let Some(text) = self.view.matched_text(i) else {
            return Ok(None);
        };
        let row = Frame::of(self.view, self.left_mark).cropped(alloc, i, text)?;
        Ok(Some(row))
    }

    // A row as it is laid out, counted from 0, if there is one.
    fn laid(self, alloc: Global, i: usize) -> Result<Option<ShownRow<'s>>, AllocError>
        requires { i + 1 < 2 ^ 64 }
        ensures { IfOk result (λ row. IsLaidRow self.entry i (option_map row_text row)) }
    {
        if self.view.layout().wrapping {
            return self.stored(alloc, i);
        }
        match self.cropped(alloc, i)? {
            Some(row) => Ok(Some(ShownRow::Formed(row))),
            None => Ok(None),
        }
    }

    // A row without a selection, counted from 0, if there is one.
    fn unmarked(self, alloc: Global, i: usize) -> Result<Option<ShownRow<'s>>, AllocError>
        requires { i + 1 < 2 ^ 64 }
        ensures { IfOk result (λ row. IsUnmarkedRow self.entry i (option_map row_text row)) }
    {
        let row = self.laid(alloc, i)?;
        if !self.view.layout().carry_style {
            return Ok(row);
        }
        match row {
            Some(row) => Ok(Some(row.ended(alloc)?)),
            None => Ok(None),
        }
    }

    // What is shown of a row, counted from 0, if there is one. An `Err` only means out of memory.
    pub(crate) fn row(self, alloc: Global, i: usize) -> Result<Option<ShownRow<'s>>, AllocError>
        requires { i + 1 < 2 ^ 64 }
        ensures { IfOk result (λ row. IsShownRow self.entry i (option_map row_text row)) }
    {
        match self.unmarked(alloc, i)? {
            Some(row) => {
                let range = Frame::of(self.view, self.left_mark).selected_range(self.ends, i);
                Ok(Some(row.with_marks(alloc, range)?))
            }
            None => Ok(None),
        }
    }
}
