//! What is shown of the rows of a text, added to the bytes of a drawing. An `Err` only means out of memory; it may
//! leave some of a row behind.
ghost use Rattle.std.specs.Prelude.{◌≡◌, ◌≤◌, ◌++◌, length, take, drop, slice_get, OnOk};
ghost use Rattle.std.specs.List.{flat_map};
ghost use Rattle.minus_term.specs.FullRedraw.{row_ops};
ghost use Rattle.minus_term.specs.Written.{written_all};
ghost use Rattle.minus_text.specs.Document.{rows_of};
ghost use Rattle.minus_text.specs.Styles.{closing};
ghost use Rattle.minus_text.specs.Views.{viewed};
ghost use Rattle.minus_state.specs.Writing.{some_row_ops};

use crate::frame::Frame;
use crate::showing::ShownRows;
use minus_term::{write_row, write_row_end, write_row_start};
use minus_text::search::styles::closing;
use minus_text::{RowPlace, RowsView};
use std::alloc::{AllocError, Global};

// Adds a reset behind the text of a row, which stands from a place of these bytes on, where a style is open at its end.
fn write_closing(alloc: Global, out: &mut Vec<u8>, from: usize) -> Result<(), AllocError>
    requires { from ≤ length out.old.items }
    ensures { OnOk result (out.new.items ≡ out.old.items ++ closing (drop from out.old.items)) }
{
    let end = closing(alloc, &out.as_slice()[from..])?;
    out.extend_from_slice(end.as_bytes())
}

// Adds the text of a row, counted from 0, if there is one.
fn write_text(view: RowsView<'_>, out: &mut Vec<u8>, i: usize) -> Result<(), AllocError>
    ensures { OnOk result (out.new.items ≡ out.old.items
        ++ written_all (some_row_ops (slice_get (rows_of (viewed view.entry).document) i))) }
{
    let Some(row) = view.text(i) else {
        return Ok(());
    };
    write_row(out, row)?;
    Ok(())
}

// Adds the texts of the rows from one on and before another, both counted from 0, as far as there are rows.
pub(crate) fn write_texts(
    view: RowsView<'_>,
    out: &mut Vec<u8>,
    first: usize,
    end: usize,
) -> Result<(), AllocError>
    requires { first ≤ end }
    ensures { OnOk result (out.new.items ≡ out.old.items
        ++ written_all (flat_map row_ops (drop first (take end (rows_of (viewed view.entry).document))))) }
{
    for i in first..end {
        write_text(view, out, i)?;
    }
    Ok(())
}

impl<'s> ShownRows<'s> {
    ghost use Rattle.std.specs.Prelude.{◌+◌, ◌^◌, ◌<◌, IsTrue};
    ghost use Rattle.minus_state.specs.ShownRow.{ended_in};
    ghost use Rattle.minus_state.specs.Showing.{ShowsOwnTexts};
    ghost use Rattle.minus_state.specs.Writing.{WritesStored, WritesCropped, WritesUnmarked, WritesShown};

    // Whether each row is shown as its own text, as far as is known at once.
    pub(crate) fn is_plain(self) -> bool
        ensures { IsTrue result → ShowsOwnTexts (viewed self.entry.view) self.entry.ends }
    {
        if !self.view.layout().wrapping {
            return false;
        }
        match self.ends.in_order() {
            Some(_) => false,
            None => self.view.is_plain(),
        }
    }

    // Ends the text of a row, which stands from a place of these bytes on, where styles are carried.
    fn write_ended(self, alloc: Global, out: &mut Vec<u8>, from: usize) -> Result<(), AllocError>
        requires { from ≤ length out.old.items }
        ensures { OnOk result (out.new.items
            ≡ take from out.old.items ++ ended_in (viewed self.entry.view).document (drop from out.old.items)) }
    {
        if !self.view.layout().carry_style {
            return Ok(());
        }
        write_closing(alloc, out, from)
    }

    // Adds a row as it is stored, counted from 0, if there is one. It is looked for near a place first.
    fn write_stored(
        self,
        alloc: Global,
        out: &mut Vec<u8>,
        i: usize,
        place: &mut RowPlace,
    ) -> Result<(), AllocError>
        ensures { OnOk result (WritesStored self.entry i out.old.items out.new.items) }
    {
        let Some(row) = self.view.row(i, place) else {
            return Ok(());
        };
        write_row_start(out)?;
        let from = out.len();
        row.write_to(alloc, out)?;
        self.write_ended(alloc, out, from)?;
        write_row_end(out)?;
        Ok(())
    }

    // Adds a line that is its one row, counted from 0, from the left mark on, if there is one.
    fn write_cropped(self, alloc: Global, out: &mut Vec<u8>, i: usize) -> Result<(), AllocError>
        requires { i + 1 < 2 ^ 64 }
        ensures { OnOk result (WritesCropped self.entry i out.old.items out.new.items) }
    {
        let Some(text) = self.view.matched_text(i) else {
            return Ok(());
        };
        write_row_start(out)?;
        let from = out.len();
        Frame::of(self.view, self.left_mark).write_cropped(alloc, out, i, text)?;
        self.write_ended(alloc, out, from)?;
        write_row_end(out)?;
        Ok(())
    }

    // Adds a row without a selection, counted from 0, if there is one.
    fn write_unmarked(
        self,
        alloc: Global,
        out: &mut Vec<u8>,
        i: usize,
        place: &mut RowPlace,
    ) -> Result<(), AllocError>
        requires { i + 1 < 2 ^ 64 }
        ensures { OnOk result (WritesUnmarked self.entry i out.old.items out.new.items) }
    {
        if self.view.layout().wrapping {
            return self.write_stored(alloc, out, i, place);
        }
        self.write_cropped(alloc, out, i)
    }

    // Adds a row in which something may be selected, counted from 0, if there is one.
    fn write_marked(self, alloc: Global, out: &mut Vec<u8>, i: usize) -> Result<(), AllocError>
        requires { i + 1 < 2 ^ 64 }
        ensures { OnOk result (WritesShown self.entry i out.old.items out.new.items) }
    {
        let Some(row) = self.row(alloc, i)? else {
            return Ok(());
        };
        write_row(out, row.as_str())?;
        Ok(())
    }

    // Adds what is shown of a row, counted from 0, if there is one. It is looked for near a place first.
    pub(crate) fn write_shown(
        self,
        alloc: Global,
        out: &mut Vec<u8>,
        i: usize,
        place: &mut RowPlace,
    ) -> Result<(), AllocError>
        requires { i + 1 < 2 ^ 64 }
        ensures { OnOk result (WritesShown self.entry i out.old.items out.new.items) }
    {
        let frame = Frame::of(self.view, self.left_mark);
        match frame.selected_range(self.ends, i) {
            Some(_) => self.write_marked(alloc, out, i),
            None => self.write_unmarked(alloc, out, i, place),
        }
    }
}
