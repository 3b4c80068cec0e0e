//! What stands around the text of a row: the number before it, and the columns that it has.
ghost use Rattle.std.specs.Prelude.{◌≡◌, ◌<◌, ◌+◌, ◌^◌, ℕ, string_bytes, IfOk, OnOk};
ghost use Rattle.minus_text.specs.Document.{Document};
ghost use Rattle.minus_text.specs.Formatted.{prefix_of};
ghost use Rattle.minus_text.specs.Views.{viewed};
ghost use Rattle.minus_state.specs.Frame.{frame_of, IsCroppedLine, WritesCroppedLine};
ghost use Rattle.minus_state.specs.Selection.{ends_in_order};
ghost use Rattle.minus_state.specs.ShownRow.{columns_for_text, line_prefix, selected_range};
ghost use Rattle.minus_state.specs.View.{prefix_in, cut_in};

use crate::selection::{SelectionEnds, marked_range};
use minus_text::{FormattedRow, Layout, MatchedText, Row, RowsView, Window, prefix_columns};
use std::alloc::{AllocError, Global};

// How a text is laid out, how many lines it has, and the left mark that it is shown from.
#[derive(Clone, Copy)]
pub(crate) struct Frame {
    pub(crate) layout: Layout,
    pub(crate) line_count: usize,
    pub(crate) left_mark: usize,
}

impl Frame {
    // What stands around the rows of a text that are shown from a left mark on.
    pub(crate) fn of(view: RowsView<'_>, left_mark: usize) -> Frame
        ensures { result ≡ frame_of (viewed view.entry).document left_mark }
    {
        Frame {
            layout: view.layout(),
            line_count: view.line_count(),
            left_mark,
        }
    }

    // The columns that stand before the text of each row.
    pub(crate) fn prefix(self) -> usize
        ensures { (d : Document) (left : ℕ) → self ≡ frame_of d left → result ≡ prefix_in d }
    {
        prefix_columns(self.layout.numbers.is_on(), self.line_count)
    }

    // The columns of the text that are cut off at the left.
    pub(crate) fn cut(self) -> usize
        ensures { (d : Document) (left : ℕ) → self ≡ frame_of d left → result ≡ cut_in d left }
    {
        if self.layout.wrapping {
            return 0;
        }
        self.left_mark
    }

    // The columns that are left for the text of a row.
    fn columns(self) -> usize
        ensures { (d : Document) (left : ℕ) → self ≡ frame_of d left → result ≡ columns_for_text d }
    {
        self.layout.cols.saturating_sub(self.prefix())
    }

    // A line that is one row, counted from 0, with this in the place of its text.
    fn line(self, i: usize, text: &str) -> FormattedRow<'_>
        requires { i + 1 < 2 ^ 64 }
        ensures prefix { (d : Document) (left : ℕ) → self ≡ frame_of d left →
            prefix_of result.prefix ≡ line_prefix d i }
        ensures row { result.row.now ≡ text.now }
    {
        let numbers = self.layout.numbers.is_on();
        FormattedRow::new(text, numbers, self.line_count, i + 1, true)
    }

    // The columns of the text of a row that are shown.
    fn window(self) -> Window
        ensures { (d : Document) (left : ℕ) → self ≡ frame_of d left →
            result ≡ record { left = left; width = columns_for_text d } }
    {
        Window {
            left: self.left_mark,
            width: self.columns(),
        }
    }

    // What is shown of a line that is one row, counted from 0, with this text: of the text what stands from the left
    // mark on.
    pub(crate) fn cropped(
        self,
        alloc: Global,
        i: usize,
        text: MatchedText<'_>,
    ) -> Result<Row, AllocError>
        requires { i + 1 < 2 ^ 64 }
        ensures { IfOk result (λ row. IsCroppedLine self i text.entry (string_bytes row)) }
    {
        let mut row = self.line(i, "").to_row(alloc)?;
        text.push_cropped(alloc, &mut row, self.window())?;
        Ok(row)
    }

    // Adds it to the bytes of a drawing.
    pub(crate) fn write_cropped(
        self,
        alloc: Global,
        out: &mut Vec<u8>,
        i: usize,
        text: MatchedText<'_>,
    ) -> Result<(), AllocError>
        requires { i + 1 < 2 ^ 64 }
        ensures { OnOk result (WritesCroppedLine self i text.entry out.old.items out.new.items) }
    {
        self.line(i, "").write_to(out)?;
        text.write_cropped(alloc, out, self.window())?;
        Ok(())
    }

    // The visible characters of a row, counted from 0, that are selected.
    pub(crate) fn selected_range(
        self,
        ends: SelectionEnds,
        i: usize,
    ) -> Option<(usize, Option<usize>)>
        ensures { (d : Document) (left : ℕ) → self ≡ frame_of d left →
            result ≡ selected_range d left (ends_in_order ends) i }
    {
        let (first, last) = ends.in_order()?;
        marked_range(first, last, i, self.prefix(), self.cut())
    }
}
