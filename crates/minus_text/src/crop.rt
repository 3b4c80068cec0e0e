//! Texts cut to some columns.
ghost use Rattle.std.specs.Prelude.{◌≡◌, ◌≤◌, ◌+◌, ◌-◌, ◌==◌, ◌++◌, max, true, length, take, drop, chars, string_bytes, if◌then◌else◌, IfOk, IfSome, OnOk, IsTrue, ℕ, List};
ghost use Rattle.std.specs.List.{list_all};
ghost use Rattle.minus_text.specs.Plain.{is_printable, is_unescaped};
ghost use Rattle.minus_text.specs.RowText.{IsUnescapedFrom};
ghost use Rattle.minus_text.specs.Units.{unit_columns, columns, begins_sequence};
ghost use Rattle.minus_text.specs.ShownMatches.{meets, IsPlainTo};
ghost use Rattle.minus_text.specs.Crop.{is_inside, columns_inside, is_shown_behind, is_shown, shown_unit_text, cropped, fitted, CroppedFits, FittedTextsFill};

use crate::plain::{are_printable, are_unescaped};
use crate::row_text::RowText;
use crate::screen::Row;
use crate::spaces::push_spaces;
use crate::units::{Unit, Units};
use std::alloc::{AllocError, Global};

/// Columns of a text that are shown: how many, from the column `left` on, counted from 0.
#[derive(Clone, Copy)]
pub struct Window {
    /// The first column that is shown, counted from 0.
    pub left: usize,
    /// How many columns are shown.
    pub width: usize,
}

impl Window {
    /// Whether this many columns from the column `at` on are all shown.
    pub fn is_inside(self, at: usize, columns: usize) -> bool
        ensures { result ≡ is_inside self.left self.width at columns }
    {
        self.left <= at && at - self.left <= self.width && columns <= self.width - (at - self.left)
    }

    // How many of them are shown.
    fn columns_inside(self, at: usize, columns: usize) -> usize
        ensures { result ≡ columns_inside self.left self.width at columns }
    {
        let behind = columns.saturating_sub(self.left.saturating_sub(at));
        behind.min(self.width.saturating_sub(at.saturating_sub(self.left)))
    }

    // Whether a character without columns is shown.
    fn is_shown_behind(self, at: usize, last: usize) -> bool
        ensures { result ≡ is_shown_behind self.left self.width at last }
    {
        if last == 0 {
            self.left == 0
        } else {
            self.is_inside(at.saturating_sub(last), last)
        }
    }

    // Whether a unit is shown as it is.
    fn is_shown(self, at: usize, last: usize, unit: Unit<'_>) -> bool
        requires columns { unit.columns ≡ unit_columns (chars unit.text.now) }
        requires sequence { unit.is_sequence ≡ begins_sequence (chars unit.text.now) }
        ensures { result ≡ is_shown self.left self.width at last (chars unit.entry.text.now) }
    {
        if unit.is_sequence {
            return true;
        }
        if unit.columns == 0 {
            return self.is_shown_behind(at, last);
        }
        self.is_inside(at, unit.columns)
    }

    // Whether some of the columns from one on up to another are shown.
    pub(crate) fn meets(self, start: usize, end: usize) -> bool
        ensures { result ≡ meets self.left self.width start end }
    {
        let from = self.left.max(start);
        from < end && from - self.left < self.width
    }

    // Whether a column stands behind those that are shown.
    pub(crate) fn is_behind(self, column: usize) -> bool
        ensures { IsTrue result → self.left + self.width ≤ column }
    {
        self.left <= column && self.width <= column - self.left
    }

    // Adds what is shown of characters of printable ASCII from the column `at` on.
    fn push_run(self, row: &mut String, at: usize, run: &str) -> Result<(), AllocError>
        requires { list_all is_printable run.now ≡ true }
        ensures { OnOk result (string_bytes row.new ≡ string_bytes row.old
            ++ take (self.left + self.width - max self.left at) (drop (self.left - at) run.now)) }
    {
        let rest = &run[self.left.saturating_sub(at).min(run.len())..];
        let count = self.width.saturating_sub(at.saturating_sub(self.left));
        row.push_str(&rest[..count.min(rest.len())])?;
        Ok(())
    }

    // Adds what is shown of a unit.
    fn push_unit(
        self,
        row: &mut String,
        at: usize,
        last: usize,
        unit: Unit<'_>,
    ) -> Result<(), AllocError>
        requires columns { unit.columns ≡ unit_columns (chars unit.text.now) }
        requires sequence { unit.is_sequence ≡ begins_sequence (chars unit.text.now) }
        ensures { OnOk result (string_bytes row.new
            ≡ string_bytes row.old
            ++ shown_unit_text self.left self.width at last (chars unit.entry.text.now)) }
    {
        if self.is_shown(at, last, unit) {
            row.push_str(unit.text)?;
            return Ok(());
        }
        push_spaces(row, self.columns_inside(at, unit.columns))?;
        Ok(())
    }
}

// The columns of the last unit that has columns, where one more follows.
fn last_columns(last: usize, columns: usize) -> usize
    ensures { result ≡ (if columns == 0 then last else columns) }
{
    if columns == 0 { last } else { columns }
}

// The columns of the last unit that has columns, where characters of printable ASCII follow.
fn last_of_run(last: usize, run: &str) -> usize
    ensures { result ≡ (if length run.now == 0 then last else 1) }
{
    if run.is_empty() { last } else { 1 }
}

// Whether what stands behind a place of a text has no ESC: that is known from a place before, or each byte is read.
fn is_unescaped_behind(rest: &[u8], at: usize, escapes_end: usize) -> bool
    ensures { IsTrue result → (text : List ℕ) → IsUnescapedFrom escapes_end text → rest.now ≡ drop at text →
        list_all is_unescaped rest.now ≡ true }
{
    if escapes_end <= at {
        return true;
    }
    are_unescaped(rest)
}

// Whether a text is printable ASCII up to the first column behind those that are shown, and has no ESC. Where it is
// known to have none from a place before on, no character behind that one is read.
fn is_plain_in(text: &str, window: Window, escapes_end: usize) -> bool
    requires { IsUnescapedFrom escapes_end text.now }
    ensures { IsTrue result → IsPlainTo (window.left + window.width) text.now }
{
    let bytes = text.as_bytes();
    let end = window.left.saturating_add(window.width);
    if bytes.len() <= end {
        return are_printable(bytes);
    }
    let (front, rest) = bytes.split_at(end + 1);
    are_printable(front) && is_unescaped_behind(rest, end + 1, escapes_end)
}

// What is shown of such a text: a part of it.
fn plain_part(text: &str, left: usize, width: usize, escapes_end: usize) -> Option<&str>
    requires { IsUnescapedFrom escapes_end text.now }
    ensures { IfSome result (λ part. part.now ≡ cropped left width text.now) }
{
    if !is_plain_in(text, Window { left, width }, escapes_end) {
        return None;
    }
    let end = left.saturating_add(width).min(text.len());
    Some(&text[left.min(end)..end])
}

// Adds what is shown of a text: of characters of printable ASCII all together, of any other unit by unit.
pub(crate) fn push_units(
    row: &mut String,
    text: &str,
    left: usize,
    width: usize,
) -> Result<(), AllocError>
    ensures { OnOk result (string_bytes row.new ≡ string_bytes row.old ++ cropped left width text.now) }
{
    let window = Window { left, width };
    let mut at = 0;
    let mut last = 0;
    let mut rest = Units::new(text);
    loop {
        let (run, behind) = rest.split_printable();
        window.push_run(row, at, run)?;
        last = last_of_run(last, run);
        at += run.len();
        let Some((unit, more)) = behind.split_first() else {
            return Ok(());
        };
        window.push_unit(row, at, last, unit)?;
        last = last_columns(last, unit.columns);
        at += unit.columns;
        rest = more;
    }
}

// Adds to a row what is shown of a text, as `crop_columns` gives it. An `Err` only means out of memory; it may leave
// some of it behind.
fn push_cropped(row: &mut String, text: &str, left: usize, width: usize) -> Result<(), AllocError>
    ensures { OnOk result (string_bytes row.new ≡ string_bytes row.old ++ cropped left width text.now) }
{
    RowText::new(text).push_cropped(row, left, width)
}

impl<'t> RowText<'t> {
    /// What is shown of it in this many columns from the column `left` on, as [`crop_columns`] gives it, where that is
    /// a part of it: where no other characters than printable ASCII stand in the columns up to the first behind these,
    /// and no escape sequence behind. Nothing of that is read where it is known to have none.
    pub fn shown_part(self, left: usize, width: usize) -> Option<&'t str>
        ensures { IfSome result (λ part. part.now ≡ cropped left width self.entry.text.now) }
    {
        plain_part(self.text, left, width, self.escapes_end)
    }

    // Whether its columns are its bytes, up to the first behind those that are shown.
    pub(crate) fn is_plain_in(self, window: Window) -> bool
        ensures { IsTrue result → IsPlainTo (window.left + window.width) self.entry.text.now }
    {
        is_plain_in(self.text, window, self.escapes_end)
    }

    /// Adds to a row what is shown of it in this many columns from the column `left` on, as [`crop_columns`] gives it.
    /// An `Err` is only since memory runs out; it may leave some of it behind.
    pub fn push_cropped(self, row: &mut String, left: usize, width: usize) -> Result<(), AllocError>
        ensures { OnOk result (string_bytes row.new
            ≡ string_bytes row.old ++ cropped left width self.entry.text.now) }
    {
        if let Some(part) = self.shown_part(left, width) {
            row.push_str(part)?;
            return Ok(());
        }
        push_units(row, self.text, left, width)
    }
}

/// What is shown of a text, taken as one piece, in this many columns from the column `left` on, counted from
/// 0. A unit with columns is shown if they are all among these, and else as a space for each of its columns
/// that is; each `ESC[` sequence is shown; any other character without columns is shown with the last unit
/// with columns before it, and with none before it where `left` is 0. Fails only if memory runs out.
pub fn crop_columns(alloc: Global, text: &str, left: usize, width: usize) -> Result<Row, AllocError>
    ensures row { IfOk result (λ row. string_bytes row ≡ cropped left width text.now) }
    ensures fits { IfOk result (λ row. columns (string_bytes row) ≤ width) }
{
    let mut row = String::new(alloc);
    push_cropped(&mut row, text, left, width)?;
    Ok(row)
}

/// A text, taken as one piece, cut to its longest front of whole units that takes at most this many columns,
/// and filled with spaces to as many. Fails only if memory runs out.
pub fn fit_columns(alloc: Global, text: &str, cols: usize) -> Result<Row, AllocError>
    ensures row { IfOk result (λ row. string_bytes row ≡ fitted cols text.now) }
    ensures fills { IfOk result (λ row. columns (string_bytes row) ≡ cols) }
{
    let mut row = String::new(alloc);
    let mut left = cols;
    let mut rest = Units::new(text);
    while let Some((unit, more)) = rest.split_first() {
        if unit.columns > left {
            push_spaces(&mut row, left)?;
            return Ok(row);
        }
        row.push_str(unit.text)?;
        left -= unit.columns;
        rest = more;
    }
    push_spaces(&mut row, left)?;
    Ok(row)
}

/// What is shown of a text, taken as one piece, takes at most the columns that there are.
pub fn cropped_texts_fit()
    ensures { CroppedFits }
{}

/// A text cut or filled to some columns has the longest front of units that fits, and takes just as many
/// columns.
pub fn fitted_texts_fill()
    ensures { FittedTextsFill }
{}
