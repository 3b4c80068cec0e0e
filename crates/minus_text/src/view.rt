//! The rows of a text, or those that a push of it would leave, and what was found in them.
ghost use Rattle.std.specs.Prelude.{◌≡◌, option_map, string_bytes, IfOk};
ghost use Rattle.minus_text.specs.Document.{rows_of};
ghost use Rattle.minus_text.specs.Found.{Ascend, Ascend-prop};
ghost use Rattle.minus_text.specs.FoundBy.{found_rows, AreJumps, AreJumps-prop, FoundRowsStand, FoundRowsStand-prop};
ghost use Rattle.minus_text.specs.NextPushes.{IsPendingBehind, IsPendingBehind-prop};
ghost use Rattle.minus_text.specs.ViewedRows.{viewed_text};

use crate::formatted::FormattedRow;
use crate::layout::Layout;
use crate::matched_text::MatchedText;
use crate::number_prefix::RowPrefix;
use crate::pending::PendingPush;
use crate::row_text::RowText;
use crate::screen::Row;
use crate::search::found_rows::FoundRows;
use crate::store::Store;
use crate::viewed_row::{RowPlace, ViewedRow};
use std::alloc::{AllocError, Global};

// A push that is not made yet: its text, and what was formed and found for it.
#[derive(Clone, Copy)]
pub(crate) struct NextPush<'s> {
    pub(crate) text: &'s str,
    pub(crate) pending: &'s PendingPush,
}

/// The rows of a text, with what was found in them: those that a screen has, or those that a push would leave.
/// `Screen::view`, and `view_of` and `view_after` of `screen::searching`, make it.
#[derive(Clone, Copy)]
pub struct RowsView<'s> {
    pub(crate) store: &'s Store,
    pub(crate) found: &'s FoundRows,
    pub(crate) next: Option<NextPush<'s>>,
    pub(crate) ghost placed: { FoundRowsStand store.now found.now } by { FoundRowsStand-prop store.now found.now },
    pub(crate) ghost ascend: { Ascend 0 (found_rows found.now) } by { Ascend-prop 0 (found_rows found.now) },
    pub(crate) ghost jumps: { AreJumps found.now } by { AreJumps-prop found.now },
    pub(crate) ghost pending: { IsPendingBehind store.now next } by { IsPendingBehind-prop store.now next },
}

// A row as one of its own, if there is one.
fn row_of(alloc: Global, row: Option<ViewedRow<'_>>) -> Result<Option<Row>, AllocError>
    ensures { IfOk result (λ r. option_map string_bytes r ≡ option_map viewed_text row.entry) }
{
    match row {
        Some(row) => Ok(Some(row.to_row(alloc)?)),
        None => Ok(None),
    }
}

impl<'s> RowsView<'s> {
    ghost use Rattle.std.specs.Prelude.{◌==◌, Some, length, slice_get, IfSome};
    ghost use Rattle.std.specs.List.{position_or_len};
    ghost use Rattle.minus_text.specs.Document.{line_count, IsPrefixOf};
    ghost use Rattle.minus_text.specs.Formatted.{prefix_of};
    ghost use Rattle.minus_text.specs.Found.{ArePlacedAt, found_of_row, jump_rows, match_total, matches_above};
    ghost use Rattle.minus_text.specs.JumpRows.{counted};
    ghost use Rattle.minus_text.specs.MatchedTexts.{IsMatchedRow};
    ghost use Rattle.minus_text.specs.Matches.{counts_first, nearest, nth_match};
    ghost use Rattle.minus_text.specs.Searched.{IsRowBehind, IsStoredRow, IsHighlightedRow};
    ghost use Rattle.minus_text.specs.Views.{viewed};

    /// The number of rows. It takes no memory.
    pub fn len(self) -> usize
        ensures { result ≡ length (rows_of (viewed self.entry).document) }
    {
        match self.next {
            Some(next) => {
                let push = next.pending.push();
                push.kept_rows() + push.formed_rows()
            }
            None => self.store.formatted_lines_count(),
        }
    }

    /// Whether there is no row. It takes no memory.
    pub fn is_empty(self) -> bool
        ensures { result ≡ (length (rows_of (viewed self.entry).document) == 0) }
    {
        self.len() == 0
    }

    /// The number of lines. It takes no memory.
    pub fn line_count(self) -> usize
        ensures { result ≡ line_count (viewed self.entry).document }
    {
        match self.next {
            Some(next) => {
                let push = next.pending.push();
                let kept = push.kept_lines().min(self.store.lines_to_row_map().len());
                kept + push.first_rows().len()
            }
            None => self.store.line_count(),
        }
    }

    /// The layout of the rows. It takes no memory.
    pub fn layout(self) -> Layout
        ensures { result ≡ (viewed self.entry).document.layout }
    {
        match self.next {
            Some(next) => next.pending.push().relaid(self.store.layout()),
            None => self.store.layout(),
        }
    }

    /// The text of a row, counted from 0, without what stands before it and without markers, and a place from which on
    /// it has no escape sequence. It takes no memory.
    pub fn row_text(self, i: usize) -> Option<RowText<'s>>
        ensures { option_map (λ r. r.text.now) result ≡ slice_get (rows_of (viewed self.entry).document) i }
    {
        let Some(next) = self.next else {
            return self.store.row(i);
        };
        let push = next.pending.push();
        let kept = push.kept_rows();
        if i < kept {
            return self.store.row(i);
        }
        push.row(i - kept)
    }

    /// The text of a row, counted from 0, without what stands before it and without markers. It takes no memory.
    pub fn text(self, i: usize) -> Option<&'s str>
        ensures { option_map (λ r. r.now) result ≡ slice_get (rows_of (viewed self.entry).document) i }
    {
        match self.row_text(i) {
            Some(row) => Some(row.text),
            None => None,
        }
    }

    // What stands before the text of a row, counted from 0. Its line is looked for near a line first; without numbers
    // none is looked for.
    fn prefix(self, i: usize, near: usize) -> RowPrefix
        ensures { IsPrefixOf (viewed self.entry).document i (prefix_of result) }
    {
        if !self.layout().numbers.is_on() {
            return RowPrefix::NONE;
        }
        let Some(next) = self.next else {
            return self.store.row_prefix(i, near);
        };
        let push = next.pending.push();
        let behind = push.first_rows();
        let lines = self.store.lines_to_row_map();
        let kept = push.kept_lines().min(lines.len());
        let Some((line, is_first)) = lines.line_in(kept, behind, i) else {
            return RowPrefix::NONE;
        };
        RowPrefix {
            numbers: push.numbers().is_on(),
            line_count: kept + behind.len(),
            line: line + 1,
            is_first,
        }
    }

    // What knows of a row, counted from 0, what was found in it.
    fn found_at(self, i: usize) -> &'s FoundRows
        ensures ascend { Ascend 0 (found_rows result.now) }
        ensures found { found_of_row i (found_rows result.now) ≡ found_of_row i (viewed self.entry).found }
        ensures placed { ArePlacedAt (rows_of (viewed self.entry).document) i (found_rows result.now) }
    {
        let Some(next) = self.next else {
            return self.found;
        };
        let formed = next.pending.found();
        if i < next.pending.push().kept_rows() {
            return self.found;
        }
        formed
    }

    // A row, counted from 0, if there is one, with this before its text and the style that is carried to it. How many
    // rows match above it is looked for near some number first, and put there.
    fn row_behind(self, prefix: RowPrefix, i: usize, near: &mut usize) -> Option<ViewedRow<'s>>
        ensures { IsRowBehind (prefix_of prefix) (viewed self.entry) i (option_map viewed_text result) }
    {
        let Some(row) = self.text(i) else {
            return None;
        };
        let found = self.found_at(i).of_row(i, near);
        Some(ViewedRow {
            row: FormattedRow { row, prefix },
            style: self.style_source(i),
            found,
        })
    }

    /// A row as it is stored, counted from 0, if there is one: what stands before its text, the style that is carried
    /// to it, and its text with its matches in reverse. It takes no memory. It is looked for near a place first, which
    /// is moved on to it. Where styles are carried, its line is read back from it as far as the last reset.
    pub fn row(self, i: usize, place: &mut RowPlace) -> Option<ViewedRow<'s>>
        ensures { IsStoredRow (viewed self.entry) i (option_map viewed_text result) }
    {
        let prefix = self.prefix(i, place.line);
        place.line = prefix.line.saturating_sub(1);
        self.row_behind(prefix, i, &mut place.found)
    }

    /// A row as it is stored, counted from 0, if there is one: what stands before its text, the style that is carried
    /// to it, and its text with its matches in reverse.
    ///
    /// # Errors
    ///
    /// [`AllocError`] where there is no memory for it.
    pub fn formatted_row(self, alloc: Global, i: usize) -> Result<Option<Row>, AllocError>
        ensures { IfOk result (λ row. IsStoredRow (viewed self.entry) i (option_map string_bytes row)) }
    {
        let mut place = RowPlace::TOP;
        let row = self.row(i, &mut place);
        row_of(alloc, row)
    }

    /// The text of a row, counted from 0, if there is one, with its matches in reverse and nothing before it but the
    /// style that is carried to it.
    ///
    /// # Errors
    ///
    /// [`AllocError`] where there is no memory for it.
    pub fn highlighted_row(self, alloc: Global, i: usize) -> Result<Option<Row>, AllocError>
        ensures { IfOk result (λ row. IsHighlightedRow (viewed self.entry) i (option_map string_bytes row)) }
    {
        let mut near = 0;
        let row = self.row_behind(RowPrefix::NONE, i, &mut near);
        row_of(alloc, row)
    }

    /// The text of a row, counted from 0, if there is one, nothing was found in it, and no style is carried to it: so
    /// it is with its matches in reverse. It takes no memory.
    pub fn plain_text(self, i: usize) -> Option<&'s str>
        ensures { IfSome result (λ text. IsHighlightedRow (viewed self.entry) i (Some text.now)) }
    {
        let row = self.unmatched(i)?;
        Some(row.text)
    }

    /// It with a place from which on it has no escape sequence.
    pub fn unmatched(self, i: usize) -> Option<RowText<'s>>
        ensures { IfSome result (λ row. IsHighlightedRow (viewed self.entry) i (Some row.text.now)) }
    {
        let row = self.row_text(i)?;
        if !self.style_source(i).is_plain() {
            return None;
        }
        let mut near = 0;
        match self.found_at(i).of_row(i, &mut near) {
            Some(_) => None,
            None => Some(row),
        }
    }

    /// The text of a row, counted from 0, if there is one, with its matches. It takes no memory.
    pub fn matched_text(self, i: usize) -> Option<MatchedText<'s>>
        ensures { IsMatchedRow (viewed self.entry) i result }
    {
        let Some(text) = self.row_text(i) else {
            return None;
        };
        let mut near = 0;
        let found = self.found_at(i).of_row(i, &mut near);
        Some(MatchedText { text, found })
    }

    /// A row, counted from 0, if there is one that is stored as its own text: it has no number, nothing was found in
    /// it, and no style is carried to it. It takes no memory.
    pub fn plain_row(self, i: usize) -> Option<&'s str>
        ensures { IfSome result (λ row. IsStoredRow (viewed self.entry) i (Some row.now)) }
    {
        if self.layout().numbers.is_on() {
            return None;
        }
        let row = self.plain_text(i)?;
        Some(row)
    }

    /// The number of rows in which matches begin. It takes no memory.
    pub fn match_count(self) -> usize
        ensures { result ≡ length (jump_rows (viewed self.entry).found) }
    {
        match self.next {
            Some(next) => next.pending.match_count(self.found),
            None => self.found.len(),
        }
    }

    /// The number, counted from 0, of a row in which matches begin. Such rows are counted from 0 in their order. It
    /// takes no memory.
    pub fn match_row(self, i: usize) -> Option<usize>
        ensures { result ≡ slice_get (jump_rows (viewed self.entry).found) i }
    {
        match self.next {
            Some(next) => next.pending.match_row(self.found, i),
            None => self.found.row(i),
        }
    }

    /// How many matches there are. It takes no memory.
    pub fn match_total(self) -> usize
        ensures { result ≡ counted (match_total (viewed self.entry).found) }
    {
        match self.next {
            Some(next) => next.pending.match_total(self.found),
            None => self.found.match_total(),
        }
    }

    /// How many matches begin in the rows above one, counted from 0. It takes no memory, and halves the rows in which
    /// matches begin.
    pub fn matches_above(self, row: usize) -> usize
        ensures { result ≡ counted (matches_above row (viewed self.entry).found) }
    {
        match self.next {
            Some(next) => next.pending.matches_above(self.found, row),
            None => self.found.matches_above(row),
        }
    }

    // The number of rows in which matches begin before the first that a jump by this number of matches from a mark may
    // count.
    fn matches_before(self, mark: usize, jump: usize) -> usize
        ensures { result ≡ position_or_len (counts_first mark jump) (jump_rows (viewed self.entry).found) }
    {
        let before = self.found.count_before(mark, jump);
        let Some(next) = self.next else {
            return before;
        };
        let kept = self.found.count_above(next.pending.push().kept_rows());
        if before < kept {
            return before;
        }
        kept + next.pending.found().count_before(mark, jump)
    }

    // The place of the first row in which matches begin and that a jump may count, or 0.
    fn nearest(self, mark: usize, jump: usize) -> usize
        ensures { result ≡ nearest (jump_rows (viewed self.entry).found) mark jump }
    {
        let before = self.matches_before(mark, jump);
        if before < self.match_count() {
            return before;
        }
        0
    }

    /// The place, counted from 0 among the rows in which matches begin, of the one that a jump by this number of them
    /// from a row goes to; a jump by 0 stays at a match that begins right there. Past the last the jump goes on at the
    /// first. `None` where there is none. It takes no memory, and halves these rows.
    pub fn nth_match(self, mark: usize, jump: usize) -> Option<usize>
        ensures { result ≡ nth_match (jump_rows (viewed self.entry).found) mark jump }
    {
        let count = self.match_count();
        if count == 0 {
            return None;
        }
        let first = self.nearest(mark, jump);
        if jump == 0 {
            return Some(first);
        }
        let step = (jump - 1) % count;
        let left = count - first;
        Some(if step < left {
            first + step
        } else {
            step - left
        })
    }
}
