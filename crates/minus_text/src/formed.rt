//! Rows formed of a text, beside what is kept.
ghost use Rattle.std.specs.Prelude.{◌≡◌, ℕ, ◌+◌, ◌-◌, ◌^◌, ◌<◌, ◌≤◌, ◌∷◌, [], ◌++◌, length, drop, max, IsTrue, IfOk, OnOk};
ghost use Rattle.std.specs.Str.{IsCharBoundary};
ghost use Rattle.minus_text.specs.Lines.{cut, whole};
ghost use Rattle.minus_text.specs.Layouts.{own_rows};
ghost use Rattle.minus_text.specs.Units.{columns};
ghost use Rattle.minus_text.specs.Kept.{line_stored, IsPrepared, GoesOnInSome, IsBorderOfEach};
ghost use Rattle.minus_text.specs.Forms.{IsBegun, IsFormOfLines};

use crate::layout::Wrap;
use crate::line_cuts::push_printable;
use crate::lines::{split_line, without_return};
use crate::lines_row_map::LinesRowMap;
use crate::plain::is_unescaped;
use crate::rows::{Span, wrap_line};
use crate::settled::settled;
use crate::units::columns;
use std::alloc::{AllocError, Global};

// How far lines go that a newline ends: how many lines, rows and bytes, and the columns of the
// longest of them.
#[derive(Clone, Copy, Debug)]
pub(crate) struct Finished {
    pub(crate) lines: usize,
    pub(crate) rows: usize,
    pub(crate) bytes: usize,
    pub(crate) longest: usize,
}

impl Finished {
    // Before the first line.
    pub(crate) const START: Finished = Finished {
        lines: 0,
        rows: 0,
        bytes: 0,
        longest: 0,
    };

    // Whether another is the same place.
    fn is_same(self, other: Finished) -> bool
        ensures { IsTrue result → self ≡ other }
    {
        self.lines == other.lines
            && self.rows == other.rows
            && self.bytes == other.bytes
            && self.longest == other.longest
    }
}

// How far the unfinished line is measured: this many bytes of it take this many columns, whatever
// follows them.
#[derive(Clone, Copy, Debug)]
pub(crate) struct Border {
    pub(crate) bytes: usize,
    pub(crate) columns: usize,
}

impl Border {
    // Before the line.
    pub(crate) const START: Border = Border {
        bytes: 0,
        columns: 0,
    };
}

// Where forming goes on: behind finished lines, and behind this many rows and bytes of the
// unfinished line that stay whatever follows it.
#[derive(Clone, Copy, Debug)]
pub(crate) struct Restart {
    pub(crate) finished: Finished,
    pub(crate) rows: usize,
    pub(crate) bytes: usize,
    pub(crate) border: Border,
}

impl Restart {
    // Before all lines.
    pub(crate) const START: Restart = Restart {
        finished: Finished::START,
        rows: 0,
        bytes: 0,
        border: Border::START,
    };

    // Whether another is the same place.
    pub(crate) fn is_same(self, other: Restart) -> bool
        ensures { IsTrue result → self ≡ other }
    {
        self.finished.is_same(other.finished)
            && self.rows == other.rows
            && self.bytes == other.bytes
            && self.border.bytes == other.border.bytes
            && self.border.columns == other.border.columns
    }
}

// How a push forms: whether the rows of the finished lines stay, and how lines fill rows then.
#[derive(Clone, Copy)]
pub(crate) struct Plan {
    pub(crate) keeps: bool,
    pub(crate) wrap: Wrap,
}

// What is formed of a text: the places of its rows, the first row of each line, how far its
// finished lines go, how far its unfinished line is measured, and the columns of its longest line.
#[derive(Debug, Drop)]
pub(crate) struct Formed {
    pub(crate) rows: Vec<Span>,
    pub(crate) first_rows: LinesRowMap,
    pub(crate) finished: Finished,
    pub(crate) border: Border,
    pub(crate) longest: usize,
}

impl Formed {
    // The columns of the longest line, with those of the finished lines before.
    pub(crate) fn longest_behind(&self, start: Restart) -> usize
        ensures { result ≡ max start.finished.longest self.now.longest }
    {
        start.finished.longest.max(self.longest)
    }
}

// What is formed of the lines so far.
#[derive(Drop)]
struct Forming {
    rows: Vec<Span>,
    first_rows: Vec<usize>,
    longest: usize,
}

// Adds the rows of a line that begins at a place of the text.
fn push_rows(
    alloc: Global,
    rows: &mut Vec<Span>,
    at: usize,
    line: &str,
    wrap: Wrap,
) -> Result<(), AllocError>
    requires { at + length line.now < 2 ^ 64 }
    ensures items { OnOk result (rows.new.items ≡ rows.old.items ++ line_stored wrap at line.now) }
    ensures len { OnOk result (length rows.new.items ≡ length rows.old.items + length (own_rows wrap line.now)) }
{
    let Wrap::At(cols) = wrap else {
        rows.push(Span {
            start: at,
            end: at + line.len(),
        })?;
        return Ok(());
    };
    if push_printable(rows, at, line, cols)? {
        return Ok(());
    }
    let places = wrap_line(alloc, line, cols)?;
    for part in &places {
        rows.push(Span {
            start: at + part.start,
            end: at + part.end,
        })?;
    }
    Ok(())
}

// Adds a line that begins at a place.
fn add_line(
    alloc: Global,
    forming: &mut Forming,
    place: Finished,
    line: &str,
    wrap: Wrap,
) -> Result<(), AllocError>
    requires { place.bytes + length line.now < 2 ^ 64 }
    ensures rows { OnOk result (forming.new.rows.items ≡ forming.old.rows.items
        ++ line_stored wrap place.bytes line.now) }
    ensures count { OnOk result (length forming.new.rows.items
        ≡ length forming.old.rows.items + length (own_rows wrap line.now)) }
    ensures first_row { OnOk result (forming.new.first_rows.items
        ≡ forming.old.first_rows.items ++ place.rows ∷ []) }
    ensures longest { OnOk result (forming.new.longest ≡ max forming.old.longest (columns line.now)) }
{
    push_rows(alloc, &mut forming.rows, place.bytes, line, wrap)?;
    forming.first_rows.push(place.rows)?;
    if line.len() > forming.longest {
        forming.longest = forming.longest.max(columns(line));
    }
    Ok(())
}

// Forms the lines of a text that begin at a place, behind others that are formed.
fn form_lines(
    alloc: Global,
    mut forming: Forming,
    kept: usize,
    text: &str,
    from: Finished,
    wrap: Wrap,
) -> Result<Formed, AllocError>
    requires bytes { from.bytes + length text.now < 2 ^ 64 }
    requires lines { from.lines + length text.now < 2 ^ 64 }
    requires kept { kept < 2 ^ 63 }
    requires rows { from.rows ≡ kept + length forming.rows.items }
    requires longest { forming.longest ≤ from.longest }
    requires first_row { (row : ℕ) × (forming.first_rows.items ≡ row ∷ []) × (row < from.rows) }
    ensures { IfOk result (λ f. IsFormOfLines wrap forming text.now from f) }
{
    let mut place = from;
    let mut rest = text;
    while let Some((first, more)) = split_line(rest) {
        add_line(alloc, &mut forming, place, without_return(first), wrap)?;
        place.lines += 1;
        place.rows = kept + forming.rows.len();
        place.bytes += first.len() + 1;
        rest = more;
    }
    place.longest = from.longest.max(forming.longest);
    if !rest.is_empty() {
        add_line(alloc, &mut forming, place, rest, wrap)?;
    }
    Ok(Formed {
        rows: forming.rows,
        first_rows: LinesRowMap::from_first_rows(forming.first_rows),
        finished: place,
        border: Border::START,
        longest: forming.longest,
    })
}

// What is formed of the line that a text goes on in, whose rows begin at a place.
fn begin_line(alloc: Global, start: Restart, line: &str, wrap: Wrap) -> Result<Forming, AllocError>
    requires bytes { (start.finished.bytes + start.bytes) + length line.now < 2 ^ 64 }
    requires behind { start.bytes ≤ start.border.bytes }
    requires boundary { IsCharBoundary line.now (start.border.bytes - start.bytes) }
    requires columns { start.border.columns + (length line.now - (start.border.bytes - start.bytes)) < 2 ^ 64 }
    ensures { IfOk result (λ f. IsBegun wrap line.now start f) }
{
    let unmeasured = &line[start.border.bytes - start.bytes..];
    let mut forming = Forming {
        rows: Vec::new(alloc),
        first_rows: Vec::new(alloc),
        longest: start.border.columns + columns(unmeasured),
    };
    forming.first_rows.push(start.finished.rows)?;
    let at = start.finished.bytes + start.bytes;
    push_rows(alloc, &mut forming.rows, at, line, wrap)?;
    Ok(forming)
}

// How far a line is measured whose columns are known: to its end, if the rest of it has no ESC, with
// which what follows could make a sequence, and no carriage return that a newline could take away.
fn grown_border(start: Restart, text: &str, width: usize) -> Border
    requires bytes { start.bytes + length text.now < 2 ^ 64 }
    requires behind { start.bytes ≤ start.border.bytes }
    requires boundary { IsCharBoundary text.now (start.border.bytes - start.bytes) }
    requires columns { width ≡ start.border.columns + columns (drop (start.border.bytes - start.bytes) text.now) }
    ensures { IsBorderOfEach text.now start result }
{
    let unmeasured = &text[start.border.bytes - start.bytes..];
    if is_unescaped(unmeasured) && !unmeasured.ends_with('\r') {
        return Border {
            bytes: start.bytes + text.len(),
            columns: width,
        };
    }
    let more = settled(unmeasured);
    Border {
        bytes: start.border.bytes + more.bytes,
        columns: start.border.columns + more.columns,
    }
}

// Forms a text that no newline ends, and that goes on in an unfinished line.
fn form_unfinished(
    alloc: Global,
    text: &str,
    start: Restart,
    wrap: Wrap,
) -> Result<Formed, AllocError>
    requires bytes { (start.finished.bytes + start.bytes) + length text.now < 2 ^ 64 }
    requires whole { cut text.now ≡ whole text.now }
    requires start { GoesOnInSome wrap text.now start }
    ensures { IfOk result (λ f. IsPrepared wrap text.now start f) }
{
    if text.is_empty() {
        return Ok(Formed {
            rows: Vec::new(alloc),
            first_rows: LinesRowMap::new(alloc),
            finished: start.finished,
            border: start.border,
            longest: 0,
        });
    }
    let forming = begin_line(alloc, start, text, wrap)?;
    Ok(Formed {
        rows: forming.rows,
        first_rows: LinesRowMap::from_first_rows(forming.first_rows),
        finished: start.finished,
        border: grown_border(start, text, forming.longest),
        longest: forming.longest,
    })
}

// Forms the rows of a text that goes on in an unfinished line.
pub(crate) fn form(
    alloc: Global,
    text: &str,
    start: Restart,
    wrap: Wrap,
) -> Result<Formed, AllocError>
    requires bytes { (start.finished.bytes + start.bytes) + length text.now < 2 ^ 64 }
    requires lines { start.finished.lines + length text.now < 2 ^ 64 }
    requires rows { start.finished.rows + start.rows < 2 ^ 63 }
    requires start { GoesOnInSome wrap text.now start }
    ensures { IfOk result (λ f. IsPrepared wrap text.now start f) }
{
    let Some((first, more)) = split_line(text) else {
        return form_unfinished(alloc, text, start, wrap);
    };
    let forming = begin_line(alloc, start, without_return(first), wrap)?;
    let kept = start.finished.rows + start.rows;
    let place = Finished {
        lines: start.finished.lines + 1,
        rows: kept + forming.rows.len(),
        bytes: start.finished.bytes + start.bytes + first.len() + 1,
        longest: start.finished.longest.max(forming.longest),
    };
    let formed = form_lines(alloc, forming, kept, more, place, wrap)?;
    Ok(formed)
}
