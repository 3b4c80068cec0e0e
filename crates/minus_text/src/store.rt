//! A text with its rows.
ghost use Rattle.std.specs.Prelude.{◌≡◌, ◌+◌, ◌-◌, ◌^◌, ◌<◌, ◌≤◌, [], ◌++◌, length, take, drop, IsTrue, None, IfOk, OnOk, OnErr, slice_get, option_map, string_bytes, vec_len, vec_capacity};
ghost use Rattle.std.specs.List.Sorted.{IsStrictlyIncreasing};
ghost use Rattle.std.specs.Str.{IsUtf8, IsCharBoundary};
ghost use Rattle.std.specs.Str.Lines.{lines};
ghost use Rattle.minus_text.specs.Layouts.{plain, wrap_of};
ghost use Rattle.minus_text.specs.Document.{rows_of, IsPrefixOf, line_map, line_count, longest, unfinished_rows};
ghost use Rattle.minus_text.specs.Kept.{IsPrepared, GoesOnInSome, AscendsBehind};
ghost use Rattle.minus_text.specs.LinePlaces.{row_places};
ghost use Rattle.minus_text.specs.FormatResults.{TellsAll};
ghost use Rattle.minus_text.specs.Formatted.{prefix_of};
ghost use Rattle.minus_text.specs.RowText.{IsUnescapedFrom};
ghost use Rattle.minus_text.specs.FoundRows.{finder_pattern, AddsFound};
ghost use Rattle.minus_text.specs.Found.{ArePlaced};
ghost use Rattle.minus_text.specs.StoredLines.{IsStoredLine, finds_in_line_at};

mod kept;
mod pushes;

use crate::formed::{Border, Finished, Formed, Restart, form};
use crate::layout::{Layout, Wrap};
use crate::lines_row_map::LinesRowMap;
use crate::number_prefix::RowPrefix;
use crate::row_text::{RowText, escapes_end};
use crate::rows::Span;
use crate::screen::FormatResult;
use crate::search::found::{Finder, FoundRow};
use crate::search::line_finds::find_in_line;
use crate::search::line_splits::rows_end;
use crate::stored_line::{StoredLine, first_line};
use std::alloc::{AllocError, Global};
use std::collections::BTreeSet;
use std::marker::Model;

// A text that grows, with its rows in a layout.
#[derive(Debug)]
pub(crate) struct Store {
    text: String,
    layout: Layout,
    rows: Vec<Span>,
    first_rows: LinesRowMap,
    // How far the lines go that a newline ends, the columns of the longest line of all, and how
    // far the unfinished line is measured.
    finished: Finished,
    longest: usize,
    border: Border,
    // A place from which on no byte of the text is ESC.
    escapes_end: usize,
}

// Hand-written: a derived drop would stand again in the proof of each function that lets one go.
impl Drop for Store {
    fn drop(self) {
        let Store {
            text: _,
            layout: _,
            rows: _,
            first_rows: _,
            finished: _,
            longest: _,
            border: _,
            escapes_end: _,
        } = self;
    }
}

impl Model for Store {
    ghost use Rattle.std.specs.Prelude.{length, string_bytes};
    ghost use Rattle.std.specs.Str.Lines.{lines};
    ghost use Rattle.minus_text.specs.Layouts.{wrap_of};
    ghost use Rattle.minus_text.specs.Document.{Document};
    ghost use Rattle.minus_text.specs.Kept.{IsFormed};
    ghost use Rattle.minus_text.specs.RowText.{IsUnescapedFrom};

    ghost Value = { Document };

    ghost view = { λ s. record { text = string_bytes s.text; layout = s.layout } };

    ghost invariant = { λ s. IsFormed (string_bytes s.text) (wrap_of s.layout (length (lines (string_bytes s.text))))
        s.rows.items s.first_rows s.finished s.longest s.border
        × IsUnescapedFrom s.escapes_end (string_bytes s.text) };
}

// Puts rows at the end, for which there is room.
fn push_reserved(rows: &mut Vec<Span>, fresh: &[Span])
    requires { vec_len rows.old + length fresh.now ≤ vec_capacity rows.old }
    ensures { rows.new.items ≡ rows.old.items ++ fresh.now }
{
    match rows.extend_from_slice(fresh) {
        Ok(()) => {}
        Err(_) => unreachable!(),
    }
}

// Puts rows and their lines' first rows behind those that stay. An `Err` changes nothing.
fn replace_rows(
    rows: &mut Vec<Span>,
    first_rows: &mut LinesRowMap,
    start: Restart,
    formed: &Formed,
) -> Result<(), AllocError>
    requires rows { start.finished.rows + start.rows < 2 ^ 64 }
    requires first_rows { IsStrictlyIncreasing (take start.finished.lines first_rows.old ++ formed.now.first_rows) }
    ensures rows { OnOk result (rows.new.items ≡ take (start.finished.rows + start.rows) rows.old.items
        ++ formed.now.rows.items) }
    ensures first_rows { OnOk result (first_rows.new ≡ take start.finished.lines first_rows.old
        ++ formed.now.first_rows) }
    ensures rows_stay { OnErr result (rows.new.items ≡ rows.old.items) }
    ensures first_rows_stay { OnErr result (first_rows.new ≡ first_rows.old) }
{
    rows.reserve(formed.rows.len())?;
    first_rows.replace_behind(start.finished.lines, &formed.first_rows)?;
    rows.truncate(start.finished.rows + start.rows);
    push_reserved(rows, formed.rows.as_slice());
    Ok(())
}

// Forms what follows a place of a text, and puts it behind the rows that stay. An `Err` changes
// nothing.
fn form_end(
    alloc: Global,
    text: &str,
    rows: &mut Vec<Span>,
    first_rows: &mut LinesRowMap,
    start: Restart,
    wrap: Wrap,
) -> Result<Formed, AllocError>
    requires place { IsCharBoundary text.now (start.finished.bytes + start.bytes) }
    requires lines { start.finished.lines ≤ length text.now }
    requires rows { start.finished.rows + start.rows < 2 ^ 63 }
    requires start { GoesOnInSome wrap (drop (start.finished.bytes + start.bytes) text.now) start }
    requires ascends { AscendsBehind wrap (drop (start.finished.bytes + start.bytes) text.now) start first_rows.old }
    ensures formed { IfOk result (λ f. IsPrepared wrap (drop (start.finished.bytes + start.bytes) text.now) start f) }
    ensures rows { IfOk result (λ f. rows.new.items ≡ take (start.finished.rows + start.rows) rows.old.items
        ++ f.rows.items) }
    ensures first_rows { IfOk result (λ f. first_rows.new
        ≡ take start.finished.lines first_rows.old ++ f.first_rows) }
    ensures rows_stay { OnErr result (rows.new.items ≡ rows.old.items) }
    ensures first_rows_stay { OnErr result (first_rows.new ≡ first_rows.old) }
{
    let end = &text[start.finished.bytes + start.bytes..];
    let formed = form(alloc, end, start, wrap)?;
    replace_rows(rows, first_rows, start, &formed)?;
    Ok(formed)
}

// What a call tells that formed this.
fn told(alloc: Global, start: Restart, formed: Formed, clean: bool) -> FormatResult
    requires rows { start.finished.rows + (start.rows + length formed.rows.items) < 2 ^ 64 }
    requires finished { formed.finished.rows ≤ start.finished.rows + (start.rows + length formed.rows.items) }
    ensures lines { result.lines_formatted ≡ length formed.first_rows }
    ensures rows { result.rows_formatted ≡ start.rows + length formed.rows.items }
    ensures unfinished { result.num_unterminated
        ≡ (start.finished.rows + (start.rows + length formed.rows.items)) - formed.finished.rows }
    ensures matches { result.append_search_idx.keys ≡ [] }
    ensures map { result.lines_to_row_map ≡ formed.first_rows }
    ensures longest { result.max_line_length ≡ formed.longest }
    ensures clean { result.clean_append ≡ clean }
{
    let rows_formatted = start.rows + formed.rows.len();
    FormatResult {
        lines_formatted: formed.first_rows.len(),
        rows_formatted,
        num_unterminated: start.finished.rows + rows_formatted - formed.finished.rows,
        append_search_idx: BTreeSet::new(alloc),
        lines_to_row_map: formed.first_rows,
        max_line_length: formed.longest,
        clean_append: clean,
    }
}

// How the lines of a text fill rows in a layout.
fn wrap_for(alloc: Global, text: &str, layout: Layout) -> Wrap
    ensures { result ≡ wrap_of layout (length (lines text.now)) }
{
    Store::new(alloc).plan_anew(text, layout).wrap
}

impl Store {
    // A store of no text, for no columns, with wrapping on and numbers off.
    pub(crate) fn new(alloc: Global) -> Self
        ensures { result ≡ record { text = []; layout = plain 0 } }
    {
        Store {
            text: String::new(alloc),
            layout: Layout::plain(0),
            rows: Vec::new(alloc),
            first_rows: LinesRowMap::new(alloc),
            finished: Finished::START,
            longest: 0,
            border: Border::START,
            escapes_end: 0,
        }
    }

    // A text in a layout, and what forming it tells. The text is taken as it is, and not copied.
    pub(crate) fn of_text(
        alloc: Global,
        text: String,
        layout: Layout,
    ) -> Result<(Store, FormatResult), AllocError>
        ensures ok { IfOk result (λ r. r.0 ≡ record { text = string_bytes text; layout = layout }) }
        ensures told { IfOk result (λ r. TellsAll r.1 None (record { text = string_bytes text; layout = layout })) }
    {
        let wrap = wrap_for(alloc, &text, layout);
        let mut rows = Vec::new(alloc);
        let mut first_rows = LinesRowMap::new(alloc);
        let formed = form_end(
            alloc,
            &text,
            &mut rows,
            &mut first_rows,
            Restart::START,
            wrap,
        )?;
        let escapes_end = escapes_end(0, 0, &text);
        let store = Store {
            text,
            layout,
            rows,
            first_rows,
            finished: formed.finished,
            longest: formed.longest,
            border: formed.border,
            escapes_end,
        };
        Ok((store, told(alloc, Restart::START, formed, true)))
    }

    // Makes room for this number of bytes of text more.
    pub(crate) fn reserve(&mut self, bytes: usize) -> Result<(), AllocError>
        ensures { self.new ≡ self.old }
    {
        self.text.reserve(bytes)
    }

    // How many rows there are.
    pub(crate) fn formatted_lines_count(&self) -> usize
        ensures value { result ≡ length (rows_of self.now) }
        ensures few { result < 2 ^ 63 }
    {
        self.rows.len()
    }

    // How many lines there are.
    pub(crate) fn line_count(&self) -> usize
        ensures { result ≡ line_count self.now }
    {
        self.first_rows.len()
    }

    // The columns of the longest line, 0 where there is no line.
    pub(crate) fn get_max_line_length(&self) -> usize
        ensures { result ≡ longest self.now }
    {
        self.longest
    }

    // How many rows the last line has where no newline ends it, and 0 otherwise.
    pub(crate) fn unterminated(&self) -> usize
        ensures { result ≡ unfinished_rows self.now }
    {
        self.rows.len() - self.finished.rows
    }

    // The layout that the rows were formed for.
    pub(crate) fn layout(&self) -> Layout
        ensures { result ≡ self.now.layout }
    {
        self.layout
    }

    // The text as it was given.
    pub(crate) fn orig_text(&self) -> &str
        ensures { result.now ≡ self.now.text }
    {
        self.text.as_str()
    }

    // The number of the first row of each line.
    pub(crate) fn lines_to_row_map(&self) -> &LinesRowMap
        ensures { result.now ≡ line_map self.now }
    {
        &self.first_rows
    }

    // A line, counted from 0, with its rows.
    fn line(&self, k: usize) -> StoredLine<'_>
        requires { k < line_count self.now }
        ensures stored { IsStoredLine self.now k result }
        ensures few { result.first + length result.rows.now < 2 ^ 64 }
        ensures utf8 { IsUtf8 result.text.now }
    {
        let rows = self.rows.as_slice();
        let firsts = self.first_rows.as_slice();
        let first = firsts[k];
        let base = rows[first].start;
        let rest = &self.text[base..];
        let end = rows_end(firsts, k + 1, 0, rows.len());
        StoredLine {
            first,
            base,
            text: first_line(rest),
            rows: &rows[first..end],
        }
    }

    // Adds what a term finds in a line, counted from 0.
    pub(crate) fn find_in_line(
        &self,
        alloc: Global,
        finder: &mut Finder<'_>,
        found: &mut Vec<FoundRow>,
        k: usize,
    ) -> Result<(), AllocError>
        requires { k < line_count self.now }
        ensures found { OnOk result (AddsFound found.old.items found.new.items
            (finds_in_line_at (finder_pattern finder.old) self.now k)) }
        ensures stands { OnOk result (ArePlaced 0 (rows_of self.now)
            (finds_in_line_at (finder_pattern finder.old) self.now k)) }
        ensures same { finder_pattern finder.new ≡ finder_pattern finder.old }
    {
        let line = self.line(k);
        find_in_line(alloc, finder, found, line)?;
        Ok(())
    }

    // The text of a row, counted from 0, without what stands before it. It takes no memory.
    pub(crate) fn row(&self, i: usize) -> Option<RowText<'_>>
        ensures { option_map (λ r. r.text.now) result ≡ slice_get (rows_of self.now) i }
    {
        let text = self.text.as_str();
        match self.rows.get(i) {
            Some(row) => Some(RowText {
                text: &text[row.start..row.end],
                escapes_end: self.escapes_end.saturating_sub(row.start),
            }),
            None => None,
        }
    }

    // It alone, where nothing is asked of its escape sequences.
    pub(crate) fn row_text(&self, i: usize) -> Option<&str>
        ensures { option_map (λ r. r.now) result ≡ slice_get (rows_of self.now) i }
    {
        match self.row(i) {
            Some(row) => Some(row.text),
            None => None,
        }
    }

    // Whether no byte of the text is ESC, as far as is known.
    pub(crate) fn is_unescaped(&self) -> bool
        ensures { IsTrue result → IsUnescapedFrom 0 self.now.text }
    {
        self.escapes_end == 0
    }

    // The place of a row's own text, counted from 0, in the bytes of the text.
    pub(crate) fn row_place(&self, i: usize) -> Option<Span>
        ensures { result ≡ slice_get (row_places self.now) i }
    {
        match self.rows.get(i) {
            Some(place) => Some(*place),
            None => None,
        }
    }

    // What stands before the text of a row, counted from 0. Its line is looked for near a line first.
    pub(crate) fn row_prefix(&self, i: usize, near: usize) -> RowPrefix
        ensures { IsPrefixOf self.now i (prefix_of result) }
    {
        let Some(line) = self.first_rows.row_to_line_near(i, near) else {
            return RowPrefix::NONE;
        };
        RowPrefix {
            numbers: self.layout.numbers.is_on(),
            line_count: self.first_rows.len(),
            line: line + 1,
            is_first: self.first_rows.begins(line, i),
        }
    }
}
