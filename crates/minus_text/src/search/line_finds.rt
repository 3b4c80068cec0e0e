//! What a term finds in lines, and what of it lies in each row.
ghost use Rattle.std.specs.Prelude.{◌≡◌, ◌+◌, ◌<◌, ◌^◌, length, OnOk};
ghost use Rattle.minus_text.specs.LineFinds.{finds_in_row, finds_in_rows, MatchTotalIsOfLines};
ghost use Rattle.minus_text.specs.LineLaws.{UnwrappedLinesAreRows, JumpsGoToAllRows, LinesFormAgain};
ghost use Rattle.minus_text.specs.FindsStand.{FindsStandInRows, LineFindsStand, LineFindsAscend, TextFindsStand};
ghost use Rattle.minus_text.specs.LineSplits.{Ordered, RowsOrdered, rows_in_line, stretch_of, lines_of};
ghost use Rattle.minus_text.specs.LineSplits.{finds_at, finds_in_text, FindsStandIn};
ghost use Rattle.minus_text.specs.Lines.{cut};
ghost use Rattle.minus_text.specs.Kept.{stored_from};
ghost use Rattle.minus_text.specs.Document.{first_rows};
ghost use Rattle.minus_text.specs.FoundRows.{finder_pattern, AddsFound};
ghost use Rattle.minus_text.specs.WorkedLines.{WorkedLines};

use crate::layout::Wrap;
use crate::lines::{split_line, without_return};
use crate::rows::Span;
use crate::search::found::{Finder, FoundRow, outside_matches};
use crate::search::line_splits::{
    RowStretch, Walk, between, ended_count, place_in_line, rows_end, stretch_at,
};
use crate::stored_line::{StoredLine, StoredText};
use std::alloc::{AllocError, Global};

// Adds what is found in a row, if it shows some of a match.
fn note_row(
    alloc: Global,
    found: &mut Vec<FoundRow>,
    n: usize,
    place: Span,
    row: RowStretch,
    escapes: &[(usize, usize)],
    matches: &[(usize, usize)],
) -> Result<(), AllocError>
    requires escapes { Ordered 0 escapes.now }
    requires matches { Ordered 0 matches.now }
    ensures { OnOk result (AddsFound found.old.items found.new.items
        (finds_in_row n escapes.now matches.now place (stretch_of row))) }
{
    let parts = row.parts_in(alloc, matches)?;
    if parts.is_empty() {
        return Ok(());
    }
    let inner = between(alloc, escapes, place.start, place.end)?;
    found.push(FoundRow {
        row: n,
        escapes: inner,
        matches: parts,
        begins: row.begin_count(matches),
    })?;
    Ok(())
}

// Adds what is found in the rows of a line that has these escape sequences and matches.
fn note_rows(
    alloc: Global,
    found: &mut Vec<FoundRow>,
    line: StoredLine<'_>,
    escapes: &[(usize, usize)],
    matches: &[(usize, usize)],
) -> Result<(), AllocError>
    requires escapes { Ordered 0 escapes.now }
    requires matches { Ordered 0 matches.now }
    requires rows { RowsOrdered line.base line.rows.now }
    requires few { line.first + length line.rows.now < 2 ^ 64 }
    ensures { OnOk result (AddsFound found.old.items found.new.items
        (finds_in_rows line.entry.first escapes.now matches.now (rows_in_line line.entry))) }
{
    let mut walk = Walk::START;
    let mut done = 0;
    for i in 0..line.rows.len() {
        let place = place_in_line(line.rows[i], line.base);
        walk = walk.go_to(escapes, place.start);
        let row = stretch_at(walk, escapes, place, line.base, &line.rows[i + 1..]);
        done += ended_count(&matches[done..], row.start);
        note_row(
            alloc,
            found,
            line.first + i,
            place,
            row,
            &escapes[walk.passed..],
            &matches[done..],
        )?;
    }
    Ok(())
}

// Adds what is found in a line. A line in which nothing is found costs its search alone.
pub(crate) fn find_in_line(
    alloc: Global,
    finder: &mut Finder<'_>,
    found: &mut Vec<FoundRow>,
    line: StoredLine<'_>,
) -> Result<(), AllocError>
    requires rows { RowsOrdered line.base line.rows.now }
    requires few { line.first + length line.rows.now < 2 ^ 64 }
    ensures found { OnOk result (AddsFound found.old.items found.new.items
        (finds_at (finder_pattern finder.old) line.entry)) }
    ensures stands { OnOk result (FindsStandIn (finder_pattern finder.old) line.entry) }
    ensures same { finder_pattern finder.new ≡ finder_pattern finder.old }
{
    let escapes = finder.escape_places(alloc, line.text)?;
    let matches = outside_matches(alloc, &mut finder.term, line.text, &escapes)?;
    if matches.is_empty() {
        return Ok(());
    }
    note_rows(alloc, found, line, &escapes, &matches)?;
    Ok(())
}

// Adds what is found in lines, which are wrapped so.
pub(crate) fn find_in_text(
    alloc: Global,
    finder: &mut Finder<'_>,
    found: &mut Vec<FoundRow>,
    text: StoredText<'_>,
    wrap: Wrap,
) -> Result<(), AllocError>
    requires rows { text.rows.now ≡ stored_from wrap text.base (cut text.text.now) }
    requires firsts { text.firsts.now ≡ first_rows wrap text.first (lines_of (cut text.text.now)) }
    requires few { text.first + length text.rows.now < 2 ^ 64 }
    requires room { text.base + length text.text.now < 2 ^ 64 }
    ensures found { OnOk result (AddsFound found.old.items found.new.items
        (finds_in_text (finder_pattern finder.old) wrap text.entry.first text.entry.text.now)) }
    ensures stands { OnOk result
        (TextFindsStand (finder_pattern finder.old) wrap text.entry.first text.entry.text.now) }
    ensures same { finder_pattern finder.new ≡ finder_pattern finder.old }
{
    let _wrap = wrap;
    let mut rest = text.text;
    let mut at = text.base;
    let mut line_number = 0;
    let mut done = 0;
    while let Some((line, more)) = split_line(rest) {
        let end = rows_end(text.firsts, line_number + 1, text.first, text.rows.len());
        let stored = StoredLine {
            first: text.first + done,
            base: at,
            text: without_return(line),
            rows: &text.rows[done..end],
        };
        find_in_line(alloc, finder, found, stored)?;
        done = end;
        at += line.len() + 1;
        line_number += 1;
        rest = more;
    }
    if rest.is_empty() {
        return Ok(());
    }
    let last = StoredLine {
        first: text.first + done,
        base: at,
        text: rest,
        rows: &text.rows[done..],
    };
    find_in_line(alloc, finder, found, last)?;
    Ok(())
}

/// The worked rows of searches in lines.
pub fn worked_lines()
    ensures { WorkedLines }
{}

/// How many matches there are does not depend on how lines fill rows.
pub fn match_total_is_of_lines()
    ensures { MatchTotalIsOfLines }
{}

/// What is found in the rows of a line stands in them.
pub fn finds_stand_in_rows()
    ensures { FindsStandInRows }
{}

/// In a line that is its one row a search in lines finds what a search in rows does.
pub fn unwrapped_lines_are_rows()
    ensures { UnwrappedLinesAreRows }
{}

/// Of a search in rows jumps go to all rows that match.
pub fn jumps_go_to_all_rows()
    ensures { JumpsGoToAllRows }
{}

/// An unfinished line can be formed again from its start.
pub fn lines_form_again()
    ensures { LinesFormAgain }
{}

/// What is found in the rows of a line stands in the rows that have their numbers.
pub fn line_finds_stand()
    ensures { LineFindsStand }
{}

/// The numbers of rows ascend from line to line.
pub fn line_finds_ascend()
    ensures { LineFindsAscend }
{}
