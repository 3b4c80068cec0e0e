//! Searches for a term in a text: in each of its rows by itself, or in each of its lines.
ghost use Rattle.std.specs.Prelude.{◌≡◌, true, false, ◌-◌, ◌≤◌, ◌<◌, map, option_map, Some, slice_get, IfOk, OnOk};
ghost use Rattle.minus_text.specs.Document.{rows_of};
ghost use Rattle.minus_text.specs.Matches.{match_at};
ghost use Rattle.std.specs.Option.{unwrap_or};
ghost use Rattle.minus_text.specs.Highlight.{line_matches};
ghost use Rattle.minus_text.specs.Fragments.{rows_in};
ghost use Rattle.minus_text.specs.Found.{found_in_rows, found_between, jump_rows, AreFoundIn};
ghost use Rattle.minus_text.specs.Finds.{finds, finds_in_push};
ghost use Rattle.minus_text.specs.FoundRows.{finder_pattern, term_pattern, matches_of, AddsFound, StaysPlaced};
ghost use Rattle.minus_text.specs.FoundBy.{found_in_some};
ghost use Rattle.minus_text.specs.Searched.{IsFoundBetween, searched_as};
ghost use Rattle.minus_text.specs.StoredLines.{finds_between, first_from, IsFoundOfLines};

use crate::formed_push::FormedPush;
use crate::search::found::{Finder, FoundRow};
use crate::search::term::Term;
use crate::store::Store;
use std::alloc::{AllocError, Global};

// Adds a row with a number, if there is one and it matches.
fn note_some(
    alloc: Global,
    finder: &mut Finder<'_>,
    found: &mut Vec<FoundRow>,
    n: usize,
    row: Option<&str>,
) -> Result<(), AllocError>
    ensures found { OnOk result (AddsFound found.old.items found.new.items
        (found_in_some (finder_pattern finder.old) n (option_map (λ r. r.now) row.entry))) }
    ensures placed { OnOk result (StaysPlaced n (option_map (λ r. r.now) row.entry) found.old.items found.new.items) }
    ensures same { finder_pattern finder.new ≡ finder_pattern finder.old }
{
    let Some(row) = row else {
        return Ok(());
    };
    finder.note(alloc, found, n, row)?;
    Ok(())
}

// What a term finds in the rows of a text from `start` on up to but without `end`, as far as there are rows.
fn find_in_rows(
    alloc: Global,
    term: Term<'_>,
    store: &Store,
    start: usize,
    end: usize,
) -> Result<Vec<FoundRow>, AllocError>
    ensures found { IfOk result (λ f. map matches_of f.items
        ≡ found_between (term_pattern term.entry) (rows_of store.now) start end) }
    ensures stand { IfOk result (λ f. AreFoundIn 0 (rows_of store.now) (map matches_of f.items)) }
{
    let mut finder = Finder::new(alloc, term)?;
    let mut rows = Vec::new(alloc);
    for i in start..end.min(store.formatted_lines_count()) {
        note_some(alloc, &mut finder, &mut rows, i, store.row_text(i))?;
    }
    Ok(rows)
}

// What a term finds in the rows that a push forms.
fn find_in_push(
    alloc: Global,
    term: Term<'_>,
    pending: &FormedPush,
) -> Result<Vec<FoundRow>, AllocError>
    ensures found { IfOk result (λ f. map matches_of f.items
        ≡ found_in_rows (term_pattern term.entry) pending.now.kept_rows (rows_in pending.now.tail)) }
    ensures stand { IfOk result (λ f.
        AreFoundIn pending.now.kept_rows (rows_in pending.now.tail) (map matches_of f.items)) }
{
    let mut finder = Finder::new(alloc, term)?;
    let mut rows = Vec::new(alloc);
    let first = pending.kept_rows();
    for i in 0..pending.formed_rows() {
        note_some(
            alloc,
            &mut finder,
            &mut rows,
            first + i,
            pending.row_text(i),
        )?;
    }
    Ok(rows)
}

// Whether a row matches, if there is one.
fn matches_some(
    alloc: Global,
    finder: &mut Finder<'_>,
    row: Option<&str>,
) -> Result<bool, AllocError>
    ensures value { IfOk result (λ b. b
        ≡ unwrap_or (option_map (λ r. line_matches (finder_pattern finder.old) r.now) row.entry) false) }
    ensures same { finder_pattern finder.new ≡ finder_pattern finder.old }
{
    let Some(row) = row else {
        return Ok(false);
    };
    finder.matches(alloc, row)
}

// The number of the first row that matches, of the rows of a text from `start` on up to but without `end`. No row
// behind it is searched.
fn first_in_rows(
    alloc: Global,
    finder: &mut Finder<'_>,
    store: &Store,
    start: usize,
    end: usize,
) -> Result<Option<usize>, AllocError>
    ensures row { IfOk result (λ row. row
        ≡ slice_get (jump_rows (found_between (finder_pattern finder.old) (rows_of store.now) start end)) 0) }
    ensures same { finder_pattern finder.new ≡ finder_pattern finder.old }
{
    for i in start..end.min(store.formatted_lines_count()) {
        if matches_some(alloc, finder, store.row_text(i))? {
            return Ok(Some(i));
        }
    }
    Ok(None)
}

// The row that a search in rows from a mark goes to.
fn first_of_rows(
    alloc: Global,
    term: Term<'_>,
    store: &Store,
    mark: usize,
) -> Result<Option<usize>, AllocError>
    ensures { IfOk result (λ row. row
        ≡ match_at (jump_rows (found_in_rows (term_pattern term.entry) 0 (rows_of store.now))) mark) }
{
    let mut finder = Finder::new(alloc, term)?;
    let count = store.formatted_lines_count();
    let behind = first_in_rows(alloc, &mut finder, store, mark, count)?;
    if behind.is_some() {
        return Ok(behind);
    }
    let above = first_in_rows(alloc, &mut finder, store, 0, mark)?;
    Ok(above)
}

// What a term finds in lines of a text from one on up to but without another, counted from 0, as far as there are
// lines.
fn find_in_lines(
    alloc: Global,
    term: Term<'_>,
    store: &Store,
    start: usize,
    end: usize,
) -> Result<Vec<FoundRow>, AllocError>
    requires { start ≤ end }
    ensures found { IfOk result (λ f. map matches_of f.items
        ≡ finds_between (term_pattern term.entry) store.now start end) }
    ensures stand { IfOk result (λ f. AreFoundIn 0 (rows_of store.now) (map matches_of f.items)) }
{
    let mut finder = Finder::new(alloc, term)?;
    let mut found = Vec::new(alloc);
    for line in start..end.min(store.line_count()) {
        store.find_in_line(alloc, &mut finder, &mut found, line)?;
    }
    Ok(found)
}

// What a term finds in the lines of which rows from `start` on up to but without `end` are.
fn find_in_lines_of(
    alloc: Global,
    term: Term<'_>,
    store: &Store,
    start: usize,
    end: usize,
) -> Result<Vec<FoundRow>, AllocError>
    ensures found { IfOk result (λ f. IsFoundOfLines (term_pattern term.entry) store.now
        (map matches_of f.items) start end) }
    ensures stand { IfOk result (λ f. AreFoundIn 0 (rows_of store.now) (map matches_of f.items)) }
{
    let lines = store.lines_to_row_map();
    if start >= end {
        return Ok(Vec::new(alloc));
    }
    let (Some(first), Some(last)) = (lines.row_to_line(start), lines.row_to_line(end - 1)) else {
        return Ok(Vec::new(alloc));
    };
    find_in_lines(alloc, term, store, first, last + 1)
}

// The first row of what was found, from one on, in which a match begins.
fn first_jump(found: &[FoundRow], row: usize) -> Option<usize>
    ensures { result ≡ first_from row (jump_rows (map matches_of found.now)) }
{
    for found in found {
        if found.begins > 0 && found.row >= row {
            return Some(found.row);
        }
    }
    None
}

// The first row from one on in which a match begins, of lines from one on up to but without another. No line behind
// that is searched.
fn first_in_lines(
    alloc: Global,
    finder: &mut Finder<'_>,
    store: &Store,
    start: usize,
    end: usize,
    row: usize,
) -> Result<Option<usize>, AllocError>
    requires { start ≤ end }
    ensures row { IfOk result (λ r. r
        ≡ first_from row (jump_rows (finds_between (finder_pattern finder.old) store.now start end))) }
    ensures same { finder_pattern finder.new ≡ finder_pattern finder.old }
{
    for line in start..end.min(store.line_count()) {
        let mut found = Vec::new(alloc);
        store.find_in_line(alloc, finder, &mut found, line)?;
        let first = first_jump(found.as_slice(), row);
        if first.is_some() {
            return Ok(first);
        }
    }
    Ok(None)
}

// The row that a search in lines from a mark goes to.
fn first_of_lines(
    alloc: Global,
    term: Term<'_>,
    store: &Store,
    mark: usize,
) -> Result<Option<usize>, AllocError>
    requires { store.now.layout.match_lines ≡ true }
    ensures { IfOk result (λ row. row
        ≡ match_at (jump_rows (finds (Some (term_pattern term.entry)) store.now)) mark) }
{
    let Some(line) = store.lines_to_row_map().row_to_line(mark) else {
        return Ok(None);
    };
    let mut finder = Finder::new(alloc, term)?;
    let count = store.line_count();
    let behind = first_in_lines(alloc, &mut finder, store, line, count, mark)?;
    if behind.is_some() {
        return Ok(behind);
    }
    let above = first_in_lines(alloc, &mut finder, store, 0, line + 1, 0)?;
    Ok(above)
}

// What a term finds in a text.
pub(crate) fn find_all(
    alloc: Global,
    term: Term<'_>,
    store: &Store,
) -> Result<Vec<FoundRow>, AllocError>
    ensures found { IfOk result (λ f. map matches_of f.items
        ≡ finds (Some (term_pattern term.entry)) store.now) }
    ensures stand { IfOk result (λ f. AreFoundIn 0 (rows_of store.now) (map matches_of f.items)) }
{
    if store.layout().match_lines {
        return find_in_lines(alloc, term, store, 0, store.line_count());
    }
    find_in_rows(alloc, term, store, 0, store.formatted_lines_count())
}

// What a term finds in the rows of a text from `start` on up to but without `end`, as far as there are rows: no other
// row is searched, or no other line than those of these rows.
pub(crate) fn find_between(
    alloc: Global,
    term: Term<'_>,
    store: &Store,
    start: usize,
    end: usize,
) -> Result<Vec<FoundRow>, AllocError>
    ensures found { IfOk result (λ f.
        IsFoundBetween (Some (term_pattern term.entry)) (searched_as store.now f.items) start end) }
    ensures stand { IfOk result (λ f. AreFoundIn 0 (rows_of store.now) (map matches_of f.items)) }
{
    if store.layout().match_lines {
        return find_in_lines_of(alloc, term, store, start, end);
    }
    find_in_rows(alloc, term, store, start, end)
}

// What a term finds in what a push forms, with the numbers that its rows have after it.
pub(crate) fn find_formed(
    alloc: Global,
    term: Term<'_>,
    pending: &FormedPush,
) -> Result<Vec<FoundRow>, AllocError>
    ensures found { IfOk result (λ f. map matches_of f.items
        ≡ finds_in_push (term_pattern term.entry) pending.now) }
    ensures stand { IfOk result (λ f.
        AreFoundIn pending.now.kept_rows (rows_in pending.now.tail) (map matches_of f.items)) }
{
    if pending.matches_lines() {
        let mut finder = Finder::new(alloc, term)?;
        return pending.find_in_lines(alloc, &mut finder);
    }
    find_in_push(alloc, term, pending)
}

// The row that a search for a term from a mark goes to.
pub(crate) fn first_match(
    alloc: Global,
    term: Term<'_>,
    store: &Store,
    mark: usize,
) -> Result<Option<usize>, AllocError>
    ensures { IfOk result (λ row. row
        ≡ match_at (jump_rows (finds (Some (term_pattern term.entry)) store.now)) mark) }
{
    if store.layout().match_lines {
        return first_of_lines(alloc, term, store, mark);
    }
    first_of_rows(alloc, term, store, mark)
}
