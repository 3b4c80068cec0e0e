//! What is kept of what a term finds in a text.
ghost use Rattle.std.specs.Prelude.{◌≡◌, true, ◌+◌, ◌-◌, ◌≤◌, [], ◌++◌, length, map, option_map, nat_le, slice_get, slice_index_or, IfOk, OnOk, IsTrue, ◌<◌, ◌^◌};
ghost use Rattle.std.specs.List.{position_or_len};
ghost use Rattle.minus_text.specs.Document.{rows_of};
ghost use Rattle.minus_text.specs.Matches.{counts_first};
ghost use Rattle.minus_text.specs.Fragments.{rows_in};
ghost use Rattle.minus_text.specs.Found.{found_above, found_from, jump_rows, matches_above, match_total, found_of_row};
ghost use Rattle.minus_text.specs.Found.{Ascend, AreFoundIn};
ghost use Rattle.minus_text.specs.Finds.{finds, found_in, StaysFound};
ghost use Rattle.minus_text.specs.JumpRows.{counted};
ghost use Rattle.minus_text.specs.FoundRows.{matches_of, pattern_of};
ghost use Rattle.minus_text.specs.declared.search.found.FoundRow.{FoundRow};
ghost use Rattle.minus_text.specs.FoundBy.{found_rows, AreJumps, HasRoomFor, FoundGoesOn};
ghost use Rattle.minus_text.specs.Searched.{IsFoundBetween};
ghost use Rattle.minus_text.specs.RowSearches.{RowsShowTheirMatches, PartsShowTheirMatches};

use crate::formed_push::FormedPush;
use crate::search::finding::{find_all, find_between, find_formed};
use crate::search::found::FoundRow;
use crate::search::jump_rows::{Jump, add_numbers, count_behind, ended_at, jumps_before, jumps_of};
use crate::search::standing::all_stand;
use crate::search::term::Term;
use crate::store::Store;
use std::alloc::{AllocError, Global};
use std::collections::BTreeSet;

// The rows of a text that show some of a term's matches, in order, each with the places of escape sequences and of
// matches in it; and those of them in which matches begin. No pattern is kept.
#[derive(Debug, Drop)]
pub(crate) struct FoundRows {
    rows: Vec<FoundRow>,
    jumps: Vec<Jump>,
}

// How many of these rows stand above one.
fn count_above(found: &[FoundRow], row: usize) -> usize
    requires { Ascend 0 (map matches_of found.now) }
    ensures value { result ≡ position_or_len (λ f. nat_le row f.row) (map matches_of found.now) }
    ensures few { result ≤ length found.now }
{
    found.partition_point(|f| f.row < row)
}

// Whether the last of this many of these rows, if there is one, stands above a row.
fn is_last_above(found: &[FoundRow], row: usize, count: usize) -> bool
    requires { count ≤ length found.now }
    ensures { result ≡ true → (d : FoundRow) → 0 < count → (slice_index_or found.now (count - 1) d).row < row }
{
    if count == 0 {
        return true;
    }
    found[count - 1].row < row
}

// Whether the row behind this many of these, if there is one, stands not above a row.
fn is_next_not_above(found: &[FoundRow], row: usize, count: usize) -> bool
    requires { count ≤ length found.now }
    ensures { result ≡ true → (d : FoundRow) → count < length found.now →
        row ≤ (slice_index_or found.now count d).row }
{
    if count == found.len() {
        return true;
    }
    row <= found[count].row
}

// Whether this many of these rows stand above one.
fn are_above(found: &[FoundRow], row: usize, count: usize) -> bool
    requires { Ascend 0 (map matches_of found.now) }
    ensures value { result ≡ true → count ≡ position_or_len (λ f. nat_le row f.row) (map matches_of found.now) }
    ensures few { result ≡ true → count ≤ length found.now }
{
    if count > found.len() {
        return false;
    }
    if !is_last_above(found, row, count) {
        return false;
    }
    is_next_not_above(found, row, count)
}

// How many of these rows stand above one: it is known at once where these are as many as near, or one more.
fn count_above_near(found: &[FoundRow], row: usize, near: usize) -> usize
    requires { Ascend 0 (map matches_of found.now) }
    ensures value { result ≡ position_or_len (λ f. nat_le row f.row) (map matches_of found.now) }
    ensures few { result ≤ length found.now }
{
    if are_above(found, row, near) {
        return near;
    }
    let next = near.saturating_add(1);
    if are_above(found, row, next) {
        return next;
    }
    count_above(found, row)
}

impl FoundRows {
    // No row.
    pub(crate) fn new(alloc: Global) -> Self
        ensures found { found_rows result ≡ [] }
        ensures jumps { AreJumps result }
    {
        FoundRows {
            rows: Vec::new(alloc),
            jumps: Vec::new(alloc),
        }
    }

    // What was found, with the rows that jumps go to.
    fn of_found(alloc: Global, rows: Vec<FoundRow>) -> Result<Self, AllocError>
        ensures found { IfOk result (λ f. found_rows f ≡ map matches_of rows.items) }
        ensures jumps { IfOk result AreJumps }
    {
        let jumps = jumps_of(alloc, rows.as_slice())?;
        Ok(FoundRows { rows, jumps })
    }

    // What a term finds in a text; nothing without a term.
    pub(crate) fn of_store(
        alloc: Global,
        term: Option<Term<'_>>,
        store: &Store,
    ) -> Result<Self, AllocError>
        ensures found { IfOk result (λ f. found_rows f ≡ finds (pattern_of term.entry) store.now) }
        ensures stand { IfOk result (λ f. AreFoundIn 0 (rows_of store.now) (found_rows f)) }
        ensures jumps { IfOk result AreJumps }
    {
        let Some(term) = term else {
            return Ok(FoundRows::new(alloc));
        };
        FoundRows::of_found(alloc, find_all(alloc, term, store)?)
    }

    // What a term finds in the rows of a text from `start` on up to but without `end`, as far as there are rows;
    // nothing without a term. No other row is searched, or no other line than those of these rows.
    pub(crate) fn of_rows(
        alloc: Global,
        term: Option<Term<'_>>,
        store: &Store,
        start: usize,
        end: usize,
    ) -> Result<Self, AllocError>
        ensures found { IfOk result (λ f. IsFoundBetween (pattern_of term.entry)
            (record { document = store.now; found = found_rows f }) start end) }
        ensures stand { IfOk result (λ f. AreFoundIn 0 (rows_of store.now) (found_rows f)) }
        ensures jumps { IfOk result AreJumps }
    {
        let Some(term) = term else {
            return Ok(FoundRows::new(alloc));
        };
        FoundRows::of_found(alloc, find_between(alloc, term, store, start, end)?)
    }

    // What a term finds in what a push forms, with the numbers that its rows have after it; nothing without a term.
    pub(crate) fn of_push(
        alloc: Global,
        term: Option<Term<'_>>,
        pending: &FormedPush,
    ) -> Result<Self, AllocError>
        ensures found { IfOk result (λ f. found_rows f
            ≡ found_in (pattern_of term.entry) pending.now.match_lines pending.now.kept_rows pending.now.tail) }
        ensures stand { IfOk result (λ f. AreFoundIn pending.now.kept_rows (rows_in pending.now.tail) (found_rows f)) }
        ensures jumps { IfOk result AreJumps }
    {
        let Some(term) = term else {
            return Ok(FoundRows::new(alloc));
        };
        FoundRows::of_found(alloc, find_formed(alloc, term, pending)?)
    }

    // These, where all stand in the rows of a text, and else what a term finds in that.
    pub(crate) fn or_found(
        self,
        alloc: Global,
        term: Option<Term<'_>>,
        store: &Store,
    ) -> Result<Self, AllocError>
        requires ascend { Ascend 0 (found_rows self) }
        requires jumps { AreJumps self }
        ensures found { IfOk result (λ f.
            StaysFound (pattern_of term.entry) store.now (found_rows self) (found_rows f)) }
        ensures stand { IfOk result (λ f. AreFoundIn 0 (rows_of store.now) (found_rows f)) }
        ensures jumps { IfOk result AreJumps }
    {
        if all_stand(alloc, store, self.rows.as_slice())? {
            return Ok(self);
        }
        drop(self);
        FoundRows::of_store(alloc, term, store)
    }

    // Makes room for others, so that these can take them in.
    pub(crate) fn reserve(&mut self, fresh: &FoundRows) -> Result<(), AllocError>
        ensures room { OnOk result (HasRoomFor self.new fresh.now) }
        ensures same { found_rows self.new ≡ found_rows self.old }
        ensures jumps { AreJumps self.old → AreJumps self.new }
    {
        self.rows.reserve(fresh.rows.len())?;
        self.jumps.reserve(fresh.jumps.len())
    }

    // Puts others, for which there is room, behind those that stand above a row, in the place of all
    // that follow. It takes no memory.
    pub(crate) fn replace_from(&mut self, row: usize, fresh: FoundRows)
        requires room { HasRoomFor self.old fresh }
        requires ascend { Ascend 0 (found_rows self.old) }
        requires jumps { AreJumps self.old }
        requires fresh { AreJumps fresh }
        ensures found { found_rows self.new ≡ found_above row (found_rows self.old) ++ found_rows fresh }
        ensures jumps { AreJumps self.new }
    {
        let FoundRows {
            mut rows,
            mut jumps,
        } = fresh;
        self.rows.truncate(count_above(self.rows.as_slice(), row));
        let staying = jumps_before(self.jumps.as_slice(), row, 0);
        count_behind(&mut jumps, ended_at(self.jumps.as_slice(), staying));
        self.jumps.truncate(staying);
        match self.rows.append(&mut rows) {
            Ok(()) => {}
            Err(_) => unreachable!(),
        }
        match self.jumps.append(&mut jumps) {
            Ok(()) => {}
            Err(_) => unreachable!(),
        }
    }

    // The numbers of the rows in which matches begin from a first one on, where others stand behind those above another
    // row.
    pub(crate) fn numbers_from(
        &self,
        alloc: Global,
        first: usize,
        row: usize,
        fresh: &FoundRows,
    ) -> Result<BTreeSet<usize>, AllocError>
        requires order { first ≤ row }
        requires ascend { Ascend 0 (found_rows self.now) }
        requires jumps { AreJumps self.now }
        requires behind { Ascend row (found_rows fresh.now) }
        requires fresh { AreJumps fresh.now }
        ensures { IfOk result (λ s. s.keys ≡ jump_rows (found_from first (found_above row (found_rows self.now)
            ++ found_rows fresh.now))) }
    {
        let jumps = self.jumps.as_slice();
        let from = jumps_before(jumps, first, 0);
        let staying = jumps_before(jumps, row, 0);
        let mut numbers = BTreeSet::new(alloc);
        add_numbers(&mut numbers, &jumps[from..staying])?;
        add_numbers(&mut numbers, fresh.jumps.as_slice())?;
        Ok(numbers)
    }

    // The numbers of all rows in which matches begin.
    pub(crate) fn numbers(&self, alloc: Global) -> Result<BTreeSet<usize>, AllocError>
        requires ascend { Ascend 0 (found_rows self.now) }
        requires jumps { AreJumps self.now }
        ensures { IfOk result (λ s. s.keys ≡ jump_rows (found_rows self.now)) }
    {
        let mut numbers = BTreeSet::new(alloc);
        add_numbers(&mut numbers, self.jumps.as_slice())?;
        Ok(numbers)
    }

    // Forgets all. It takes no memory.
    pub(crate) fn clear(&mut self)
        ensures found { found_rows self.new ≡ [] }
        ensures jumps { AreJumps self.new }
    {
        self.rows.clear();
        self.jumps.clear();
    }

    // Whether nothing was found.
    pub(crate) fn is_empty(&self) -> bool
        ensures { IsTrue result → found_rows self.now ≡ [] }
    {
        self.rows.is_empty()
    }

    // In how many rows matches begin.
    pub(crate) fn len(&self) -> usize
        requires { AreJumps self.now }
        ensures value { result ≡ length (jump_rows (found_rows self.now)) }
        ensures few { result < 2 ^ 63 }
    {
        self.jumps.len()
    }

    // In how many of the rows above one they do.
    pub(crate) fn count_above(&self, row: usize) -> usize
        requires ascend { Ascend 0 (found_rows self.now) }
        requires jumps { AreJumps self.now }
        ensures value { result ≡ length (jump_rows (found_above row (found_rows self.now))) }
        ensures few { result < 2 ^ 63 }
    {
        jumps_before(self.jumps.as_slice(), row, 0)
    }

    // In how many rows they do before the first that a jump by this number of matches from a mark may count.
    pub(crate) fn count_before(&self, mark: usize, jump: usize) -> usize
        requires ascend { Ascend 0 (found_rows self.now) }
        requires jumps { AreJumps self.now }
        ensures value { result ≡ position_or_len (counts_first mark jump) (jump_rows (found_rows self.now)) }
        ensures few { result < 2 ^ 63 }
    {
        jumps_before(self.jumps.as_slice(), mark, jump)
    }

    // The number of one of these rows, which are counted from 0.
    pub(crate) fn row(&self, i: usize) -> Option<usize>
        requires { AreJumps self.now }
        ensures { result ≡ slice_get (jump_rows (found_rows self.now)) i }
    {
        match self.jumps.get(i) {
            Some(jump) => Some(jump.row),
            None => None,
        }
    }

    // How many matches begin in the rows above one.
    pub(crate) fn matches_above(&self, row: usize) -> usize
        requires ascend { Ascend 0 (found_rows self.now) }
        requires jumps { AreJumps self.now }
        ensures { result ≡ counted (matches_above row (found_rows self.now)) }
    {
        let jumps = self.jumps.as_slice();
        ended_at(jumps, jumps_before(jumps, row, 0))
    }

    // How many matches there are.
    pub(crate) fn match_total(&self) -> usize
        requires { AreJumps self.now }
        ensures { result ≡ counted (match_total (found_rows self.now)) }
    {
        ended_at(self.jumps.as_slice(), self.jumps.len())
    }

    // What was found in the row with a number. How many rows stand above it is looked for near some number first, and
    // put there.
    pub(crate) fn of_row(&self, n: usize, near: &mut usize) -> Option<&FoundRow>
        requires { Ascend 0 (found_rows self.now) }
        ensures { option_map (λ f. matches_of f.now) result ≡ found_of_row n (found_rows self.now) }
    {
        let at = count_above_near(self.rows.as_slice(), n, *near);
        *near = at;
        let Some(found) = self.rows.get(at) else {
            return None;
        };
        if found.row == n {
            return Some(found);
        }
        None
    }
}

/// A term finds in the document that a push leaves what it found in the rows that stay, and what it finds in what is
/// formed.
pub fn found_rows_go_on()
    ensures { FoundGoesOn }
{}

/// Where a term is searched for in each row by itself, a row is put with the matches that are found in it alone.
pub fn rows_show_their_matches()
    ensures { RowsShowTheirMatches }
{}

/// Where a term is searched for in each row by itself, what is shown of a row in some columns is put with the matches
/// that are found in the row alone.
pub fn parts_show_their_matches()
    ensures { PartsShowTheirMatches }
{}
