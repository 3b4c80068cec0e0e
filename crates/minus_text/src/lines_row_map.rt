//! A map from each line to the number of its first row.
ghost use Rattle.std.specs.Prelude.{◌≡◌, ℕ, true, ◌+◌, ◌^◌, ◌<◌, ◌≤◌, ◌==◌, List, [], ◌∷◌, ◌++◌, length, map, take, slice_get, slice_index, OnOk, OnErr, MatchOption};
ghost use Rattle.std.specs.List.Sorted.{IsStrictlyIncreasing};
ghost use Rattle.minus_text.specs.LineMaps.{entries_kept, IsLineOfRow, IsLineIn};

use std::alloc::{AllocError, Global};
use std::marker::Model;

/// The number of the first row of each line, from line 0 on. The numbers ascend strictly.
#[derive(Debug, Drop)]
pub struct LinesRowMap {
    first_rows: Vec<usize>,
}

impl Model for LinesRowMap {
    ghost use Rattle.std.specs.Prelude.{ℕ, List};
    ghost use Rattle.std.specs.List.Sorted.{IsStrictlyIncreasing};

    ghost Value = { List ℕ };

    ghost view = { λ s. s.first_rows.items };

    ghost invariant = { λ s. IsStrictlyIncreasing s.first_rows.items };
}

// Puts fresh entries behind the first few. An `Err` changes nothing.
fn replace_behind(entries: &mut Vec<usize>, keep: usize, fresh: &[usize]) -> Result<(), AllocError>
    ensures ok { OnOk result (entries.new.items ≡ take keep entries.old.items ++ fresh.now) }
    ensures err { OnErr result (entries.new.items ≡ entries.old.items) }
{
    entries.reserve(fresh.len())?;
    entries.truncate(keep);
    match entries.extend_from_slice(fresh) {
        Ok(()) => Ok(()),
        Err(_) => unreachable!(),
    }
}

// The last of some lines whose first row is at or before a row, and line 0 where there is none.
fn line_of_row(first_rows: &[usize], row: usize) -> Option<usize>
    requires { IsStrictlyIncreasing first_rows.now }
    ensures { MatchOption result (first_rows.now ≡ []) (λ line. IsLineOfRow first_rows.now row line) }
{
    if first_rows.is_empty() {
        return None;
    }
    match first_rows.binary_search(&row) {
        Ok(line) => Some(line),
        Err(after) => Some(after.saturating_sub(1)),
    }
}

// Whether a row stands from where a line begins on, and before where the next one does.
fn is_in_line(first_rows: &[usize], row: usize, line: usize) -> bool
    ensures { result ≡ true → IsLineOfRow first_rows.now row line }
{
    if line >= first_rows.len() || row < first_rows[line] {
        return false;
    }
    let next = line + 1;
    next == first_rows.len() || row < first_rows[next]
}

// How many entries stay before more are put behind them.
fn kept_len(len: usize, clean: bool) -> usize
    ensures { (entries : List ℕ) → len ≡ length entries → take result entries ≡ entries_kept entries clean }
{
    if clean { len } else { len.saturating_sub(1) }
}

impl LinesRowMap {
    /// A map of no line.
    pub fn new(alloc: Global) -> Self
        ensures { result ≡ [] }
    {
        LinesRowMap {
            first_rows: Vec::new(alloc),
        }
    }

    // Its entries.
    pub(crate) fn as_slice(&self) -> &[usize]
        ensures { result.now ≡ self.now }
    {
        self.first_rows.as_slice()
    }

    // The map with these entries.
    pub(crate) fn from_first_rows(first_rows: Vec<usize>) -> Self
        requires { IsStrictlyIncreasing first_rows.items }
        ensures { result ≡ first_rows.items }
    {
        LinesRowMap { first_rows }
    }

    /// Moves the entries of another map behind these. Where the rows go on those of the last line,
    /// `clean` is false, and the last entry is dropped first. An `Err` changes neither map.
    pub fn append(&mut self, other: &mut Self, clean: bool) -> Result<(), AllocError>
        requires { IsStrictlyIncreasing (entries_kept self.old clean ++ other.old) }
        ensures ok { OnOk result (self.new ≡ entries_kept self.old clean ++ other.old) }
        ensures emptied { OnOk result (other.new ≡ []) }
        ensures err { OnErr result (self.new ≡ self.old) }
        ensures other_err { OnErr result (other.new ≡ other.old) }
    {
        let keep = kept_len(self.first_rows.len(), clean);
        replace_behind(&mut self.first_rows, keep, other.first_rows.as_slice())?;
        other.first_rows.clear();
        Ok(())
    }

    /// Puts the first row of one more line behind these, after the last entry is dropped unless
    /// `clean`. An `Err` changes nothing.
    pub fn insert(&mut self, row: usize, clean: bool) -> Result<(), AllocError>
        requires { IsStrictlyIncreasing (entries_kept self.old clean ++ row ∷ []) }
        ensures ok { OnOk result (self.new ≡ entries_kept self.old clean ++ row ∷ []) }
        ensures err { OnErr result (self.new ≡ self.old) }
    {
        let keep = kept_len(self.first_rows.len(), clean);
        replace_behind(&mut self.first_rows, keep, &[row])?;
        Ok(())
    }

    // Puts the entries of another map behind the first few. An `Err` changes nothing.
    pub(crate) fn replace_behind(&mut self, keep: usize, fresh: &Self) -> Result<(), AllocError>
        requires { IsStrictlyIncreasing (take keep self.old ++ fresh.now) }
        ensures ok { OnOk result (self.new ≡ take keep self.old ++ fresh.now) }
        ensures err { OnErr result (self.new ≡ self.old) }
    {
        replace_behind(&mut self.first_rows, keep, fresh.first_rows.as_slice())?;
        Ok(())
    }

    /// The number of the first row of a line, both from 0.
    pub fn get(&self, line: usize) -> Option<usize>
        ensures { result ≡ slice_get self.now line }
    {
        self.first_rows.get(line).copied()
    }

    /// The last line whose first row is at or before a row, and line 0 where there is none; `None`
    /// only where there is no line.
    pub fn row_to_line(&self, row: usize) -> Option<usize>
        ensures { MatchOption result (self.now ≡ []) (λ line. IsLineOfRow self.now row line) }
    {
        match line_of_row(self.first_rows.as_slice(), row) {
            Some(line) => Some(line),
            None => None,
        }
    }

    // The line that `row_to_line` gives: it is known at once where it is near, or the next one.
    pub(crate) fn row_to_line_near(&self, row: usize, near: usize) -> Option<usize>
        ensures { MatchOption result (self.now ≡ []) (λ line. IsLineOfRow self.now row line) }
    {
        let first_rows = self.first_rows.as_slice();
        if is_in_line(first_rows, row, near) {
            return Some(near);
        }
        let next = near.saturating_add(1);
        if is_in_line(first_rows, row, next) {
            return Some(next);
        }
        self.row_to_line(row)
    }

    // The line of a row, and whether the line begins with it, where other entries stand behind the
    // first few of these.
    pub(crate) fn line_in(&self, keep: usize, behind: &Self, row: usize) -> Option<(usize, bool)>
        requires { keep ≤ length self.now }
        ensures { MatchOption result (take keep self.now ++ behind.now ≡ [])
            (λ x. IsLineIn (take keep self.now ++ behind.now) row x.0 x.1) }
    {
        let front = &self.first_rows[..keep];
        let found = behind.row_to_line(row);
        let Some(line) = line_of_row(front, row) else {
            return match found {
                Some(later) => Some((later, behind.begins(later, row))),
                None => None,
            };
        };
        match found {
            Some(later) if behind.first_rows[later] <= row => {
                Some((keep + later, behind.begins(later, row)))
            }
            _ => Some((line, front[line] == row)),
        }
    }

    // Whether a line begins with a row.
    pub(crate) fn begins(&self, line: usize, row: usize) -> bool
        requires { line < length self.now }
        ensures { result ≡ (slice_index self.now line == row) }
    {
        self.first_rows[line] == row
    }

    /// How many lines there are.
    pub fn len(&self) -> usize
        ensures value { result ≡ length self.now }
        ensures few { result < 2 ^ 63 }
    {
        self.first_rows.len()
    }

    /// Whether there is no line.
    pub fn is_empty(&self) -> bool
        ensures { result ≡ (length self.now == 0) }
    {
        self.first_rows.is_empty()
    }
}
