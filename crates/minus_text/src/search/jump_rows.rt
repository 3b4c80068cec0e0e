//! The rows that jumps go to, counted with their matches.
ghost use Rattle.std.specs.Prelude.{◌≡◌, ◌≤◌, ◌<◌, length, map, IfOk, OnOk};
ghost use Rattle.std.specs.List.{position_or_len};
ghost use Rattle.minus_text.specs.Matches.{counts_first};
ghost use Rattle.minus_text.specs.FoundRows.{matches_of};
ghost use Rattle.minus_text.specs.JumpRows.{jumps_behind, jump_behind, numbers_with, ended_at, Rise};

use crate::search::found::FoundRow;
use crate::search::matches::counts_first;
use std::alloc::{AllocError, Global};
use std::collections::BTreeSet;

// A row in which matches begin, and how many begin down to its end.
#[derive(Clone, Copy, Debug)]
pub(crate) struct Jump {
    pub(crate) row: usize,
    pub(crate) end: usize,
}

// The rows of what was found in which matches begin.
pub(crate) fn jumps_of(alloc: Global, found: &[FoundRow]) -> Result<Vec<Jump>, AllocError>
    ensures { IfOk result (λ jumps. jumps.items ≡ jumps_behind 0 (map matches_of found.now)) }
{
    let mut jumps = Vec::new(alloc);
    let mut end = 0usize;
    for row in found {
        if row.begins > 0 {
            end = end.saturating_add(row.begins);
            jumps.push(Jump { row: row.row, end })?;
        }
    }
    Ok(jumps)
}

// Counts this many matches more before each of these.
pub(crate) fn count_behind(jumps: &mut Vec<Jump>, matches: usize)
    ensures { jumps.new.items ≡ map (jump_behind matches) jumps.old.items }
{
    for i in 0..jumps.len() {
        jumps[i].end = matches.saturating_add(jumps[i].end);
    }
}

// How many of these stand before the first that a jump by this number of matches from a mark may count: for a jump by
// none, how many stand above a row.
pub(crate) fn jumps_before(jumps: &[Jump], mark: usize, jump: usize) -> usize
    requires { Rise 0 (map (λ j. j.row) jumps.now) }
    ensures value { result ≡ position_or_len (counts_first mark jump) (map (λ j. j.row) jumps.now) }
    ensures few { result ≤ length jumps.now }
{
    jumps.partition_point(|found| !counts_first(mark, jump, found.row))
}

// How many matches begin in the first this many of these.
pub(crate) fn ended_at(jumps: &[Jump], i: usize) -> usize
    requires { i ≤ length jumps.now }
    ensures { result ≡ ended_at 0 jumps.now i }
{
    if i == 0 {
        return 0;
    }
    jumps[i - 1].end
}

// Adds the numbers of their rows.
pub(crate) fn add_numbers(numbers: &mut BTreeSet<usize>, jumps: &[Jump]) -> Result<(), AllocError>
    ensures { OnOk result (numbers.new.keys ≡ numbers_with (map (λ j. j.row) jumps.now) numbers.old.keys) }
{
    for jump in jumps {
        numbers.insert(jump.row)?;
    }
    Ok(())
}
