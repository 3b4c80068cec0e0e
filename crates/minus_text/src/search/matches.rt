//! Which of the matching rows a search goes to.
ghost use Rattle.std.specs.Prelude.{◌≡◌};
ghost use Rattle.minus_text.specs.Matches.{counts_first, nearest, nth_match};

use std::collections::BTreeSet;

// Whether a jump may count this row as its first.
pub(crate) fn counts_first(mark: usize, jump: usize, row: usize) -> bool
    ensures { result ≡ counts_first mark jump row }
{
    if jump == 0 { row >= mark } else { row > mark }
}

// The place of the first row that counts, or 0.
fn nearest(rows: &BTreeSet<usize>, mark: usize, jump: usize) -> usize
    ensures { result ≡ nearest rows.now.keys mark jump }
{
    rows.iter()
        .position(|row| counts_first(mark, jump, *row))
        .unwrap_or(0)
}

/// The place, counted from 0 in ascending order, of the matching row that a jump by `jump` matches
/// from the row `upper_mark` goes to; a jump by 0 stays at a match that is right there. Past the last
/// match it goes on at the first. `None` if no row matches.
pub fn next_nth_match(rows: &BTreeSet<usize>, upper_mark: usize, jump: usize) -> Option<usize>
    ensures { result ≡ nth_match rows.now.keys upper_mark jump }
{
    let count = rows.len();
    if count == 0 {
        return None;
    }
    let first = nearest(rows, upper_mark, jump);
    if jump == 0 {
        return Some(first);
    }
    Some((first + (jump - 1) % count) % count)
}
