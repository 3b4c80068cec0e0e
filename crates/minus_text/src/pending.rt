//! A push before it is made.
use crate::formed_push::FormedPush;
use crate::search::found_rows::FoundRows;
use std::marker::Model;

/// What a push would form, beside the rows that would stay, and what a term finds in that:
/// `Screen::prepare_push` makes it.
#[derive(Debug, Drop)]
pub struct PendingPush {
    pub(crate) push: FormedPush,
    pub(crate) found: FoundRows,
}

impl Model for PendingPush {
    ghost use Rattle.minus_text.specs.Fragments.{rows_in};
    ghost use Rattle.minus_text.specs.Found.{AreFoundIn};
    ghost use Rattle.minus_text.specs.FoundBy.{found_rows, AreJumps};
    ghost use Rattle.minus_text.specs.Searched.{SearchedPush};

    ghost Value = { SearchedPush };

    ghost view = { λ p. record { push = p.push; found = found_rows p.found } };

    ghost invariant = { λ p. AreFoundIn p.push.kept_rows (rows_in p.push.tail) (found_rows p.found)
        × AreJumps p.found };
}

impl PendingPush {
    ghost use Rattle.std.specs.Prelude.{◌≡◌, ◌+◌, ◌++◌, length, slice_get};
    ghost use Rattle.minus_text.specs.Fragments.{rows_in};
    ghost use Rattle.minus_text.specs.Found.{AreFoundIn, Ascend, found_above, jump_rows, match_total, matches_above};
    ghost use Rattle.minus_text.specs.JumpRows.{counted};
    ghost use Rattle.minus_text.specs.FoundBy.{found_rows, AreJumps};

    /// The number of rows once it is made: those that stay, and those formed. It takes no memory.
    pub fn row_count(&self) -> usize
        ensures { result ≡ self.now.push.kept_rows + length (rows_in self.now.push.tail) }
    {
        self.push.kept_rows() + self.push.formed_rows()
    }

    // What was formed.
    pub(crate) fn push(&self) -> &FormedPush
        ensures { result.now ≡ self.now.push }
    {
        &self.push
    }

    // What was found in that.
    pub(crate) fn found(&self) -> &FoundRows
        ensures value { found_rows result.now ≡ self.now.found }
        ensures stand { AreFoundIn self.now.push.kept_rows (rows_in self.now.push.tail) (found_rows result.now) }
        ensures jumps { AreJumps result.now }
    {
        &self.found
    }

    // The number of rows in which matches begin once it is made, where these are found before: those that stay, and
    // those formed.
    pub(crate) fn match_count(&self, found: &FoundRows) -> usize
        requires ascend { Ascend 0 (found_rows found.now) }
        requires jumps { AreJumps found.now }
        ensures { result
            ≡ length (jump_rows (found_above self.now.push.kept_rows (found_rows found.now) ++ self.now.found)) }
    {
        found.count_above(self.push.kept_rows()) + self.found.len()
    }

    // The number of a row in which matches begin then. Such rows are counted from 0 in their order.
    pub(crate) fn match_row(&self, found: &FoundRows, i: usize) -> Option<usize>
        requires ascend { Ascend 0 (found_rows found.now) }
        requires jumps { AreJumps found.now }
        ensures { result ≡ slice_get (jump_rows (found_above self.now.push.kept_rows (found_rows found.now)
            ++ self.now.found)) i }
    {
        let kept = found.count_above(self.push.kept_rows());
        if i < kept {
            return found.row(i);
        }
        self.found.row(i - kept)
    }

    // How many matches there are then.
    pub(crate) fn match_total(&self, found: &FoundRows) -> usize
        requires ascend { Ascend 0 (found_rows found.now) }
        requires jumps { AreJumps found.now }
        ensures { result ≡ counted (match_total (found_above self.now.push.kept_rows (found_rows found.now)
            ++ self.now.found)) }
    {
        found
            .matches_above(self.push.kept_rows())
            .saturating_add(self.found.match_total())
    }

    // How many begin then in the rows above one.
    pub(crate) fn matches_above(&self, found: &FoundRows, row: usize) -> usize
        requires ascend { Ascend 0 (found_rows found.now) }
        requires jumps { AreJumps found.now }
        ensures { result ≡ counted (matches_above row (found_above self.now.push.kept_rows (found_rows found.now)
            ++ self.now.found)) }
    {
        let kept = self.push.kept_rows();
        found
            .matches_above(row.min(kept))
            .saturating_add(self.found.matches_above(row))
    }
}
