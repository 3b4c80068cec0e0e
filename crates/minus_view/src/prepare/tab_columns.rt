//! A tab and its columns: how far tabs stand apart, and the column behind some characters.
ghost use Rattle.std.specs.Prelude.{ℕ, Bool, ◌≡◌, ◌+◌, ◌<◌, ◌≤◌, true, IfOk};
ghost use Rattle.std.specs.List.{list_all};
ghost use Rattle.minus_view.specs.Shown.{is_plain};
ghost use Rattle.minus_view.specs.Prepared.{IsAt, TakesTab};
ghost use Rattle.minus_view.specs.TabColumns.{apart, tab_len, IsColumnAfter};

use super::{Preparation, Shape};
use crate::look::Look;
use std::alloc::AllocError;

// How far tabs stand apart at most.
const MOST_TABS: usize = 65535;

/// How far tabs stand apart.
pub(super) fn apart(shape: Shape) -> usize
    ensures is { result ≡ apart shape }
    ensures some { 0 < result }
    ensures most { result ≤ 65535 }
{
    shape.tabs.max(1).min(MOST_TABS)
}

/// The column behind these characters, as far as tabs can tell.
pub(super) fn column_after(tabs: usize, column: usize, plain: &[u8]) -> usize
    requires plain { list_all (is_plain true) plain.now ≡ true }
    requires some { 0 < tabs }
    requires most { tabs ≤ 65535 }
    ensures { IsColumnAfter tabs column plain.now result }
{
    let mut start = plain.len();
    while 0 < start && plain[start - 1] != b'\n' {
        start -= 1;
    }
    let line = (plain.len() - start) % tabs;
    if start == 0 {
        column % tabs + line
    } else {
        line
    }
}

impl Preparation {
    // A tab: blanks up to the next column that tabs lead to.
    pub(super) fn tab(&mut self) -> Result<(), AllocError>
        ensures plain { IfOk result (λ _. TakesTab self.old self.new) }
        ensures column { IfOk result (λ _. (marks : Bool) (tabs col : ℕ) → IsAt marks tabs col self.old
            → IsAt marks tabs (col + tab_len tabs col) self.new) }
    {
        self.release()?;
        self.open(Look::Plain)?;
        let tabs = apart(self.shape);
        self.sheet
            .put_tab(self.shape.marks_tabs, tabs - self.column % tabs)?;
        self.is_blank = false;
        self.column = 0;
        Ok(())
    }
}
