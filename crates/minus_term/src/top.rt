//! The top of the last page: the greatest mark.
ghost use Rattle.std.specs.Prelude.{◌≡◌};
ghost use Rattle.minus_term.specs.Top.{top_of};

use crate::page_rows::page_len;

/// The greatest mark, a row counted from 0, where the last page of this many rows of text begins, in a terminal of so
/// many rows: that page is full where there are rows enough.
#[inline]
pub fn top_of(count: usize, rows: usize) -> usize
    ensures { result ≡ top_of count rows }
{
    count.saturating_sub(page_len(rows))
}
