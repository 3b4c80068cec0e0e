//! How many rows of text a page has.
ghost use Rattle.std.specs.Prelude.{◌≡◌};
ghost use Rattle.minus_term.specs.PageRows.{page_len};

/// The rows of text that a page has, in a terminal of this many rows: one less, since the last is the prompt's.
#[inline]
pub fn page_len(rows: usize) -> usize
    ensures { result ≡ page_len rows }
{
    rows.saturating_sub(1)
}
