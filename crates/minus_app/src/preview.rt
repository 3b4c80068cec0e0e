//! Whether the page shows where a query leads while it is typed.
ghost use Rattle.std.specs.Prelude.{◌≡◌};
ghost use Rattle.minus_app.specs.Preview.{is_previewed};

use minus::search::{ConditionCall, IncrementalSearchOpts, SearchOpts};

/// In a text of this many bytes at most: one that is searched to its end takes some 50 ms then.
pub(crate) const MOST_PREVIEWED: usize = 16 * 1024 * 1024;

// Whether the text that is seen is short enough.
fn is_previewed(seen: &Option<IncrementalSearchOpts<'_>>) -> bool
    ensures { result ≡ is_previewed seen.now }
{
    match seen {
        Some(seen) => seen.screen.orig_text().len() <= MOST_PREVIEWED,
        None => false,
    }
}

/// The condition of the preview: the query has two bytes or more, and the text at most 16 MiB.
#[derive(Clone, Copy, Drop)]
pub struct ShowsWithin;

impl ConditionCall for ShowsWithin {
    ghost use Rattle.minus_app.specs.Preview.{shows_within};

    ghost judges = { λ condition opts answer. answer ≡ shows_within opts };

    fn ask(&self, opts: &SearchOpts<'_>) -> bool {
        opts.string.len() > 1 && is_previewed(&opts.incremental_search_options)
    }
}
