//! Search in texts.
pub mod escapes;
pub(crate) mod finding;
pub(crate) mod found;
pub(crate) mod found_rows;
pub mod highlight;
pub(crate) mod jump_rows;
pub mod line_finds;
pub(crate) mod line_splits;
pub mod matches;
pub mod patterns;
pub(crate) mod shown_matches;
mod standing;
pub mod styles;
pub mod term;
pub mod words;

pub use escapes::strip_escapes;
pub(crate) use found::Finder;
pub use found_rows::{found_rows_go_on, parts_show_their_matches, rows_show_their_matches};
pub use highlight::{
    HighlightMatchesArgs, highlight_line_matches, highlights_add_markers_alone,
    only_matches_are_highlighted,
};
pub use matches::next_nth_match;
pub use patterns::Patterns;
pub use term::Term;
pub use words::word_starts;
