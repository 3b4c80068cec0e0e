//! The text of a pager: lines, rows and what is kept of them.
#![tactic(auto)]

mod block;
mod buffers;
pub mod carried_style;
pub mod crop;
mod format;
mod formatted;
mod formed;
mod formed_push;
mod hyphens;
pub mod layout;
mod line_cuts;
pub mod line_numbers;
pub mod lines;
pub mod lines_row_map;
mod matched_text;
mod number_prefix;
pub mod pending;
mod pieces;
mod plain;
mod plain_view;
mod push_text;
pub mod row_text;
pub mod rows;
pub mod screen;
mod seams;
pub mod search;
mod settled;
mod spaces;
mod store;
mod stored_line;
pub mod units;
pub mod view;
mod viewed_row;

pub use buffers::{AppendableBuffer, ReusableRows};
pub use carried_style::{carried_styles_stay, styles_stand_before};
pub use crop::{Window, crop_columns, cropped_texts_fit, fit_columns, fitted_texts_fill};
pub use format::{FormatOpts, format_lines_into, format_text_block};
pub use formatted::{FormattedRow, SearchFormattedRow, format_search_rows};
pub use hyphens::words_are_cut_at_joints;
pub use layout::Layout;
pub use line_numbers::{LineNumbers, digits, numbers_toggle_twice, prefix_columns};
pub use lines::{
    join_lines, last_line_end, lines_are_cut, parts_are_of_lines, rows_stand_in_lines,
};
pub use lines_row_map::LinesRowMap;
pub use matched_text::MatchedText;
pub use pending::PendingPush;
pub use pieces::pieces_join;
pub use row_text::RowText;
pub use rows::{Span, format_line, rows_are_determined, rows_fit, wrap_line};
pub use screen::pieces::pieces_push_joined;
pub use screen::searching::Findings;
pub use screen::{
    FormatResult, Line, OwnedTextBlock, Row, Rows, Screen, TextBlock, line_map_ascends, pushes_join,
};
pub use seams::rows_go_on;
pub use search::{
    HighlightMatchesArgs, Patterns, Term, found_rows_go_on, highlight_line_matches,
    highlights_add_markers_alone, next_nth_match, only_matches_are_highlighted,
    parts_show_their_matches, rows_show_their_matches, strip_escapes, word_starts,
};
pub use units::{Unit, Units, columns};
pub use view::RowsView;
pub use viewed_row::{RowPlace, ViewedRow};
