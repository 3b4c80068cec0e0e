//! The term of a state: the rows that match it, how they are shown, and what the prompt row reports of them, as the
//! text and its layout change. Where memory runs out, each answer is `false`.

use minus_state::{PagerState, ShownRows, render_rows_for_display};
use minus_text::Rows;
use std::alloc::Global;

pub(crate) const TEN_LINES: &str = "l0\nl1\nl2\nl3\nl4\nl5\nl6\nl7\nl8\nl9";

// A state of a text on this many columns and four rows.
fn state_at(alloc: Global, cols: usize, text: &str) -> Option<PagerState> {
    let Ok(mut state) = PagerState::new(alloc, cols, 4) else {
        return None;
    };
    state.append_str(alloc, text).is_ok().then_some(state)
}

// A state of a text on 20 columns and four rows.
pub(crate) fn state_of(alloc: Global, text: &str) -> Option<PagerState> {
    state_at(alloc, 20, text)
}

// Whether rows are these.
pub(crate) fn are_rows(rows: &Rows, wanted: &[&str]) -> bool {
    for (i, row) in rows.iter().enumerate() {
        if wanted.get(i) != Some(&row.as_str()) {
            return false;
        }
    }
    rows.len() == wanted.len()
}

// Whether the page shows these rows of text.
pub(crate) fn has_page(alloc: Global, state: &PagerState, rows: &[&str]) -> bool {
    let shown = ShownRows {
        view: state.screen.view(),
        left_mark: state.left_mark,
        ends: state.ends(),
    };
    let end = state.upper_mark.saturating_add(state.rows - 1);
    match render_rows_for_display(alloc, &shown, state.upper_mark, end) {
        Ok(page) => are_rows(&page, rows),
        Err(_) => false,
    }
}

// Whether these rows match, and no others.
pub(crate) fn has_matches(state: &PagerState, rows: &[usize]) -> bool {
    let matches = state.matches();
    for (place, row) in rows.iter().enumerate() {
        if matches.row(place) != Some(*row) {
            return false;
        }
    }
    matches.len() == rows.len() && matches.is_empty() == rows.is_empty()
}
