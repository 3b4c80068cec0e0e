//! What is seen of a session by calls that take no memory.
use super::{Lent, Log};
use minus::{PagerState, Selection};

/// What is seen of a session but for its page, of its sink and of its callbacks.
#[derive(Clone, Copy, PartialEq, Eq)]
pub struct Seen {
    numbers: [usize; 11],
    is_set: [bool; 6],
    // (of the text, the typed prefix, the query and the sink's bytes)
    sums: [u64; 4],
    selection: Option<Selection>,
    held: usize,
    calls: u32,
}

impl Seen {
    /// Whether more was written or called than in what was seen before.
    pub fn has_more_than(&self, before: &Seen) -> bool {
        self.held > before.held || self.calls > before.calls
    }
}

// A sum of bytes in which each place weighs differently.
fn sum_of(bytes: &[u8]) -> u64 {
    let mut sum = 1u64;
    for byte in bytes {
        sum = sum.wrapping_mul(257).wrapping_add(*byte as u64);
    }
    sum
}

fn numbers_of(state: &PagerState, cursor: usize) -> [usize; 11] {
    let screen = &state.screen;
    [
        screen.line_count(),
        screen.formatted_lines_count(),
        screen.unterminated(),
        screen.get_max_line_length(),
        screen.match_count(),
        state.upper_mark,
        state.left_mark,
        state.search_mark(),
        state.cols,
        state.rows,
        cursor,
    ]
}

fn set_in(state: &PagerState) -> [bool; 6] {
    [
        state.help_open(),
        state.follow_output(),
        state.prompt_shown(),
        state.line_wrapping(),
        state.term().is_some(),
        state.message.is_some(),
    ]
}

/// What is seen of a session that writes into a log.
pub fn seen_of(session: &Lent<'_>, log: &Log) -> Seen {
    let state = session.state();
    let (query, cursor) = match state.open_search() {
        Some(search) => (search.prompt.query(), search.prompt.cursor()),
        None => ("", 0),
    };
    let (sum, held) = match log.held.try_borrow() {
        Ok(held) => (sum_of(&held), held.len()),
        Err(_) => (0, 0),
    };
    let text = sum_of(state.screen.orig_text().as_bytes());
    let typed = sum_of(state.prefix_num.as_bytes());
    Seen {
        numbers: numbers_of(state, cursor),
        is_set: set_in(state),
        sums: [text, typed, sum_of(query.as_bytes()), sum],
        selection: state.selection,
        held,
        calls: log.calls.get(),
    }
}
