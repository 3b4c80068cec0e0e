//! The bytes of partial drawings, as a person works them out.
ghost use Rattle.std.specs.Prelude.{IfSome};
ghost use Rattle.minus_state.specs.States.{IsFormed};

use crate::facts::assert_holds;
use crate::sessions::{PROMPT_ROW, TEN_LINES, are_bytes};
use minus::{Layout, PagerState, draw_append_text, draw_for_change, draw_full, write_prompt};
use std::alloc::Global;

// What stands before the prompt row of a page of four rows.
const FIFTH_ROW: &str = "\x1b[5;1H\r\x1b[2K";

// A state of 20 columns and 4 rows with this text.
fn state_of(alloc: Global, text: &str) -> Option<PagerState>
    ensures { IfSome result IsFormed }
{
    let Ok(mut state) = PagerState::new(alloc, 20, 4) else {
        return None;
    };
    match state.screen.set_text(alloc, text, Layout::plain(20), None) {
        Ok(_) => Some(state),
        Err(_) => None,
    }
}

// Draws a state, moves to its end, draws it again from the last of ten rows on, and says another prompt.
fn draw_by_itself(alloc: Global, state: &mut PagerState, sink: &mut Vec<u8>) -> bool
    requires { IsFormed state.old }
{
    let mut mark = 9;
    draw_full(alloc, sink, state).is_ok()
        && draw_for_change(alloc, sink, state, &mut mark).is_ok()
        && draw_append_text(alloc, sink, state, 9, 10).is_ok()
        && write_prompt(alloc, sink, "end", 4).is_ok()
}

// Whether that is drawn as these texts.
fn is_drawn_by_itself(alloc: Global, texts: &[&str]) -> bool {
    let mut sink = Vec::new(alloc);
    let is_drawn = match state_of(alloc, TEN_LINES) {
        Some(mut state) => draw_by_itself(alloc, &mut state, &mut sink),
        None => false,
    };
    is_drawn && are_bytes(&sink, texts)
}

#[test]
fn a_state_is_drawn_by_itself(rt: HostRuntime) {
    let texts = &[
        "\x1b[1;1H\x1b[2J\rl0\n\rl1\n\rl2\n",
        FIFTH_ROW,
        PROMPT_ROW,
        "\x1b[3S\x1b[1;1H\x1b[2K\rl7\n\rl8\n\rl9\n",
        FIFTH_ROW,
        PROMPT_ROW,
        "\x1b[3;1H\x1b[2Kl9\x1b[5;1H\r\x1b[2Kend",
    ];
    assert_holds(&rt, is_drawn_by_itself(rt.alloc(), texts));
}

// Whether the rows of a state of one line are drawn so from a row on, where there were this many.
fn is_drawn_from(alloc: Global, first: usize, old_count: usize, drawn: &str) -> bool {
    let mut sink = Vec::new(alloc);
    let is_drawn = match state_of(alloc, "a") {
        Some(state) => draw_append_text(alloc, &mut sink, &state, first, old_count).is_ok(),
        None => false,
    };
    is_drawn && are_bytes(&sink, &[drawn])
}

// A row of the text, how many rows there were, and what is drawn from it on: the greater of old and new count ends it.
const FROM: [(usize, usize, &str); 4] = [
    (0, 1, "\x1b[1;1H\x1b[2Ka"),
    (1, 3, "\x1b[2;1H\x1b[2K\x1b[3;1H\x1b[2K"),
    (2, 3, "\x1b[3;1H\x1b[2K"),
    (3, 2, ""),
];

#[test]
fn rows_are_drawn_from_one_on(rt: HostRuntime) {
    for (first, old_count, drawn) in &FROM {
        assert!(rt;
            is_drawn_from(rt.alloc(), *first, *old_count, drawn),
            "from row {first}"
        );
    }
}
