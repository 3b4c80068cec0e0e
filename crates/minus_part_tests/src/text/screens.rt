//! Screens for tests, and what they have. Pieces, and rows, stand in one text with a bar between them. Where memory
//! runs out, each answer is `false`.
use minus_text::{Layout, LineNumbers, Screen};
use std::alloc::Global;

// Pushes a text.
pub(crate) fn push(
    alloc: Global,
    screen: &mut Screen,
    text: &str,
    numbers: LineNumbers,
    cols: usize,
) -> bool {
    screen
        .push_screen_buf(alloc, text, numbers, cols, None)
        .is_ok()
}

// Sets a text.
pub(crate) fn set(alloc: Global, screen: &mut Screen, text: &str, layout: Layout) -> bool {
    screen.set_text(alloc, text, layout, None).is_ok()
}
