//! An unfinished line that comes in pieces has the rows of the whole.
use crate::facts::assert_holds;
use crate::text::screens::push;
use minus_text::{LineNumbers, Screen};
use std::alloc::Global;

// Whether two screens show the same.
fn same(a: &Screen, b: &Screen) -> bool {
    let mut alike = a.formatted_lines_count() == b.formatted_lines_count()
        && a.line_count() == b.line_count()
        && a.get_max_line_length() == b.get_max_line_length()
        && a.unterminated() == b.unterminated();
    for i in 0..a.formatted_lines_count() {
        alike &= a.row_text(i) == b.row_text(i);
    }
    for i in 0..a.line_count() {
        alike &= a.lines_to_row_map().get(i) == b.lines_to_row_map().get(i);
    }
    alike
}

// Pushes a text without numbers.
fn push_plain(alloc: Global, screen: &mut Screen, text: &str, cols: usize) -> bool {
    push(alloc, screen, text, LineNumbers::Disabled, cols)
}

// Whether a screen shows the same as one of a text that is pushed whole.
fn same_as_whole(alloc: Global, screen: &Screen, text: &str, cols: usize) -> bool {
    let mut all = Screen::new(alloc);
    push_plain(alloc, &mut all, text, cols) && same(screen, &all)
}

// Whether a push of another text than was prepared shows the same as the whole text.
fn same_after_another_push(alloc: Global, screen: &mut Screen) -> bool {
    match screen.prepare_push(alloc, "ree", LineNumbers::Disabled, 5, None) {
        Ok(pending) => {
            let is_made = screen.place_push(alloc, "ird one", pending, None).is_ok();
            is_made && same_as_whole(alloc, screen, "one two third one", 5)
        }
        Err(_) => false,
    }
}

#[test]
fn a_push_of_another_text_than_prepared_is_formed_anew(rt: HostRuntime) {
    let alloc = rt.alloc();
    let mut screen = Screen::new(alloc);
    let is_same = push_plain(alloc, &mut screen, "one two th", 5)
        && same_after_another_push(alloc, &mut screen);
    assert_holds(&rt, is_same && screen.orig_text() == "one two third one");
}
