//! Rows that are put with the style that is carried to them. Rows stand in one text with a bar between them.
use crate::facts::assert_holds;
use crate::text::screens::set;
use minus_text::{Layout, Screen};
use std::alloc::Global;

// This many columns, in which styles are carried.
fn carried(cols: usize) -> Layout {
    let mut layout = Layout::plain(cols);
    layout.carry_style = true;
    layout
}

// Whether rows to which a style is carried are put as they stand by no call.
fn is_plain_without(alloc: Global) -> bool {
    let mut screen = Screen::new(alloc);
    if !set(alloc, &mut screen, "\x1b[31maaaa bb\x1b[m cc", carried(4)) {
        return false;
    }
    let rows = screen.view();
    rows.plain_row(0) == Some("\x1b[31maaaa")
        && rows.plain_row(1).is_none()
        && rows.plain_text(1).is_none()
        && rows.plain_row(2) == Some("cc")
}

#[test]
fn a_row_with_a_style_is_not_plain(rt: HostRuntime) {
    assert_holds(&rt, is_plain_without(rt.alloc()));
}
