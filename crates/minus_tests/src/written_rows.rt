//! Worked rows of text that are written without a state.
use crate::facts::{assert_at, assert_holds};
use crate::sessions::are_bytes;
use minus::{LineNumbers, write_lines, write_lines_in_horizontal_scroll, write_text_checked};
use std::alloc::Global;

// The stored rows of a text of three lines with numbers, which take 8 columns.
const NUMBERED: [&str; 3] = [
    "     \x1b[1m1.\x1b[0m ab",
    "     \x1b[1m2.\x1b[0m 日本語abc",
    "     \x1b[1m3.\x1b[0m abc",
];

// A page of stored rows that are not wrapped, and the texts that it is written as.
#[derive(Clone, Copy)]
struct Page<'a> {
    name: &'a str,
    lines: &'a [&'a str],
    upper: usize,
    rows: usize,
    cols: usize,
    left: usize,
    numbers: LineNumbers,
    texts: &'a [&'a str],
}

// Whether a page is written so.
fn is_page(alloc: Global, page: &Page<'_>) -> bool {
    let mut sink = Vec::new(alloc);
    let lines_count = page.lines.len();
    let is_written = write_text_checked(
        alloc,
        &mut sink,
        page.lines,
        page.upper,
        page.rows,
        page.cols,
        false,
        page.left,
        page.numbers,
        lines_count,
    )
    .is_ok();
    is_written && are_bytes(&sink, page.texts)
}

// A page of the three numbered rows on 12 columns, whose prompt takes all of it.
const NUMBERED_PAGE: Page<'static> = Page {
    name: "a page of the prompt alone has no rows of text",
    lines: &NUMBERED,
    upper: 1,
    rows: 1,
    cols: 12,
    left: 0,
    numbers: LineNumbers::Enabled,
    texts: &["\x1b[1;1H\x1b[2J"],
};

const PAGES: [Page<'static>; 6] = [
    NUMBERED_PAGE,
    Page {
        name: "a page of no rows has no rows of text",
        rows: 0,
        ..NUMBERED_PAGE
    },
    Page {
        name: "numbered rows from a left mark on",
        upper: 0,
        rows: 3,
        left: 1,
        texts: &["\x1b[1;1H\x1b[2J\r     \x1b[1m1.\x1b[0m b\n\r     \x1b[1m2.\x1b[0m  本 \n"],
        ..NUMBERED_PAGE
    },
    Page {
        name: "a mark past the last full page is clamped",
        upper: 9,
        rows: 3,
        left: 2,
        texts: &["\x1b[1;1H\x1b[2J\r     \x1b[1m2.\x1b[0m 本語\n\r     \x1b[1m3.\x1b[0m c\n"],
        ..NUMBERED_PAGE
    },
    Page {
        name: "a page with room shows each row",
        upper: 2,
        rows: 9,
        left: 5,
        texts: &[
            "\x1b[1;1H\x1b[2J\r     \x1b[1m1.\x1b[0m \n",
            "\r     \x1b[1m2.\x1b[0m  abc\n\r     \x1b[1m3.\x1b[0m \n",
        ],
        ..NUMBERED_PAGE
    },
    Page {
        name: "a page without numbers is cropped at the row's start",
        lines: &["one", "two"],
        upper: 1,
        rows: 3,
        cols: 2,
        left: 1,
        numbers: LineNumbers::AlwaysOff,
        texts: &["\x1b[1;1H\x1b[2J\rne\n\rwo\n"],
    },
];

#[test]
fn a_page_of_rows_is_written(rt: HostRuntime) {
    for page in &PAGES {
        assert!(rt; is_page(rt.alloc(), page), "{}", page.name);
    }
}

// Whether lines without numbers are written so in some columns from a left mark on.
fn is_scrolled(alloc: Global, lines: &[&str], cols: usize, left: usize, text: &str) -> bool {
    let mut sink = Vec::new(alloc);
    let is_written = write_lines_in_horizontal_scroll(
        alloc, &mut sink, lines, cols, left, false, 1,
    ).is_ok();
    is_written && are_bytes(&sink, &[text])
}

// Lines, columns and the left mark, and what they are written as.
type Scrolled = (&'static [&'static str], usize, usize, &'static str);

const SCROLLED: [Scrolled; 7] = [
    (&["日本語abc"], 4, 0, "\r日本\n"),
    (&["日本語abc"], 4, 1, "\r 本 \n"),
    (&["日本語abc"], 4, 2, "\r本語\n"),
    (&["日本語abc"], 4, 5, "\r abc\n"),
    (&["日本語abc"], 4, 9, "\r\n"),
    // sequences stay
    (&["\x1b[31mred\x1b[0m"], 2, 1, "\r\x1b[31med\x1b[0m\n"),
    (&["a▲b", "c"], 3, 0, "\ra▲b\n\rc\n"),
];

#[test]
fn rows_are_cropped_by_columns(rt: HostRuntime) {
    for (lines, cols, left, text) in &SCROLLED {
        assert_at(
            &rt,
            text,
            is_scrolled(rt.alloc(), lines, *cols, *left, text),
        );
    }
}

// Whether rows with numbers, the last row's of this many digits, are written so.
fn is_written(alloc: Global, rows: &[&str], wrapping: bool, lines: usize, texts: &[&str]) -> bool {
    let mut sink = Vec::new(alloc);
    let is_written = write_lines(alloc, &mut sink, rows, 10, wrapping, 1, true, lines).is_ok();
    is_written && are_bytes(&sink, texts)
}

#[test]
fn wrapped_rows_are_written_as_they_are(rt: HostRuntime) {
    let rows = &["     \x1b[1m1.\x1b[0m one", "        two"];
    let texts = &["\r     \x1b[1m1.\x1b[0m one\n", "\r        two\n"];
    assert_holds(&rt, is_written(rt.alloc(), rows, true, 1, texts));
}

#[test]
fn rows_that_are_not_wrapped_are_cropped_behind_their_numbers(rt: HostRuntime) {
    let texts = &[
        "\r     \x1b[1m2.\x1b[0m   \n",
        "\r     \x1b[1m3.\x1b[0m bc\n",
    ];
    assert_holds(&rt, is_written(rt.alloc(), &NUMBERED[1..], false, 3, texts));
}
