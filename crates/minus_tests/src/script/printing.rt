//! Rows as they are printed, numbers and arguments.
use crate::facts::assert_holds;
use crate::script::words::add_words;
use minus_input::parse_usize;
use minus_script::{Arguments, Mode, parse_arguments, print_row, print_rows};
use std::alloc::Global;

// Whether a row is printed so.
fn prints(alloc: Global, row: &str, printed: &str) -> bool {
    let mut out = Vec::new(alloc);
    print_row(&mut out, row).is_ok() && out.as_slice() == printed.as_bytes()
}

#[test]
fn prints_a_row_with_escapes(rt: HostRuntime) {
    assert_holds(
        &rt,
        prints(rt.alloc(), "a\x1b[1m\r\\né", "a\\e[1m\\r\\\\né\n"),
    );
}

// Whether rows are printed so.
fn prints_all(alloc: Global, texts: &[&str], printed: &str) -> bool {
    let mut rows = Vec::new(alloc);
    let mut out = Vec::new(alloc);
    add_words(alloc, &mut rows, texts)
        && print_rows(&mut out, &rows).is_ok()
        && out.as_slice() == printed.as_bytes()
}

#[test]
fn prints_rows(rt: HostRuntime) {
    assert_holds(&rt, prints_all(rt.alloc(), &["", "b"], "\nb\n"));
}

// Whether these words are these arguments, or none.
fn reads(alloc: Global, texts: &[&str], arguments: Option<Arguments>) -> bool {
    let mut words = Vec::new(alloc);
    add_words(alloc, &mut words, texts) && parse_arguments(&words) == arguments
}

const PAGE: Arguments = Arguments {
    mode: Mode::Page,
    cols: 80,
    rows: 24,
};

const BYTES: Arguments = Arguments {
    mode: Mode::Bytes,
    cols: 0,
    rows: 1,
};

#[test]
fn reads_arguments(rt: HostRuntime) {
    let cases: &[(&[&str], Option<Arguments>)] = &[
        (&["page", "80", "24"], Some(PAGE)),
        (&["bytes", "0", "1"], Some(BYTES)),
        (&[], None),
        (&["page", "80"], None),
        (&["page", "80", "24", ""], None),
        (&["Page", "80", "24"], None),
        (&["lines", "80", "24"], None),
        (&["page", "", "24"], None),
        (&["page", "80", "-1"], None),
        (&["page", "80", "18446744073709551616"], None),
    ];
    for (texts, arguments) in cases {
        assert!(rt; reads(rt.alloc(), texts, *arguments), "of {texts:?}");
    }
}

#[test]
fn reads_numbers(rt: HostRuntime) {
    assert_holds(
        &rt,
        parse_usize("+018") == Some(18) && parse_usize("1 ").is_none(),
    );
}
