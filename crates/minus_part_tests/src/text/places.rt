//! Rows that are looked for near the place of another one.
use crate::facts::assert_at;
use crate::text::searches::Search;
use minus_text::{Layout, LineNumbers, RowPlace, RowsView, Screen, Term};
use std::alloc::Global;

// Lines of one row and of more, with numbers; the first, the fourth and the last row match.
const TEXT: &str = "xa\nbbbbbbbb cccc\nddddd xe\nf\n\ng xx\x1b[1mx\n";

const LAYOUT: Layout = Layout {
    cols: 16,
    wrapping: true,
    numbers: LineNumbers::Enabled,
    match_lines: false,
    carry_style: false,
};

// Whether a row that is looked for near a place is written as it is formed.
fn is_written(alloc: Global, rows: RowsView<'_>, i: usize, place: &mut RowPlace) -> bool {
    let mut out = Vec::new(alloc);
    let is_there = match rows.row(i, place) {
        Some(row) => row.write_to(alloc, &mut out).is_ok(),
        None => false,
    };
    match rows.formatted_row(alloc, i) {
        Ok(Some(row)) => is_there && out.as_slice() == row.as_bytes(),
        Ok(None) => !is_there && i >= rows.len(),
        Err(_) => false,
    }
}

// Whether these rows are, each looked for near the one before.
fn are_written(alloc: Global, screen: &Screen, order: &[usize]) -> bool {
    let mut place = RowPlace::TOP;
    for i in order {
        if !is_written(alloc, screen.view(), *i, &mut place) {
            return false;
        }
    }
    true
}

// Whether they are where the text is searched for x.
fn are_written_for(alloc: Global, term: Option<Term<'_>>, order: &[usize]) -> bool {
    let mut screen = Screen::new(alloc);
    screen.set_text(alloc, TEXT, LAYOUT, term).is_ok() && are_written(alloc, &screen, order)
}

const ORDERS: [(&str, &[usize]); 4] = [
    ("down", &[0, 1, 2, 3, 4, 5, 6, 7, 8, 9, 10]),
    ("up", &[10, 9, 8, 7, 6, 5, 4, 3, 2, 1, 0]),
    ("a page", &[4, 5, 6, 7, 8]),
    ("about", &[7, 0, 8, 2, 2, 99, 3, 1, 6]),
];

#[test]
fn rows_are_found_from_wherever_they_are_looked_for(rt: HostRuntime) {
    let alloc = rt.alloc();
    for (name, order) in ORDERS {
        let are_found = match Search::of(alloc, "x") {
            Some(search) => are_written_for(alloc, search.term(), order),
            None => false,
        };
        assert_at(&rt, name, are_found && are_written_for(alloc, None, order));
    }
}
