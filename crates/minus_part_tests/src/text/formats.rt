//! Texts whose rows are put into a buffer, and rows that are searched.
use crate::facts::assert_holds;
use crate::text::searches::Search;
use minus_text::{FormattedRow, SearchFormattedRow, Term, format_search_rows};
use std::alloc::Global;

// Whether a row prints this.
fn prints(alloc: Global, row: &SearchFormattedRow<'_>, text: &str) -> bool {
    match row.to_string(alloc) {
        Ok(printed) => printed.as_str() == text,
        Err(_) => false,
    }
}

// Whether two rows print these texts under a term that the first one alone matches.
fn is_searched(alloc: Global, term: Option<Term<'_>>, first: &str, second: &str) -> bool {
    let rows = [
        FormattedRow::new("ab", true, 10, 1, true),
        FormattedRow::new("c", true, 10, 1, false),
    ];
    let Ok(found) = format_search_rows(alloc, &rows, term) else {
        return false;
    };
    match found.as_slice() {
        [a, b] => a.1 && !b.1 && prints(alloc, &a.0, first) && prints(alloc, &b.0, second),
        _ => false,
    }
}

// Whether the term that a text says finds the first line, and not the second.
fn is_searched_for(alloc: Global, term: &str, first: &str, second: &str) -> bool {
    match Search::of(alloc, term) {
        Some(search) => is_searched(alloc, search.term(), first, second),
        None => false,
    }
}

#[test]
fn rows_are_searched(rt: HostRuntime) {
    let first = "      \x1b[1m1.\x1b[0m a\x1b[7mb\x1b[27m";
    assert_holds(&rt, is_searched_for(rt.alloc(), "b", first, "         c"));
}
