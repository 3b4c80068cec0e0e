//! What is shown of a text in some columns, and the prefixes of numbered rows.
use crate::facts::assert_holds;
use minus_text::{FormattedRow, LineNumbers, prefix_columns};
use std::alloc::Global;

// Whether a first row has its number, one without numbers has nothing, and one that goes on has blanks.
fn begins_with_numbers(alloc: Global) -> bool {
    let first = FormattedRow::new("a", true, 1, 1, true);
    let plain = FormattedRow::new("b", false, 1, 1, true);
    let later = FormattedRow::new("c", true, 10, 9, false);
    match format!(in alloc; "{first}{plain}{later}") {
        Ok(rows) => rows.as_str() == "     \x1b[1m1.\x1b[0m ab         c",
        Err(_) => false,
    }
}

#[test]
fn rows_begin_with_numbers(rt: HostRuntime) {
    let has_columns = prefix_columns(true, 10) == 9 && prefix_columns(false, 10) == 0;
    assert_holds(&rt, begins_with_numbers(rt.alloc()) && has_columns);
}

#[test]
fn numbers_are_exchanged(rt: HostRuntime) {
    let exchanged = !LineNumbers::Enabled == LineNumbers::Disabled
        && (!LineNumbers::Disabled).is_on();
    let stays = !LineNumbers::AlwaysOn == LineNumbers::AlwaysOn
        && !LineNumbers::AlwaysOff == LineNumbers::AlwaysOff;
    assert_holds(&rt, exchanged && stays);
}
