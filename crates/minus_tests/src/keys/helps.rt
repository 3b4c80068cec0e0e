//! The help table of the default bindings, by themselves and in a register that is in use.
use crate::facts::assert_holds;
use crate::keys::registers::{Register, empty, goes, lists_both, to_row};
use minus::{Event, InputEvent, generate_default_bindings};
use minus_part_tests::asked::{START, answers, press};
use minus_script::DefaultKeys;
use std::alloc::Global;

// The first lines of the default bindings, in their order.
const FIRST: &str = concat!(
    "  q, Ctrl-c                      quit\n",
    "  Up, k                          scroll up\n",
    "  Down, j                        scroll down\n",
);

// Their other lines.
const OTHERS: &str = concat!(
    "  Ctrl-f                         toggle follow\n",
    "  Enter                          scroll lines\n",
    "  u, Ctrl-u                      half-page up\n",
    "  d, Ctrl-d                      half-page down\n",
    "  g, Home                        top\n",
    "  Shift-g, End                   bottom\n",
    "  PageUp                         page up\n",
    "  PageDown, <Space>              page down\n",
    "  Ctrl-l                         toggle line numbers\n",
    "  Shift-m                        help\n",
    "  /                              search forward\n",
    "  ?                              search backward\n",
    "  n                              next match\n",
    "  p, Shift-n                     previous match\n",
    "  Ctrl-Shift-h, Ctrl-h           toggle line wrap\n",
    "  h, Left                        scroll left\n",
    "  l, Right                       scroll right\n",
);

// Whether the help of the default bindings lists their lines.
fn lists_defaults(alloc: Global) -> bool {
    match DefaultKeys::new(alloc) {
        Ok(keys) => lists_both(alloc, &keys, FIRST, OTHERS),
        Err(_) => false,
    }
}

#[test]
fn help_lists_the_default_bindings(rt: HostRuntime) {
    assert_holds(&rt, lists_defaults(rt.alloc()));
}

// The first lines of a register in which two keys were bound before, one of which has a default binding.
const MIXED: &str = concat!(
    "  x                              mine\n",
    "  j, Down                        scroll down\n",
    "  q, Ctrl-c                      quit\n",
    "  Up, k                          scroll up\n",
);

// A register of two keys, to which the default bindings were added.
fn mixed(alloc: Global) -> Option<Register> {
    let mut register = empty(alloc);
    register.insert_wild_event_matcher(to_row(3));
    let is_added = register
        .add_described_key_events(&["x"], "mine", to_row(1))
        .is_ok()
        && register
            .add_described_key_events(&["j"], "own", to_row(2))
            .is_ok()
        && generate_default_bindings(&mut register).is_ok();
    is_added.then_some(register)
}

// Whether a key keeps its place as the default bindings are added, what has none stays bound, and digits are typed.
fn mixes(alloc: Global) -> bool {
    let Some(register) = mixed(alloc) else {
        return false;
    };
    register.len() == 40
        && lists_both(alloc, &register, MIXED, OTHERS)
        && goes(alloc, &register, press("x"), Some(1))
        && goes(alloc, &register, press("j"), Some(1))
        && answers(
            alloc,
            &register,
            press("5"),
            &START,
            Some(InputEvent::Number('5')),
        )
        && answers(
            alloc,
            &register,
            Event::FocusLost,
            &START,
            Some(InputEvent::Ignore),
        )
}

#[test]
fn default_bindings_are_added_to_a_register_in_use(rt: HostRuntime) {
    assert_holds(&rt, mixes(rt.alloc()));
}
