//! What a screen, a push and a map of lines tell.
use crate::facts::assert_holds;
use minus_text::LinesRowMap;
use std::alloc::Global;

// Whether a map of three lines has their rows, and the one emptied into it has none.
fn maps_three(alloc: Global) -> bool {
    let mut map = LinesRowMap::new(alloc);
    let mut other = LinesRowMap::new(alloc);
    let is_filled = map.insert(0, true).is_ok()
        && map.insert(3, true).is_ok()
        && map.insert(4, false).is_ok()
        && other.insert(6, true).is_ok()
        && map.append(&mut other, true).is_ok();
    is_filled
        && map.len() == 3
        && map.get(1) == Some(4)
        && map.row_to_line(5) == Some(1)
        && other.len() == 0
}

#[test]
fn a_map_of_lines(rt: HostRuntime) {
    assert_holds(&rt, maps_three(rt.alloc()));
}
