//! Texts as they are prepared.
use crate::facts::assert_holds;
use minus_view::Preparation;

#[test]
fn a_pause_hands_out_the_last_character(rt: HostRuntime) {
    let mut preparation = Preparation::new(rt.alloc());
    let mut text = String::new(rt.alloc());
    let begun = preparation.add(&mut text, b"> ").is_ok() && text.as_str() == ">";
    let paused = preparation.pause(&mut text).is_ok() && text.as_str() == "> ";
    let ended = preparation.add(&mut text, b"x\n").is_ok() && text.as_str() == "> x\n";
    assert_holds(&rt, begun && paused && ended);
}
