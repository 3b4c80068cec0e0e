//! Calls of an application that the other tests do not make: texts that are given whole, keys of the pager that are
//! bound again, and copying.
use crate::lines::{Act, Lines, keys};
use crate::session::{READ, run, run_on, terminal};
use minus::{DefaultAction, MinusError};
use minus_app::{AppKeys, Fault, Options, Program, Text, ViewAction};
use std::alloc::Global;

// Twelve lines, under a title.
fn twelve(alloc: Global) -> Result<Text, Fault> {
    let lines = "l1\nl2\nl3\nl4\nl5\nl6\nl7\nl8\nl9\nl10\nl11\nl12\n";
    Text::fixed(alloc, String::from_str(alloc, lines)?, "twelve")
}

// The line at the top of the first page of a text, counted from 0, and the prompt row.
fn first_page(rt: &HostRuntime, text: Text) -> Result<(usize, String), Fault> {
    let (keys, terminal) = (AppKeys::less(rt.alloc())?, terminal(rt, &[], 0, None)?);
    let Some(program) = Program::start(rt, text, keys, &Options::new(), terminal)? else {
        return Err(Fault::NoEnd);
    };
    let view = program.view();
    let prompt = String::from_str(rt.alloc(), view.state().prompt())?;
    Ok((view.top_line(), prompt))
}

#[test]
fn a_fixed_text_begins_at_its_first_line(rt: HostRuntime) {
    let text = twelve(rt.alloc()).expect(&rt, "text");
    let (line, prompt) = first_page(&rt, text).expect(&rt, "page");
    assert!(rt; line == 0 && prompt.as_str().starts_with("twelve  1-4/12"));
}

#[test]
fn a_followed_text_begins_at_its_end(rt: HostRuntime) {
    let text = twelve(rt.alloc()).expect(&rt, "text");
    let (line, prompt) = first_page(&rt, text.followed()).expect(&rt, "page");
    assert!(rt; line == 8 && prompt.as_str().starts_with("twelve  9-12/12"));
}

// Keys of which `q` scrolls down, and `j` goes to the last page.
fn rebound(alloc: Global) -> Result<AppKeys<Act>, MinusError> {
    let mut keys = AppKeys::less(alloc)?;
    keys.rebind_default(&["q"], DefaultAction::ScrollDown)?;
    keys.rebind_view(&["j"], ViewAction::LastLine)?;
    Ok(keys)
}

// What is typed to thirty lines then, and the line at the top of the page, counted from 0.
const REBOUND: &[(&[&[u8]], usize)] = &[(&[b"q"], 1), (&[b"j"], 26)];

#[test]
fn keys_of_the_pager_do_other_things_of_it(rt: HostRuntime) {
    for (pieces, line) in REBOUND {
        let keys = rebound(rt.alloc()).expect(&rt, "keys");
        let found = run(&rt, Lines::new(30), keys, *pieces, READ, None).expect(&rt, "typed");
        assert_eq!(rt; (found.on, found.line), (true, *line));
    }
}

// The prompt row behind a copy, on a terminal that takes copied texts or takes none.
fn copied(rt: &HostRuntime, takes: bool) -> Result<String, Fault> {
    let mut terminal = terminal(rt, &[b"C"], READ, None)?;
    terminal.launch.copies = takes;
    let found = run_on(rt, Lines::new(30), keys(rt.alloc())?, 1, terminal)?;
    Ok(String::from_str(rt.alloc(), found.prompt.as_str())?)
}

#[test]
fn a_terminal_that_takes_no_copy_is_reported(rt: HostRuntime) {
    let taken = copied(&rt, true).expect(&rt, "copied");
    assert!(rt; taken.as_str() == "lines  1-4/30  12%");
    let not_taken = copied(&rt, false).expect(&rt, "copied");
    assert!(rt; not_taken.as_str().starts_with("(nothing copied: tmux) "));
}
