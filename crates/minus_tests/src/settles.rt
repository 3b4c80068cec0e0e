//! How often each call settles its sink: once for each drawing, and never where nothing is drawn. Where memory runs
//! out, each answer is `false` or none.
ghost use Rattle.std.specs.Prelude.{IfSome};
ghost use Rattle.minus_state.specs.States.{IsFormed};

use crate::facts::{assert_at, assert_holds};
use crate::sessions::Asked::{Mark, Prompt, Push};
use crate::sessions::{Asked, Session, TEN_LINES, run, session_on};
use minus::{
    IoCommand, LineNumbers, PagerState, PartsOf, WithTty, draw_append_text, draw_for_change,
    draw_full, handle_io_command, write_from_pagerstate, write_lines,
    write_lines_in_horizontal_scroll, write_prompt, write_text_checked,
};
use minus_script::{DefaultKeys, ScriptKinds};
use std::alloc::Global;
use std::cell::Cell;
use std::io::{self, Write};
use std::rc::Rc;

// Keeps nothing, and counts how often it is settled.
#[derive(Drop)]
struct Counted {
    settled: Rc<Cell<u32>>,
}

impl Write for Counted {
    fn write(&mut self, bytes: &[u8]) -> io::Result<usize> {
        Ok(bytes.len())
    }

    fn flush(&mut self) -> io::Result<()> {
        self.settled.set(self.settled.get().saturating_add(1));
        Ok(())
    }
}

type Sink = WithTty<Counted>;

// A cell in which sinks count.
fn cell(alloc: Global) -> Option<Rc<Cell<u32>>> {
    Rc::new(alloc, Cell::new(0)).ok()
}

// A sink that counts in a cell, and is a terminal or none.
fn sink_of(settled: &Rc<Cell<u32>>, is_terminal: bool) -> Option<Sink> {
    match settled.clone() {
        Ok(settled) => Some(WithTty::new(Counted { settled }, is_terminal)),
        Err(_) => None,
    }
}

// A session of 20 columns and four rows, whose sink counts in a cell from here on.
fn session_of(alloc: Global, settled: &Rc<Cell<u32>>) -> Option<Session<Sink>> {
    let session = session_on(alloc, sink_of(settled, true)?, 20, 4)?;
    settled.set(0);
    Some(session)
}

const TEN: Asked<'static> = Push(TEN_LINES);

// How often a run of all of this settles the sink.
fn settles_in_a_run(alloc: Global, asked: &[Asked<'_>]) -> Option<u32> {
    let settled = cell(alloc)?;
    let mut session = session_of(alloc, &settled)?;
    match run(alloc, &mut session, asked) {
        Some(_) => Some(settled.get()),
        None => None,
    }
}

const RUNS: [(&[Asked<'static>], u32); 4] = [
    (&[], 0),
    (&[Push("a"), Push("b"), Push("c")], 3),
    (&[TEN, Push("x"), Mark(2), Mark(2), Prompt("p")], 3),
    (&[Push("a"), Asked::Exit, Push("b")], 4),
];

#[test]
fn a_run_settles_as_its_steps_do(rt: HostRuntime) {
    for (i, (asked, wanted)) in RUNS.iter().enumerate() {
        assert!(rt;
            settles_in_a_run(rt.alloc(), asked) == Some(*wanted),
            "at run {i}"
        );
    }
}

// How often another sink and the one that it takes the place of are settled, whether the page is drawn on it or not.
fn settles_exchanged(alloc: Global, draws: bool) -> Option<(u32, u32)> {
    let (settled, other) = (cell(alloc)?, cell(alloc)?);
    let mut session = session_of(alloc, &settled)?;
    let given = sink_of(&other, true)?;
    let old = if draws {
        session.set_output_sink(given, 10, 2).ok()?
    } else {
        session.replace_sink(given)
    };
    drop(old);
    Some((other.get(), settled.get()))
}

#[test]
fn another_sink_is_settled_for_its_page(rt: HostRuntime) {
    assert_holds(&rt, settles_exchanged(rt.alloc(), true) == Some((1, 0)));
    assert_holds(&rt, settles_exchanged(rt.alloc(), false) == Some((0, 0)));
}

// A call that draws without a session.
#[derive(Clone, Copy)]
enum Draws {
    Full,
    Change,
    Append,
    Page,
    Prompt,
    Lines,
    Scrolled,
    Checked,
    ByHand(IoCommand),
}

// A state of ten lines on 20 columns and four rows.
fn state_of(alloc: Global) -> Option<PagerState>
    ensures { IfSome result IsFormed }
{
    let Ok(mut state) = PagerState::new(alloc, 20, 4) else {
        return None;
    };
    match state.append_str(alloc, TEN_LINES) {
        Ok(_) => Some(state),
        Err(_) => None,
    }
}

// Draws a state so.
fn draw_state(alloc: Global, out: &mut Sink, state: &mut PagerState, by: Draws) -> bool
    requires { IsFormed state.old }
{
    let mut mark = 9;
    match by {
        Draws::Full => draw_full(alloc, out, state).is_ok(),
        Draws::Change => draw_for_change(alloc, out, state, &mut mark).is_ok(),
        Draws::Append => draw_append_text(alloc, out, state, 0, 10).is_ok(),
        _ => write_from_pagerstate(alloc, out, state).is_ok(),
    }
}

// Draws parts manually.
fn draw_parts(alloc: Global, out: &mut Sink, state: PagerState, command: IoCommand) -> bool
    requires { IsFormed state }
{
    let Ok(keys) = DefaultKeys::new(alloc) else {
        return false;
    };
    let mut parts: PartsOf<ScriptKinds> = PartsOf::keeping(alloc, state, keys, None);
    handle_io_command(alloc, command, out, &mut parts).is_ok()
}

// Draws rows and prompts that are no state's.
fn draw_rows(alloc: Global, out: &mut Sink, by: Draws) -> bool {
    let rows = &["a", "b"];
    let off = LineNumbers::Disabled;
    match by {
        Draws::Prompt => write_prompt(alloc, out, "p", 3).is_ok(),
        Draws::Lines => write_lines(alloc, out, rows, 10, true, 0, false, 2).is_ok(),
        Draws::Scrolled => {
            write_lines_in_horizontal_scroll(alloc, out, rows, 10, 0, false, 2).is_ok()
        }
        _ => write_text_checked(alloc, out, rows, 0, 3, 10, true, 0, off, 2).is_ok(),
    }
}

// How often a call that draws settles its sink.
fn settles_drawn(alloc: Global, by: Draws) -> Option<u32> {
    let settled = cell(alloc)?;
    let mut out = sink_of(&settled, true)?;
    let mut state = state_of(alloc)?;
    let is_drawn = match by {
        Draws::Full | Draws::Change | Draws::Append | Draws::Page => {
            draw_state(alloc, &mut out, &mut state, by)
        }
        Draws::ByHand(command) => draw_parts(alloc, &mut out, state, command),
        _ => draw_rows(alloc, &mut out, by),
    };
    is_drawn.then_some(settled.get())
}

const DRAWN: [(&str, Draws); 11] = [
    ("draw_full", Draws::Full),
    ("draw_for_change", Draws::Change),
    ("draw_append_text", Draws::Append),
    ("write_from_pagerstate", Draws::Page),
    ("write_prompt", Draws::Prompt),
    ("write_lines", Draws::Lines),
    ("write_lines_in_horizontal_scroll", Draws::Scrolled),
    ("write_text_checked", Draws::Checked),
    ("RedrawDisplay", Draws::ByHand(IoCommand::RedrawDisplay)),
    ("RedrawPrompt", Draws::ByHand(IoCommand::RedrawPrompt)),
    ("SetUpperMark", Draws::ByHand(IoCommand::SetUpperMark(2))),
];

#[test]
fn each_call_that_draws_settles_once(rt: HostRuntime) {
    for (name, by) in &DRAWN {
        assert_at(&rt, name, settles_drawn(rt.alloc(), *by) == Some(1));
    }
}
