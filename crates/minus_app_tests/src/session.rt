//! What is typed to a program, and what is found then.
use crate::lines::{Act, Lines, keys};
use crate::typed::{READS, Typed};
use minus::{DefaultAction, Event, MinusError, WithTty, parse_key_event};
use minus_app::{AppKeys, Fault, Keyboard, Launch, Options, Program, Size, Terminal};
use std::fs::File;
use std::io::Write;

type Fake = Program<Lines, WithTty<Vec<u8>>, Typed>;

/// A terminal of 40 columns and 5 rows, on which these pieces are typed.
pub fn terminal(
    rt: &HostRuntime,
    pieces: &'static [&'static [u8]],
    waits: u32,
    sizes: Option<String>,
) -> Result<Terminal<WithTty<Vec<u8>>, Typed>, Fault> {
    let (rows, cols, resumes) = (5, 40, 0);
    Ok(Terminal {
        pages: WithTty::new(Vec::new(rt.alloc()), true),
        beside: WithTty::new(Vec::new(rt.alloc()), true),
        keyboard: Keyboard::new(rt, Typed::new(pieces, waits))?,
        launch: Launch {
            size: Size {
                rows,
                cols,
                resumes,
            },
            sizes,
            copies: true,
        },
    })
}

/// What is found after some turns.
#[derive(Drop)]
pub struct Found {
    /// Whether the program goes on.
    pub on: bool,
    /// The line at the top of the page, counted from 0.
    pub line: usize,
    size: (usize, usize),
    counted: usize,
    is_help: bool,
    is_searching: bool,
    pub prompt: String,
    message: Option<String>,
    text: String,
}

fn found_after(rt: &HostRuntime, program: &Fake, on: bool) -> Result<Found, Fault> {
    let (view, alloc) = (program.view(), rt.alloc());
    let state = view.state();
    Ok(Found {
        on,
        line: view.top_line(),
        size: view.size(),
        counted: program.app().counted,
        is_help: state.help_open(),
        is_searching: state.open_search().is_some(),
        prompt: String::from_str(alloc, state.prompt())?,
        message: match &state.message {
            Some(text) => Some(String::from_str(alloc, text.as_str())?),
            None => None,
        },
        text: String::from_str(alloc, view.text())?,
    })
}

/// How many reads pass before something is typed, as many as the feeds of all lines take.
pub const READ: u32 = 40;

// Lets a program hear what is typed to it.
fn hear(rt: &HostRuntime, program: &mut Fake, pieces: usize) -> Result<Found, Fault> {
    let mut on = true;
    let typed = u32::try_from(pieces).unwrap_or(0).saturating_add(1);
    for _ in 0..typed
        .saturating_mul(READS.saturating_add(1))
        .saturating_add(READ)
    {
        if !program.turn(rt)? {
            on = false;
            break;
        }
    }
    found_after(rt, program, on)
}

/// Starts a program on a terminal, and lets it hear the pieces that are typed there.
pub fn run_on(
    rt: &HostRuntime,
    app: Lines,
    keys: AppKeys<Act>,
    pieces: usize,
    terminal: Terminal<WithTty<Vec<u8>>, Typed>,
) -> Result<Found, Fault> {
    let Some(mut program) = Program::start(rt, app, keys, &Options::new(), terminal)? else {
        return Err(Fault::NoEnd);
    };
    hear(rt, &mut program, pieces)
}

/// Starts a program, and lets it hear what is typed after this many reads.
pub fn run(
    rt: &HostRuntime,
    app: Lines,
    keys: AppKeys<Act>,
    pieces: &'static [&'static [u8]],
    waits: u32,
    sizes: Option<String>,
) -> Result<Found, Fault> {
    let terminal = terminal(rt, pieces, waits, sizes)?;
    run_on(rt, app, keys, pieces.len(), terminal)
}

// Thirty lines, and what is typed to them.
fn typing(rt: &HostRuntime, pieces: &'static [&'static [u8]]) -> Result<Found, Fault> {
    run(rt, Lines::new(30), keys(rt.alloc())?, pieces, READ, None)
}

#[test]
fn an_own_key_is_the_applications(rt: HostRuntime) {
    let found = typing(&rt, &[b"e"]).expect(&rt, "typed");
    assert_eq!(rt; (found.on, found.line), (true, 9));
    assert!(rt; found.prompt.as_str() == "lines  10-13/30  41%");
}

#[test]
fn a_typed_number_is_told_and_goes(rt: HostRuntime) {
    let found = typing(&rt, &[b"13c", b"j"]).expect(&rt, "typed");
    assert_eq!(rt; (found.on, found.counted, found.line), (true, 13, 1));
    // (and the application says in the prompt row what it likes)
    assert!(rt; found.prompt.as_str() == "counted 13 at 1");
}

#[test]
fn a_message_goes_with_the_next_key(rt: HostRuntime) {
    let said = typing(&rt, &[b"t"]).expect(&rt, "typed");
    assert!(rt; said.message.as_ref().map(|text| text.as_str()) == Some("said"));
    let gone = typing(&rt, &[b"t", b"j"]).expect(&rt, "typed");
    assert!(rt; gone.message.is_none() && gone.line == 1);
    let gone = typing(&rt, &[b"t", b"c"]).expect(&rt, "typed");
    assert!(rt; gone.message.is_none() && gone.counted == 1);
}

#[test]
fn another_text_is_shown(rt: HostRuntime) {
    let found = typing(&rt, &[b"x"]).expect(&rt, "typed");
    assert!(rt; found.on && found.text.as_str() == "another text\nof two lines\n");
}

#[test]
fn an_action_ends_the_program(rt: HostRuntime) {
    assert!(rt; !typing(&rt, &[b"Z"]).expect(&rt, "typed").on);
}

#[test]
fn q_and_ctrl_c_end_the_program(rt: HostRuntime) {
    assert!(rt; !typing(&rt, &[b"q"]).expect(&rt, "typed").on);
    assert!(rt; !typing(&rt, &[b"\x03"]).expect(&rt, "typed").on);
}

#[test]
fn the_search_prompt_keeps_its_keys(rt: HostRuntime) {
    let open = typing(&rt, &[b"/e"]).expect(&rt, "typed");
    assert_eq!(rt; (open.on, open.is_searching, open.line), (true, true, 0));
    let closed = typing(&rt, &[b"/Ze", b"\x1b", b""]).expect(&rt, "typed");
    assert_eq!(rt;
        (closed.on, closed.is_searching, closed.line),
        (true, false, 0)
    );
    assert!(rt;
        !typing(&rt, &[b"/Ze", b"\x1b", b"Z"])
            .expect(&rt, "typed")
            .on
    );
    // (a query that is taken leads to its match)
    let found = typing(&rt, &[b"/line 7\r"]).expect(&rt, "typed");
    assert_eq!(rt; (found.is_searching, found.line), (false, 6));
}

#[test]
fn help_lists_both_and_keeps_its_keys(rt: HostRuntime) {
    let found = typing(&rt, &[b"M", b"eZ"]).expect(&rt, "typed");
    assert_eq!(rt; (found.on, found.is_help), (true, true));
    assert!(rt; found.text.contains("go to the tenth line"));
    assert!(rt; found.text.contains("scroll down"));
    let left = typing(&rt, &[b"M", b"q", b"c"]).expect(&rt, "typed");
    assert_eq!(rt; (left.on, left.is_help, left.counted), (true, false, 1));
}

#[test]
fn a_followed_text_shows_its_end(rt: HostRuntime) {
    let found = typing(&rt, &[b"F", b"a"]).expect(&rt, "typed");
    assert_eq!(rt; (found.on, found.line), (true, 27));
    // (an action that moves up ends that, as a key of the pager does)
    let found = typing(&rt, &[b"F", b"e", b"a"]).expect(&rt, "typed");
    assert_eq!(rt; (found.on, found.line), (true, 9));
    assert!(rt; found.text.ends_with("line 31\n"));
}

// Writes what a launcher reports of the size, and answers where.
fn sizes(rt: &HostRuntime, name: &str, told: &str) -> Result<Option<String>, Fault> {
    let mut file = File::create(rt, name)?;
    file.write_all(told.as_bytes())?;
    Ok(Some(String::from_str(rt.alloc(), name)?))
}

// Thirty lines on a terminal of which the launcher tells something, and what is typed to them.
fn told(
    rt: &HostRuntime,
    name: &str,
    told: &str,
    pieces: &'static [&'static [u8]],
) -> Result<Found, Fault> {
    let sizes = sizes(rt, name, told)?;
    run(rt, Lines::new(30), keys(rt.alloc())?, pieces, 0, sizes)
}

#[test]
fn a_new_size_is_taken(rt: HostRuntime) {
    let found = told(&rt, "a_new_size.txt", "8 30 0\n", &[]).expect(&rt, "told");
    assert_eq!(rt; (found.on, found.size), (true, (30, 8)));
    // (one that is none is skipped)
    let found = told(&rt, "a_new_size.txt", "0 0 0\n", &[]).expect(&rt, "told");
    assert_eq!(rt; (found.on, found.size), (true, (40, 5)));
}

#[test]
fn ctrl_z_suspends_until_the_launcher_resumes(rt: HostRuntime) {
    let pieces: &[&[u8]] = &[b"\x1a", b"j"];
    let found = told(&rt, "a_resume.txt", "8 30 1\n", pieces).expect(&rt, "told");
    assert_eq!(rt; (found.on, found.line, found.size), (true, 1, (30, 8)));
    // (with no launcher it does nothing)
    let found = typing(&rt, &[b"\x1a", b"j"]).expect(&rt, "typed");
    assert_eq!(rt; (found.on, found.line), (true, 1));
}

#[test]
fn a_feed_that_fails_ends_the_program(rt: HostRuntime) {
    let lines = Lines {
        fails: true,
        ..Lines::new(3)
    };
    let keys = keys(rt.alloc()).expect(&rt, "keys");
    assert!(rt; matches!(run(&rt, lines, keys, &[], READ, None), Err(Fault::Own(_))));
}

#[test]
fn an_action_that_fails_ends_the_program(rt: HostRuntime) {
    assert!(rt; matches!(typing(&rt, &[b"X"]), Err(Fault::Own(_))));
}

// The default keys, with this one for an action of the application's too.
fn bound(rt: &HostRuntime, key: &str) -> Result<AppKeys<Act>, MinusError> {
    let mut keys = AppKeys::less(rt.alloc())?;
    keys.bind(&[key], "count", Act::Count)?;
    Ok(keys)
}

#[test]
fn a_key_that_is_bound_is_not_hidden(rt: HostRuntime) {
    assert!(rt; bound(&rt, "e").is_ok());
    for key in ["j", "q", "c-c", "b", "f"] {
        assert!(rt; matches!(bound(&rt, key), Err(MinusError::Bound(0))));
    }
    assert!(rt; matches!(bound(&rt, "no key"), Err(MinusError::BadDescription(0, _))));
}

#[test]
fn a_bound_key_leads_to_its_action(rt: HostRuntime) {
    let keys = bound(&rt, "e").expect(&rt, "keys");
    let own = Event::Key(parse_key_event("e").expect(&rt, "own"));
    let default = Event::Key(parse_key_event("j").expect(&rt, "default"));
    assert!(rt; matches!(keys.act(&own), Some(Act::Count)));
    assert!(rt; keys.act(&default).is_none());
}

// The default keys, some of them bound to another action.
fn rebound(rt: &HostRuntime, ends: &[&str]) -> Result<AppKeys<Act>, MinusError> {
    let mut keys = AppKeys::less(rt.alloc())?;
    keys.rebind(ends, "count", Act::Count)?;
    Ok(keys)
}

#[test]
fn a_key_of_the_pager_is_bound_again(rt: HostRuntime) {
    let keys = rebound(&rt, &["q"]).expect(&rt, "keys");
    let found = run(&rt, Lines::new(30), keys, &[b"q"], READ, None).expect(&rt, "typed");
    assert_eq!(rt; (found.on, found.counted), (true, 1));
    let keys = rebound(&rt, &["q"]).expect(&rt, "keys");
    let found = run(&rt, Lines::new(30), keys, &[b"q", b"\x03"], READ, None).expect(&rt, "typed");
    assert_eq!(rt; (found.on, found.counted), (false, 1));
}

// Keys of which none but this one ends the program.
fn ended_by(rt: &HostRuntime, key: &str) -> Result<AppKeys<Act>, MinusError> {
    let mut keys = rebound(rt, &["q", "c-c"])?;
    keys.bind_default(&[key], DefaultAction::Quit)?;
    Ok(keys)
}

#[test]
fn keys_of_which_none_ends_the_program_are_refused(rt: HostRuntime) {
    let keys = rebound(&rt, &["q", "c-c"]).expect(&rt, "keys");
    assert!(rt; !keys.some_end());
    assert!(rt;
        matches!(
            run(&rt, Lines::new(30), keys, &[b"q"], READ, None),
            Err(Fault::NoEnd)
        )
    );
    let keys = ended_by(&rt, "e").expect(&rt, "keys");
    let found = run(&rt, Lines::new(30), keys, &[b"q", b"e"], READ, None).expect(&rt, "typed");
    assert_eq!(rt; (found.on, found.counted), (false, 1));
}

// Thirty lines, and what is typed to them with all keys of `less`.
fn as_less(rt: &HostRuntime, pieces: &'static [&'static [u8]]) -> Result<Found, Fault> {
    let keys = AppKeys::all_of_less(rt.alloc())?;
    run(rt, Lines::new(30), keys, pieces, READ, None)
}

// What is typed to thirty lines on pages of four, and the line at the top of the page then, counted from 0.
const MOVES: &[(&[&[u8]], usize)] = &[
    (&[b" "], 4),
    (&[b"f"], 4),
    (&[b"\x06"], 4),
    (&[b"\x16"], 4),
    (&[b"z"], 4),
    (&[b"10f"], 10),
    (&[b"d"], 2),
    (&[b"\x04"], 2),
    (&[b"3d"], 3),
    (&[b"Gb"], 22),
    (&[b"G\x02"], 22),
    (&[b"Gw"], 22),
    (&[b"G5b"], 21),
    (&[b"Gu"], 24),
    (&[b"G\x15"], 24),
    (&[b"j"], 1),
    (&[b"e"], 1),
    (&[b"\x05"], 1),
    (&[b"\x0e"], 1),
    (&[b"\n"], 1),
    (&[b"\r"], 1),
    (&[b"5j"], 5),
    (&[b"Gk"], 25),
    (&[b"Gy"], 25),
    (&[b"G\x19"], 25),
    (&[b"G\x10"], 25),
    (&[b"G\x0b"], 25),
    (&[b"10g"], 9),
    (&[b"10gg"], 0),
    (&[b"10G"], 9),
    (&[b"99G"], 26),
    (&[b"G<"], 0),
    (&[b">"], 26),
    (&[b"50%"], 15),
    (&[b"50p"], 15),
    (&[b"Gp"], 0),
    (&[b"5jmaG'a"], 5),
    (&[b"5jG''"], 5),
    (&[b"5j'$"], 26),
    (&[b"G'^"], 0),
    (&[b"/line 2\r", b"n"], 19),
    (&[b"/line 2\r", b"nN"], 1),
    (&[b"/line 2\r", b"25gN"], 23),
    (&[b"/line 2\r", b"25gn"], 25),
    (&[b"/line 2\r", b"25gnnnnn"], 1),
];

#[test]
fn the_keys_of_less_move_the_page(rt: HostRuntime) {
    for (pieces, line) in MOVES {
        let found = as_less(&rt, *pieces).expect(&rt, "typed");
        assert_eq!(rt; (found.on, found.line), (true, *line));
    }
}

#[test]
fn the_keys_of_less_end_the_program(rt: HostRuntime) {
    let ends: &[&[&[u8]]] = &[&[b"q"], &[b"Q"], &[b"ZZ"], &[b":q"], &[b"\x03"]];
    for pieces in ends {
        assert!(rt; !as_less(&rt, *pieces).expect(&rt, "typed").on);
    }
    // (Ctrl-C ends following first, and a key behind another that means nothing ends nothing)
    let stays: &[&[&[u8]]] = &[&[b"F", b"\x03"], &[b"Zj"], &[b":j"], &[b"-q"], &[b"mq"]];
    for (at, pieces) in stays.iter().enumerate() {
        assert_eq!(rt;
            (at, as_less(&rt, *pieces).expect(&rt, "typed").on),
            (at, true)
        );
    }
}
