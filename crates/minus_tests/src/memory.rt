//! Each request for memory refused in turn, in sessions on 20 columns and four rows whose hook of the end counts its
//! calls. With ample memory each test here shows the pages that its steps lead to. `tools/refuse_memory.py` runs it
//! again and again, with another request refused each time; then it shows that a refused step changes nothing, and
//! does as with ample memory when it is asked for again, or that the session has failed where something was written or
//! called before.
use crate::plain_sessions::{Asked, Keys, PROMPT_ROW, TEN_LINES, has_page, number_of};
use crate::shared::{Counting, Shared};
use minus::{Core, Hook, Kinds, MinusError, NeverShows, PagerOf, RunMode, WithTty, init_core_with};
use std::alloc::Global;
use std::cell::{Cell, RefCell};
use std::process::Abort;
use std::rc::Rc;

// Rows of a table of steps, each with the page that it leads to, and named by what is asked for.
macro_rules! tried {
    ($($asked:expr => $($row:expr),*;)*) => {
        &[$(&Tried {
            name: stringify!($asked),
            asked: $asked,
            page: [$($row),*],
        }),*]
    };
}

mod helped;
mod pagers;
mod plain;
mod searched;
mod seen;
mod starts;
mod waiting;
mod written;

use seen::seen_of;

// Ten lines, and the page of these.
const TEN: [Asked<'static>; 1] = [Asked::Push(TEN_LINES)];

const FIRST: [&str; 4] = ["l0", "l1", "l2", PROMPT_ROW];

// The line of ten that ends in a 7, with that marked.
const MARKED_7: &str = "l\x1b[7m7\x1b[27m";

// Prompt rows of a message, of help, and at a term's only match.
const M_ROW: &str = "\x1b[30;1;41mm                   \x1b[0m";

const HELP_ROW: &str = "\x1b[2;40;37mHELP -- Press q or S\x1b[0m";

const ONE_OF_ONE: &str = "\x1b[2;40;37mminus          \x1b[30;44m 1/1 \x1b[0m";

/// What the sink of a session holds, and how often its callbacks were called.
#[derive(Drop)]
pub struct Log {
    held: RefCell<Vec<u8>>,
    calls: Rc<Cell<u32>>,
}

impl Log {
    /// An empty one with its room, so that the sink asks for no memory; none where there is none for this.
    fn new(alloc: Global) -> Option<Log> {
        let (Ok(held), Ok(calls)) = (
            Vec::with_capacity(alloc, 65_536),
            Rc::new(alloc, Cell::new(0)),
        ) else {
            return None;
        };
        Some(Log {
            held: RefCell::new(held),
            calls,
        })
    }

    // Whether nothing was written or called.
    fn is_empty(&self) -> bool {
        self.holds(&[]) && self.calls.get() == 0
    }

    // Whether the sink holds these texts, one behind the other.
    fn holds(&self, texts: &[&str]) -> bool {
        let Ok(held) = self.held.try_borrow() else {
            return false;
        };
        let mut rest: &[u8] = &held;
        for text in texts {
            match rest.strip_prefix(text.as_bytes()) {
                Some(behind) => rest = behind,
                None => return false,
            }
        }
        rest.is_empty()
    }

    // Whether another one holds these bytes, and no others if these are all.
    fn is_of(&self, other: &Log, are_all: bool) -> bool {
        match (self.held.try_borrow(), other.held.try_borrow()) {
            (Ok(held), Ok(whole)) => {
                whole.starts_with(&held) && (!are_all || whole.len() == held.len())
            }
            _ => false,
        }
    }
}

type Counted = Kinds<Counting, Counting, NeverShows, Keys>;

type Pager = PagerOf<Counted>;

type Lent<'a> = Core<WithTty<Shared<'a>>, Counted>;

/// A step, and the page that it leads to.
pub struct Tried<'a> {
    name: &'a str,
    asked: Asked<'a>,
    page: [&'a str; 4],
}

/// What a session does first, the page that this leads to, the steps that are tried then, and whether one of them may
/// fail the session.
#[derive(Drop)]
pub struct Script<'a> {
    begun: &'a [Asked<'a>],
    page: [&'a str; 4],
    tried: &'a [&'a Tried<'a>],
    may_fail: bool,
}

impl<'a> Script<'a> {
    // One of which no step fails the session.
    const fn new(
        begun: &'a [Asked<'a>],
        page: [&'a str; 4],
        tried: &'a [&'a Tried<'a>],
    ) -> Script<'a> {
        Script {
            begun,
            page,
            tried,
            may_fail: false,
        }
    }
}

// How steps end: each at once, one when it was asked for again, or not as they should; or they have failed the session.
#[derive(Clone, Copy, PartialEq, Eq)]
enum End {
    AtOnce,
    Again,
    Failed,
    Wrong,
}

// Has a callback that counts in a log called at a hook.
fn add_hook(pager: &mut Pager, hook: Hook, log: &Log) -> Result<(), MinusError> {
    pager.add_hook(hook, 0, Counting::of(&log.calls)?)
}

// Has one called at an exit.
fn add_exit(pager: &mut Pager, log: &Log) -> Result<(), MinusError> {
    pager.add_exit_callback(Counting::of(&log.calls)?)
}

// A session that writes into a log; none where its start is refused since memory ran out.
fn session_in<'a>(alloc: Global, log: &'a Log) -> Option<Lent<'a>> {
    let mut pager = PagerOf::new(alloc);
    if add_hook(&mut pager, Hook::EofReached, log).is_err() {
        return None;
    }
    let sink = Shared::terminal(&log.held);
    match init_core_with(pager, RunMode::Static, sink, 20, 4, Keys) {
        Ok(session) => Some(session),
        Err(_) => None,
    }
}

// How a step ends that is asked for again where it is refused since memory ran out.
fn end_of(
    alloc: Global,
    log: &Log,
    session: &mut Lent<'_>,
    tried: &Tried<'_>,
    page: &[&str],
) -> End {
    let before = seen_of(session, log);
    match number_of(alloc, session, tried.asked) {
        0 => return End::AtOnce,
        1 => {}
        _ => return End::Wrong,
    }
    let refused = seen_of(session, log);
    let stays = refused == before && has_page(session, page);
    match number_of(alloc, session, tried.asked) {
        0 if stays => End::Again,
        10 if refused.has_more_than(&before) => End::Failed,
        _ => End::Wrong,
    }
}

// How the steps of a script end in a session that has begun, and the name of the last one of them.
fn end_of_all<'a>(
    alloc: Global,
    log: &Log,
    session: &mut Lent<'_>,
    script: &Script<'a>,
) -> (End, &'a str) {
    let mut end = End::AtOnce;
    let mut page = script.page;
    for tried in script.tried {
        match end_of(alloc, log, session, tried, &page) {
            End::AtOnce => {}
            End::Again => end = End::Again,
            End::Failed if script.may_fail => return (End::Failed, tried.name),
            _ => return (End::Wrong, tried.name),
        }
        if !has_page(session, &tried.page) {
            return (End::Wrong, tried.name);
        }
        page = tried.page;
    }
    (end, "the end")
}

// The number of the first refusal of a session that does all of this, 0 where it refuses none.
fn number_of_all(alloc: Global, session: &mut Lent<'_>, asked: &[Asked<'_>]) -> u8 {
    for it in asked {
        match number_of(alloc, session, *it) {
            0 => {}
            number => return number,
        }
    }
    0
}

// How a script ends in a session that writes into a log.
fn ended<'a>(alloc: Global, log: &Log, script: &Script<'a>) -> (End, &'a str) {
    let Some(mut session) = session_in(alloc, log) else {
        return (End::AtOnce, "");
    };
    match number_of_all(alloc, &mut session, script.begun) {
        0 if has_page(&session, &script.page) => end_of_all(alloc, log, &mut session, script),
        1 => (End::AtOnce, ""),
        _ => (End::Wrong, "the beginning"),
    }
}

// Whether a script that ended so left what it leaves with ample memory, which there is now; a beginning of it where the
// session has failed.
fn is_as_with_memory(alloc: Global, log: &Log, end: End, script: &Script<'_>) -> bool {
    if end == End::AtOnce {
        return true;
    }
    let Some(whole) = Log::new(alloc) else {
        return false;
    };
    let is_done = ended(alloc, &whole, script).0 == End::AtOnce;
    let is_called = end == End::Failed || log.calls.get() == whole.calls.get();
    end != End::Wrong && is_done && is_called && log.is_of(&whole, end == End::Again)
}

/// Fails where a step of a script leads to another page, or a refused one leaves what it should not.
fn assert_tried(rt: &impl Abort, alloc: Global, script: &Script<'_>) {
    let Some(log) = Log::new(alloc) else {
        return;
    };
    let (end, name) = ended(alloc, &log, script);
    assert!(rt; is_as_with_memory(alloc, &log, end, script), "at {name}");
}
