//! How often a session asks its classifier about an event, and for the text of help. Where memory runs out, each answer
//! is `false` or none.
use crate::facts::assert_holds;
use crate::sessions::Asked::{Does, Exit, Key, Mark, Pressed, Push, Restored, Told};
use crate::sessions::{Asked, TEN_LINES, input, terminal};
use minus::{
    CommandOf, CommandQueueOf, Core, Event, ExitStrategy, Hook, InputClassifier, InputEvent,
    InputOf, IoCommand, KeyCode, KeyEvent, Kinds, LineNumbers, NeverCalled, NeverShows, PagerOf,
    PagerState, PartsOf, RunMode, SearchMode, WithTty, handle_event, init_core_with,
};
use std::alloc::{AllocError, Global};
use std::cell::Cell;
use std::rc::Rc;

// How often a classifier was asked about an event, and for the text of help.
type Calls = Rc<Cell<(u32, u32)>>;

// A classifier of five keys, sizes and digits that counts how often it is asked.
#[derive(Drop)]
struct Counts {
    calls: Calls,
}

// What it answers to the key of a character.
fn key_asks(code: KeyCode) -> Option<InputEvent> {
    match code {
        KeyCode::Char('j') => Some(InputEvent::UpdateUpperMark(1)),
        KeyCode::Char('h') => Some(InputEvent::ShowHelp),
        KeyCode::Char('/') => Some(InputEvent::Search(SearchMode::Forward)),
        KeyCode::Char('q') => Some(InputEvent::Exit),
        KeyCode::Char('i') => Some(InputEvent::Ignore),
        KeyCode::Char('5') => Some(InputEvent::Number('5')),
        _ => None,
    }
}

impl InputClassifier for Counts {
    ghost says = { record {
      allows = λ classifier event state answer. Unit {0};
      helps = λ classifier text. Unit {0};
    } };

    fn classify_input(&self, event: Event, _state: &PagerState) -> Option<InputEvent> {
        let (asked, helped) = self.calls.get();
        self.calls.set((asked.saturating_add(1), helped));
        match event {
            Event::Key(KeyEvent { code, .. }) => key_asks(code),
            Event::Resize(cols, rows) => {
                Some(InputEvent::UpdateTermArea(usize::from(cols), usize::from(rows)))
            }
            _ => None,
        }
    }

    fn format_help(&self, alloc: Global) -> Result<Option<String>, AllocError> {
        let (asked, helped) = self.calls.get();
        self.calls.set((asked, helped.saturating_add(1)));
        Ok(Some(String::from_str(alloc, "help")?))
    }
}

type Own = Kinds<NeverCalled, NeverCalled, NeverShows, Counts>;

type Session = Core<WithTty<Vec<u8>>, Own>;

// A cell in which classifiers count.
fn cell(alloc: Global) -> Option<Calls> {
    Rc::new(alloc, Cell::new((0, 0))).ok()
}

// A classifier that counts in a cell.
fn counting(calls: &Calls) -> Option<Counts> {
    match calls.clone() {
        Ok(calls) => Some(Counts { calls }),
        Err(_) => None,
    }
}

// A session of ten lines on 20 columns and four rows, whose classifier counts in a cell.
fn session_of(alloc: Global, calls: &Calls) -> Option<Session> {
    let mut pager: PagerOf<Own> = PagerOf::new(alloc);
    let is_told = pager.set_text(TEN_LINES).is_ok() && pager.follow_output(false).is_ok();
    let classifier = counting(calls)?;
    match init_core_with(pager, RunMode::Static, terminal(alloc), 20, 4, classifier) {
        Ok(session) => is_told.then_some(session),
        Err(_) => None,
    }
}

// Whether a session is asked for this, refused or not.
fn takes(alloc: Global, session: &mut Session, asked: Asked<'_>) -> bool {
    match input(alloc, asked) {
        Ok(input) => {
            let _ = session.step(input);
            true
        }
        Err(_) => false,
    }
}

// How often the last of these steps asks, and how often for help.
fn asks(alloc: Global, asked: &[Asked<'_>]) -> Option<(u32, u32)> {
    let calls = cell(alloc)?;
    let mut session = session_of(alloc, &calls)?;
    for it in asked {
        calls.set((0, 0));
        if !takes(alloc, &mut session, *it) {
            return None;
        }
    }
    Some(calls.get())
}

const OPEN: Asked<'static> = Does(InputEvent::ShowHelp);

const SEARCH: Asked<'static> = Does(InputEvent::Search(SearchMode::Forward));

const ESC: Asked<'static> = Pressed(KeyCode::Esc);

const RESIZE: Asked<'static> = Told(Event::Resize(10, 3));

// A command of each kind, none of which asks; where help opens, for its text alone.
const COMMANDS: [(&[Asked<'static>], (u32, u32)); 45] = [
    (&[], (0, 0)),
    (&[Push("a")], (0, 0)),
    (&[Asked::Set("a")], (0, 0)),
    (&[Asked::Prompt("p")], (0, 0)),
    (&[Asked::Prompt("p\n")], (0, 0)),
    (&[Asked::Message("m")], (0, 0)),
    (&[Asked::Message("m"), Restored], (0, 0)),
    (&[Asked::Shown(false)], (0, 0)),
    (&[Asked::Numbers(LineNumbers::Enabled)], (0, 0)),
    (&[Asked::Wrapped(false)], (0, 0)),
    (&[Asked::Follow(true)], (0, 0)),
    (&[Asked::Strategy(ExitStrategy::PagerQuit)], (0, 0)),
    (&[Asked::Removed(Hook::PostPagerExit, 1)], (0, 0)),
    (&[Mark(2)], (0, 0)),
    (&[Asked::Size(10, 3)], (0, 0)),
    (&[Asked::Size(0, 3)], (0, 0)),
    (&[Asked::Left(1)], (0, 0)),
    (
        &[Does(InputEvent::UpdateLineNumber(LineNumbers::Enabled))],
        (0, 0),
    ),
    (&[Does(InputEvent::HorizontalScroll(true))], (0, 0)),
    (&[Asked::Start(1, 0)], (0, 0)),
    (&[Asked::Start(1, 0), Asked::Update(1, 1)], (0, 0)),
    (
        &[Asked::Start(1, 0), Does(InputEvent::ClearSelection)],
        (0, 0),
    ),
    (
        &[Asked::Start(1, 0), Does(InputEvent::CopySelection)],
        (0, 0),
    ),
    (&[SEARCH], (0, 0)),
    (&[SEARCH, OPEN], (0, 0)),
    (&[SEARCH, OPEN, ESC], (0, 1)),
    (&[Does(InputEvent::NextMatch)], (0, 0)),
    (&[Does(InputEvent::PrevMatch)], (0, 0)),
    (&[Does(InputEvent::MoveToNextMatch(1))], (0, 0)),
    (&[Does(InputEvent::MoveToPrevMatch(1))], (0, 0)),
    (&[Does(InputEvent::FollowOutput(true))], (0, 0)),
    (&[Asked::Typed('5')], (0, 0)),
    (&[Does(InputEvent::Ignore)], (0, 0)),
    (&[OPEN], (0, 1)),
    (&[OPEN, OPEN], (0, 0)),
    (&[OPEN, OPEN, OPEN], (0, 1)),
    (&[OPEN, Restored], (0, 0)),
    (&[OPEN, Exit], (0, 0)),
    (&[OPEN, Push("a")], (0, 0)),
    (&[OPEN, Asked::Size(10, 3)], (0, 0)),
    (&[Asked::Io(IoCommand::RedrawDisplay)], (0, 0)),
    (&[Asked::Io(IoCommand::RedrawPrompt)], (0, 0)),
    (&[Asked::Io(IoCommand::SetUpperMark(2))], (0, 0)),
    (&[Asked::Io(IoCommand::FetchSearchQuery)], (0, 0)),
    (&[Exit], (0, 0)),
];

#[test]
fn a_command_asks_for_the_text_of_help_alone(rt: HostRuntime) {
    for (i, (asked, wanted)) in COMMANDS.iter().enumerate() {
        assert!(rt; asks(rt.alloc(), asked) == Some(*wanted), "at case {i}");
    }
}

// Events, each of which asks once, but for those of an open search prompt.
const EVENTS: [(&[Asked<'static>], (u32, u32)); 20] = [
    (&[Key('j')], (1, 0)),
    (&[Key('i')], (1, 0)),
    (&[Key('5')], (1, 0)),
    (&[Key('x')], (1, 0)),
    (&[Key('/')], (1, 0)),
    (&[Key('q')], (1, 0)),
    (&[RESIZE], (1, 0)),
    (&[Told(Event::FocusGained)], (1, 0)),
    (&[Told(Event::FocusLost)], (1, 0)),
    (&[Key('h')], (1, 1)),
    (&[Key('h'), Key('j')], (1, 0)),
    (&[Key('h'), Key('h')], (1, 0)),
    (&[Key('h'), Key('q')], (1, 0)),
    // the prompt takes each event itself
    (&[SEARCH, Key('j')], (0, 0)),
    (&[SEARCH, Told(Event::FocusGained)], (0, 0)),
    (&[SEARCH, Key('l'), Pressed(KeyCode::Enter)], (0, 0)),
    (&[SEARCH, ESC], (0, 0)),
    // but a new size, which is asked about once it is performed
    (&[SEARCH, RESIZE], (0, 0)),
    (&[SEARCH, RESIZE, RESIZE, Push("a"), ESC], (2, 0)),
    // an ended session asks nothing
    (&[Exit, Key('j')], (0, 0)),
];

#[test]
fn an_event_asks_once(rt: HostRuntime) {
    for (i, (asked, wanted)) in EVENTS.iter().enumerate() {
        assert!(rt; asks(rt.alloc(), asked) == Some(*wanted), "at case {i}");
    }
}

// Whether the classifier that was set last is asked about the next event, and neither by the command that sets it.
fn asks_the_last(alloc: Global) -> bool {
    let (Some(calls), Some(later)) = (cell(alloc), cell(alloc)) else {
        return false;
    };
    let (Some(mut session), Some(other)) = (session_of(alloc, &calls), counting(&later)) else {
        return false;
    };
    let sets = InputOf::Command(CommandOf::SetInputClassifier(other));
    session.step(sets).is_ok()
        && later.get() == (0, 0)
        && takes(alloc, &mut session, Key('j'))
        && calls.get() == (0, 0)
        && later.get() == (1, 0)
}

#[test]
fn the_classifier_last_set_is_asked_alone(rt: HostRuntime) {
    assert_holds(&rt, asks_the_last(rt.alloc()));
}

// How often what is no step asks: the page, another sink, and the end.
fn asks_beside_steps(alloc: Global) -> Option<(u32, u32)> {
    let calls = cell(alloc)?;
    let mut session = session_of(alloc, &calls)?;
    let is_read = session.page().is_ok();
    let is_exchanged = session.set_output_sink(terminal(alloc), 10, 3).is_ok();
    let (_, finished) = session.finish();
    (is_read && is_exchanged && finished.is_ok()).then_some(calls.get())
}

#[test]
fn nothing_but_a_step_asks(rt: HostRuntime) {
    assert_holds(&rt, asks_beside_steps(rt.alloc()) == Some((0, 0)));
}

// How often a run asks.
fn asks_in_a_run(alloc: Global, asked: &[Asked<'_>]) -> Option<(u32, u32)> {
    let calls = cell(alloc)?;
    let mut session = session_of(alloc, &calls)?;
    let mut inputs = Vec::new(alloc);
    for it in asked {
        let input = input(alloc, *it).ok()?;
        inputs.push(input).ok()?;
    }
    let ran = session.run(inputs);
    (ran.done == asked.len()).then_some(calls.get())
}

const RUN: [Asked<'static>; 7] = [
    Key('j'),
    Push("a"),
    Key('h'),
    Key('x'),
    Restored,
    RESIZE,
    Exit,
];

#[test]
fn a_run_asks_once_for_each_event(rt: HostRuntime) {
    assert_holds(&rt, asks_in_a_run(rt.alloc(), &RUN) == Some((4, 1)));
}

// How often a command asks that is handled manually.
fn asks_by_hand(alloc: Global, event: InputEvent) -> Option<(u32, u32)> {
    let calls = cell(alloc)?;
    let state = PagerState::new(alloc, 20, 4).ok()?;
    let mut parts: PartsOf<Own> = PartsOf::keeping(alloc, state, counting(&calls)?, None);
    let mut queue = CommandQueueOf::new_zero(alloc);
    let command = CommandOf::UserInput(event);
    let is_handled = handle_event(alloc, command, &mut parts, &mut queue).is_ok();
    is_handled.then_some(calls.get())
}

#[test]
fn a_command_by_hand_asks_for_the_text_of_help_alone(rt: HostRuntime) {
    assert_holds(
        &rt,
        asks_by_hand(rt.alloc(), InputEvent::ShowHelp) == Some((0, 1)),
    );
    assert_holds(
        &rt,
        asks_by_hand(rt.alloc(), InputEvent::UpdateUpperMark(2)) == Some((0, 0)),
    );
}
