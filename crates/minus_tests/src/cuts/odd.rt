//! Classifiers that answer what they like, and a condition that changes its mind.
use crate::facts::assert_holds;
use crate::plain_sessions::{Asked, PROMPT_ROW, TEN_LINES, does, has_page, number_of, pressed};
use minus::{
    Calls, CommandOf, ConditionCall, Core, DefaultInputClassifier, Event, InputClassifier,
    InputEvent, InputOf, KeyCode, Kinds, NeverCalled, NeverShows, PagerOf, PagerState, RunMode,
    SearchMode, SearchOpts, WithTty, init_core_with,
};
use std::alloc::{AllocError, Global};
use std::cell::Cell;

// Answers this to a key that no one has, and to all else what the default classifier does.
#[derive(Clone, Copy, Drop)]
struct Odd(InputEvent);

const ODD_KEY: Asked<'static> = Asked::Pressed(KeyCode::F(1));

impl InputClassifier for Odd {
    ghost says = { record {
      allows = λ classifier event state answer. Unit {0};
      helps = λ classifier text. Unit {0};
    } };

    fn classify_input(&self, event: Event, state: &PagerState) -> Option<InputEvent> {
        if event == pressed(KeyCode::F(1)) {
            return Some(self.0);
        }
        DefaultInputClassifier.classify_input(event, state)
    }

    fn format_help(&self, _alloc: Global) -> Result<Option<String>, AllocError> {
        Ok(None)
    }
}

// Says yes, then no, then yes, and so on.
#[derive(Drop)]
struct Fickle {
    says: Cell<bool>,
}

impl ConditionCall for Fickle {
    ghost judges = { λ condition opts answer. Unit {0} };

    fn ask(&self, _opts: &SearchOpts<'_>) -> bool {
        !self.says.replace(!self.says.get())
    }
}

type Oddly = Kinds<NeverCalled, NeverCalled, NeverShows, Odd>;

type Minding = Kinds<NeverCalled, NeverCalled, Fickle, Odd>;

// A session of ten lines on 20 columns and four rows.
fn session_of<P: Calls<Classifier = Odd>>(
    alloc: Global,
    odd: InputEvent,
) -> Option<Core<WithTty<Vec<u8>>, P>> {
    let sink = WithTty::new(Vec::new(alloc), true);
    let pager: PagerOf<P> = PagerOf::new(alloc);
    let Ok(mut session) = init_core_with(pager, RunMode::Static, sink, 20, 4, Odd(odd)) else {
        return None;
    };
    does(alloc, &mut session, &[Asked::Push(TEN_LINES)]).then_some(session)
}

// What the key asks for where `1` is typed, the number by which that is refused, and the mark and the prefix that are
// left.
type Answered = (InputEvent, u8, usize, &'static str);

const ANSWERS: [Answered; 14] = [
    (InputEvent::UpdateTermArea(0, 0), 5, 0, "1"),
    (InputEvent::UpdateTermArea(65_536, 4), 5, 0, "1"),
    (InputEvent::UpdateUpperMark(usize::MAX), 0, 7, ""),
    (InputEvent::UpdateLeftMark(usize::MAX), 0, 0, ""),
    (InputEvent::MoveToNextMatch(usize::MAX), 0, 0, ""),
    (InputEvent::MoveToPrevMatch(usize::MAX), 0, 0, ""),
    (InputEvent::Search(SearchMode::Unknown), 0, 0, ""),
    (InputEvent::CopySelection, 0, 0, ""),
    (
        InputEvent::StartSelection {
            x: 65_535,
            y: 65_535,
        },
        0,
        0,
        "",
    ),
    (
        InputEvent::UpdateSelection {
            x: 65_535,
            y: 65_535,
        },
        0,
        0,
        "",
    ),
    (InputEvent::Number('é'), 0, 0, "1é"),
    (InputEvent::Number('\n'), 0, 0, "1\n"),
    (InputEvent::Number('1'), 0, 0, "11"),
    (InputEvent::NextMatch, 0, 0, ""),
];

// Whether an answer does so.
fn is_answered(alloc: Global, answered: &Answered) -> bool {
    let Some(mut session) = session_of::<Oddly>(alloc, answered.0) else {
        return false;
    };
    does(alloc, &mut session, &[Asked::Key('1')])
        && number_of(alloc, &mut session, ODD_KEY) == answered.1
        && session.state().upper_mark == answered.2
        && session.state().left_mark == 0
        && session.state().prefix_num.as_str() == answered.3
}

#[test]
fn a_classifier_may_answer_what_it_likes(rt: HostRuntime) {
    for answered in &ANSWERS {
        assert!(rt; is_answered(rt.alloc(), answered), "{:?}", answered.0);
    }
}

// Whether a left mark past all columns is not taken where lines are not wrapped.
fn keeps_its_left_mark(alloc: Global) -> bool {
    let Some(mut session) = session_of::<Oddly>(alloc, InputEvent::UpdateLeftMark(usize::MAX))
    else {
        return false;
    };
    does(alloc, &mut session, &[Asked::Wrapped(false), ODD_KEY])
        && session.state().left_mark == 0
        && has_page(&session, &["l0", "l1", "l2", PROMPT_ROW])
}

// Whether a letter that is typed as a number is shown, and a move goes by one row then.
fn types_a_letter(alloc: Global) -> bool {
    let Some(mut session) = session_of::<Oddly>(alloc, InputEvent::Number('é')) else {
        return false;
    };
    let typed = "\x1b[2;40;37mminus            \x1b[30;43m é \x1b[0m";
    does(alloc, &mut session, &[ODD_KEY])
        && has_page(&session, &["l0", "l1", "l2", typed])
        && does(alloc, &mut session, &[Asked::Key('j')])
        && has_page(&session, &["l1", "l2", "l3", PROMPT_ROW])
}

#[test]
fn odd_answers_leave_their_pages(rt: HostRuntime) {
    assert_holds(
        &rt,
        keeps_its_left_mark(rt.alloc()) && types_a_letter(rt.alloc()),
    );
}

// Whether a key leads to this first row of text, and this search prompt.
fn leads(
    alloc: Global,
    session: &mut Core<WithTty<Vec<u8>>, Minding>,
    code: KeyCode,
    row: &str,
    prompt: &str,
) -> bool {
    does(alloc, session, &[Asked::Pressed(code)])
        && match session.page() {
            Ok(page) => match page.rows.as_slice() {
                [first, _, _, last] => first.as_str() == row && last.as_str() == prompt,
                _ => false,
            },
            Err(_) => false,
        }
}

// Whether the page goes by what the condition says at each edit, and by its last answer where the cursor moves.
fn goes_by_its_mind(alloc: Global) -> bool {
    let Some(mut it) = session_of::<Minding>(alloc, InputEvent::Ignore) else {
        return false;
    };
    let fickle = Fickle {
        says: Cell::new(false),
    };
    let set = CommandOf::IncrementalSearchCondition(fickle);
    let first = "\x1b[7ml\x1b[27m0";
    it.step(InputOf::Command(set)).is_ok()
        && leads(alloc, &mut it, KeyCode::Char('/'), "l0", "/")
        && leads(alloc, &mut it, KeyCode::Char('l'), first, "/l")
        && leads(alloc, &mut it, KeyCode::Char('7'), "l0", "/l7")
        && leads(alloc, &mut it, KeyCode::Left, "l0", "/l7")
        && leads(alloc, &mut it, KeyCode::Delete, first, "/l")
        && leads(alloc, &mut it, KeyCode::Home, first, "/l")
        && leads(alloc, &mut it, KeyCode::Delete, "l0", "/")
        && leads(alloc, &mut it, KeyCode::Backspace, "l0", "/")
        && leads(alloc, &mut it, KeyCode::Esc, "l0", PROMPT_ROW)
}

#[test]
fn a_condition_may_change_its_mind(rt: HostRuntime) {
    assert_holds(&rt, goes_by_its_mind(rt.alloc()));
}
