//! Help: what is shown while it is open, and what is shown once it is left.
use crate::facts::assert_holds;
use crate::sessions::{PROMPT_ROW, has_page, terminal};
use minus::{
    CommandOf, Core, Event, InputClassifier, InputEvent, InputOf, Kinds, NeverCalled, NeverShows,
    PagerOf, PagerState, RunMode, WithTty, init_core_with,
};
use std::alloc::{AllocError, Global};

/// The prompt row of 20 columns while help is open.
pub const HELP_ROW: &str = "\x1b[2;40;37mHELP -- Press q or S\x1b[0m";

// A classifier that asks at each event for help, which is two lines.
#[derive(Drop)]
struct TwoLines;

impl InputClassifier for TwoLines {
    ghost says = { record {
      allows = λ classifier event state answer. Unit {0};
      helps = λ classifier text. Unit {0};
    } };

    fn classify_input(&self, _event: Event, _state: &PagerState) -> Option<InputEvent> {
        Some(InputEvent::ShowHelp)
    }

    fn format_help(&self, alloc: Global) -> Result<Option<String>, AllocError> {
        Ok(Some(String::from_str(alloc, "one\ntwo")?))
    }
}

type Own = Kinds<NeverCalled, NeverCalled, NeverShows, TwoLines>;

type Offering = Core<WithTty<Vec<u8>>, Own>;

// A session of `a` on 20 columns and three rows, whose help is two lines.
fn offering(alloc: Global) -> Option<Offering> {
    let mut pager: PagerOf<Own> = PagerOf::new(alloc);
    if pager.set_text("a").is_err() {
        return None;
    }
    match init_core_with(pager, RunMode::Static, terminal(alloc), 20, 3, TwoLines) {
        Ok(session) => Some(session),
        Err(_) => None,
    }
}

// Whether an input is answered without an exit, and leads to help that is open or not, and to this page.
fn leads_to(session: &mut Offering, input: InputOf<Own>, is_open: bool, page: &[&str]) -> bool {
    let goes_on = match session.step(input) {
        Ok(answer) => answer.exited.is_none(),
        Err(_) => false,
    };
    goes_on && session.state().help_open() == is_open && has_page(session, page)
}

// Whether an event opens the help that the classifier gives, and an exit leaves it, and the session goes on.
fn is_left_by_an_exit(alloc: Global) -> bool {
    let Some(mut session) = offering(alloc) else {
        return false;
    };
    let open = InputOf::Event(Event::FocusGained);
    let exit = InputOf::Command(CommandOf::UserInput(InputEvent::Exit));
    let opens = leads_to(&mut session, open, true, &["one", "two", HELP_ROW]);
    let leaves = leads_to(&mut session, exit, false, &["a", "", PROMPT_ROW]);
    opens && leaves
}

#[test]
fn an_exit_leaves_the_help_that_the_classifier_gives(rt: HostRuntime) {
    assert_holds(&rt, is_left_by_an_exit(rt.alloc()));
}

// Whether a session makes room for more text, and shows this page then.
fn stays_with_room(session: &mut Offering, page: &[&str]) -> bool {
    session.reserve(1_000).is_ok() && has_page(session, page)
}

// Whether a page stays as room is made for more of its text, and help as room is made for more of the saved text.
fn pages_stay_with_room(alloc: Global) -> bool {
    let Some(mut session) = offering(alloc) else {
        return false;
    };
    let open = InputOf::Event(Event::FocusGained);
    let stays = stays_with_room(&mut session, &["a", "", PROMPT_ROW]);
    let opens = leads_to(&mut session, open, true, &["one", "two", HELP_ROW]);
    stays && opens && stays_with_room(&mut session, &["one", "two", HELP_ROW])
}

#[test]
fn a_page_stays_as_room_is_made(rt: HostRuntime) {
    assert_holds(&rt, pages_stay_with_room(rt.alloc()));
}
