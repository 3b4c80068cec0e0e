//! What waits behind the open search prompt.
use crate::facts::assert_holds;
use crate::sessions::{PROMPT_ROW, has_page, pressed, terminal};
use minus::{
    CommandOf, Core, Event, InputClassifier, InputEvent, InputOf, KeyCode, Kinds, NeverCalled,
    NeverShows, PagerOf, PagerState, RunMode, SearchMode, WithTty, init_core_with,
};
use std::alloc::{AllocError, Global};

/// A classifier that asks for a size that no terminal has, at each event.
#[derive(Drop)]
struct NoSize;

impl InputClassifier for NoSize {
    ghost says = { record {
      allows = λ classifier event state answer. Unit {0};
      helps = λ classifier text. Unit {0};
    } };

    fn classify_input(&self, _event: Event, _state: &PagerState) -> Option<InputEvent> {
        Some(InputEvent::UpdateTermArea(0, 10))
    }

    fn format_help(&self, _alloc: Global) -> Result<Option<String>, AllocError> {
        Ok(None)
    }
}

type Sizeless = Kinds<NeverCalled, NeverCalled, NeverShows, NoSize>;

// A session by that classifier, with its search prompt open, behind which a new size and a text wait.
fn waiting(alloc: Global) -> Option<Core<WithTty<Vec<u8>>, Sizeless>> {
    let pager: PagerOf<Sizeless> = PagerOf::new(alloc);
    let Ok(mut session) = init_core_with(pager, RunMode::Static, terminal(alloc), 20, 3, NoSize)
    else {
        return None;
    };
    let Ok(text) = String::from_str(alloc, "a") else {
        return None;
    };
    let search = CommandOf::UserInput(InputEvent::Search(SearchMode::Forward));
    let is_waiting = session.step(InputOf::Command(search)).is_ok()
        && session.step(InputOf::Event(Event::Resize(30, 6))).is_ok()
        && session
            .step(InputOf::Command(CommandOf::AppendData(text)))
            .is_ok();
    is_waiting.then_some(session)
}

// Whether what waits is skipped where it is refused, by this number alone, and what waits behind it is done.
fn is_passed_over(alloc: Global, number: u8) -> bool {
    let Some(mut session) = waiting(alloc) else {
        return false;
    };
    let Ok(answer) = session.step(InputOf::Event(pressed(KeyCode::Esc))) else {
        return false;
    };
    match answer.refused.first() {
        Some(refusal) => {
            refusal.number() == number
                && answer.refused.len() == 1
                && has_page(&session, &["a", "", PROMPT_ROW])
        }
        None => false,
    }
}

#[test]
fn what_is_refused_behind_the_prompt_is_answered(rt: HostRuntime) {
    assert_holds(&rt, is_passed_over(rt.alloc(), 5));
}
