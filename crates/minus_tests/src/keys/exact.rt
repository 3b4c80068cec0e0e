//! What the classifier of exact keys answers, row by row of its table.
use crate::facts::assert_holds;
use crate::helps::HELP_ROW;
use crate::sessions::{PROMPT_ROW, has_page, terminal};
use minus::{
    CommandOf, Core, DefaultInputClassifier, Event, InputEvent, InputOf, KeyEventKind, Kinds,
    NeverCalled, NeverShows, PagerOf, RunMode, WithTty, init_core_with,
};
use minus_part_tests::asked::{At, START, answers, key};
use std::alloc::Global;

// Whether the classifier answers this to an event.
fn asks(alloc: Global, event: Event, at: &At<'_>, wanted: Option<InputEvent>) -> bool {
    answers(alloc, &DefaultInputClassifier, event, at, wanted)
}

// What is done with a key.
const KINDS: [KeyEventKind; 3] = [
    KeyEventKind::Press,
    KeyEventKind::Repeat,
    KeyEventKind::Release,
];

#[test]
fn the_kind_of_a_key_is_not_looked_at(rt: HostRuntime) {
    for kind in &KINDS {
        let is_asked = asks(
            rt.alloc(),
            key("j", *kind),
            &START,
            Some(InputEvent::UpdateUpperMark(1)),
        );
        assert_holds(&rt, is_asked);
    }
}

type Own = Kinds<NeverCalled, NeverCalled, NeverShows, DefaultInputClassifier>;

type Led = Core<WithTty<Vec<u8>>, Own>;

// A session of `a` on 20 columns and three rows that goes by exact keys.
fn session(alloc: Global) -> Option<Led> {
    let mut pager: PagerOf<Own> = PagerOf::new(alloc);
    if pager.push_str("a").is_err() {
        return None;
    }
    match init_core_with(
        pager,
        RunMode::Static,
        terminal(alloc),
        20,
        3,
        DefaultInputClassifier,
    ) {
        Ok(session) => Some(session),
        Err(_) => None,
    }
}

// Whether an input leads to this page.
fn lead_to(session: &mut Led, input: InputOf<Own>, page: &[&str]) -> bool {
    session.step(input).is_ok() && has_page(session, page)
}

// Whether a session by exact keys, which give no text for help, shows blank rows in help.
fn has_no_help(alloc: Global) -> bool {
    let (Some(mut session), Ok(text)) = (session(alloc), String::from_str(alloc, "b")) else {
        return false;
    };
    let help = InputOf::Command(CommandOf::UserInput(InputEvent::ShowHelp));
    let back = InputOf::Command(CommandOf::UserInput(InputEvent::RestorePrompt));
    lead_to(&mut session, help, &["", "", HELP_ROW])
        && lead_to(
            &mut session,
            InputOf::Command(CommandOf::AppendData(text)),
            &["", "", HELP_ROW],
        )
        && lead_to(&mut session, back, &["ab", "", PROMPT_ROW])
}

#[test]
fn help_without_a_text_is_blank(rt: HostRuntime) {
    assert_holds(&rt, has_no_help(rt.alloc()));
}
