//! Which commands are equal, and what they are shown as to a programmer.
use crate::facts::assert_at;
use crate::sessions::{Asked, Input, inputs};
use minus::{AppendStyle, InputEvent, IoCommand, LineNumbers};
use minus_part_tests::shown::is_debugged;
use std::alloc::Global;

// What one command asks for, what another one does, and what the first is shown as.
struct Told<'a> {
    asked: Asked<'a>,
    other: Asked<'a>,
    text: &'a str,
}

// Whether a command is shown so, and equals one for the same and not the other one.
fn is_told(alloc: Global, case: &Told<'_>) -> bool {
    let Ok(inputs) = inputs(alloc, &[case.asked, case.asked, case.other]) else {
        return false;
    };
    match inputs.as_slice() {
        [
            Input::Command(one),
            Input::Command(same),
            Input::Command(other),
        ] => *one == *same && *one != *other && is_debugged(alloc, one, case.text),
        _ => false,
    }
}

const TOLD: [&Told<'static>; 16] = [
    &Told {
        asked: Asked::Push("a"),
        other: Asked::Push("b"),
        text: "AppendData(\"a\")",
    },
    &Told {
        asked: Asked::Prompt("a"),
        other: Asked::Message("a"),
        text: "SetPrompt(\"a\")",
    },
    &Told {
        asked: Asked::Message("a"),
        other: Asked::Message(""),
        text: "SendMessage(\"a\")",
    },
    &Told {
        asked: Asked::Shown(true),
        other: Asked::Shown(false),
        text: "ShowPrompt(true)",
    },
    &Told {
        asked: Asked::Numbers(LineNumbers::AlwaysOn),
        other: Asked::Numbers(LineNumbers::Enabled),
        text: "SetLineNumbers(AlwaysOn)",
    },
    &Told {
        asked: Asked::Wrapped(false),
        other: Asked::Wrapped(true),
        text: "LineWrapping(false)",
    },
    &Told {
        asked: Asked::InLines(true),
        other: Asked::InLines(false),
        text: "SetMatchLines(true)",
    },
    &Told {
        asked: Asked::Styled(true),
        other: Asked::Styled(false),
        text: "SetCarryStyle(true)",
    },
    &Told {
        asked: Asked::Follow(true),
        other: Asked::Follow(false),
        text: "FollowOutput(true)",
    },
    // an event is told with what it asks for
    &Told {
        asked: Asked::Does(InputEvent::FollowOutput(true)),
        other: Asked::Follow(true),
        text: "UserInput(FollowOutput(true))",
    },
    &Told {
        asked: Asked::Size(20, 5),
        other: Asked::Size(5, 20),
        text: "UserInput(UpdateTermArea(20, 5))",
    },
    &Told {
        asked: Asked::Start(1, 2),
        other: Asked::Update(1, 2),
        text: "UserInput(StartSelection { x: 1, y: 2 })",
    },
    &Told {
        asked: Asked::Does(InputEvent::MoveToNextMatch(1)),
        other: Asked::Does(InputEvent::NextMatch),
        text: "UserInput(MoveToNextMatch(1))",
    },
    // and so is what is drawn
    &Told {
        asked: Asked::Io(IoCommand::RedrawPrompt),
        other: Asked::Io(IoCommand::RedrawDisplay),
        text: "Io(RedrawPrompt)",
    },
    &Told {
        asked: Asked::Io(IoCommand::SetUpperMark(2)),
        other: Asked::Mark(2),
        text: "Io(SetUpperMark(2))",
    },
    &Told {
        asked: Asked::Io(IoCommand::DrawAppendedText(0, 1, AppendStyle::PartialUpdate((0, 1)))),
        other: Asked::Io(IoCommand::DrawAppendedText(0, 1, AppendStyle::FullRedraw)),
        text: "Io(DrawAppendedText(0, 1, PartialUpdate((0, 1))))",
    },
];

#[test]
fn commands_are_told_apart_by_what_they_hold(rt: HostRuntime) {
    for case in &TOLD {
        assert_at(&rt, case.text, is_told(rt.alloc(), case));
    }
}
