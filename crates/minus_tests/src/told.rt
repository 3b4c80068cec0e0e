//! What waits in a pager after each of its calls. Where memory runs out, each answer is `false`.
use crate::facts::assert_at;
use minus::{LineNumbers, MinusError, Pager};
use std::alloc::Global;
use std::fmt::Write;

const TEXT: &str = "This is sample text";

// A call of a pager.
#[derive(Clone, Copy)]
enum Call {
    SetText,
    Push,
    Prompt,
    Message,
    Overflow,
    Numbers,
    MatchLines,
    CarryStyle,
    Write,
    WriteLine,
}

// Calls a pager so.
fn tell(pager: &mut Pager, call: Call) -> Result<(), MinusError> {
    match call {
        Call::SetText => pager.set_text(TEXT),
        Call::Push => pager.push_str(TEXT),
        Call::Prompt => pager.set_prompt(TEXT),
        Call::Message => pager.send_message(TEXT),
        Call::Overflow => pager.set_run_no_overflow(false),
        Call::Numbers => pager.set_line_numbers(LineNumbers::Enabled),
        Call::MatchLines => pager.set_match_lines(true),
        Call::CarryStyle => pager.set_carry_style(true),
        Call::Write | Call::WriteLine => Ok(()),
    }
}

// Writes to a pager by the two macros.
fn write_to(pager: &mut Pager, call: Call) -> bool {
    let text = "This is a line";
    match call {
        Call::Write => write!(pager, "{text}").is_ok(),
        Call::WriteLine => writeln!(pager, "{text}").is_ok(),
        _ => true,
    }
}

// Whether these commands wait after a call.
fn waits(alloc: Global, call: Call, wanted: &str) -> bool {
    let mut pager = Pager::new(alloc);
    let is_told = tell(&mut pager, call).is_ok() && write_to(&mut pager, call);
    let mut shown = String::new(alloc);
    is_told && write!(shown, "{pager:?}").is_ok() && shown.ends_with(wanted)
}

const CALLS: [(Call, &str); 10] = [
    (Call::SetText, "queue: [SetData(\"This is sample text\")] }"),
    (Call::Push, "queue: [AppendData(\"This is sample text\")] }"),
    (
        Call::Prompt,
        "queue: [SetPrompt(\"This is sample text\")] }",
    ),
    (
        Call::Message,
        "queue: [SendMessage(\"This is sample text\")] }",
    ),
    (Call::Overflow, "queue: [SetRunNoOverflow(false)] }"),
    (Call::Numbers, "queue: [SetLineNumbers(Enabled)] }"),
    (Call::MatchLines, "queue: [SetMatchLines(true)] }"),
    (Call::CarryStyle, "queue: [SetCarryStyle(true)] }"),
    (Call::Write, "queue: [AppendData(\"This is a line\")] }"),
    // a line's end may wait by itself
    (Call::WriteLine, "AppendData(\"\\n\")] }"),
];

#[test]
fn each_call_lets_its_command_wait(rt: HostRuntime) {
    for (call, wanted) in &CALLS {
        assert_at(&rt, wanted, waits(rt.alloc(), *call, wanted));
    }
}
