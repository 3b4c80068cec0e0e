//! Scripts as a person writes them, and their faulty lines.
use crate::sessions::{Command, Input};
use minus::{Event, InputEvent, KeyCode, KeyEvent, KeyEventKind, KeyEventState, KeyModifiers};
use minus_script::parse_script;
use std::alloc::Global;
use std::fmt;

// Adds a word with its argument.
fn add<T: fmt::Display>(text: &mut String, word: &str, argument: &T) -> bool {
    write!(text, "{word}[{argument}]").is_ok()
}

// Adds what a command is, as its word and its argument.
fn add_command(text: &mut String, command: &Command) -> bool {
    match command {
        Command::AppendData(added) => add(text, "push", added),
        Command::SetData(put) => add(text, "set", put),
        Command::UserInput(InputEvent::UpdateUpperMark(row)) => add(text, "mark", row),
        Command::UserInput(InputEvent::UpdateTermArea(cols, rows)) => {
            write!(text, "resize[{cols} {rows}]").is_ok()
        }
        Command::SetPrompt(prompt) => add(text, "prompt", prompt),
        Command::SendMessage(message) => add(text, "message", message),
        Command::FollowOutput(follow) => add(text, "follow", follow),
        Command::ShowPrompt(is_shown) => add(text, "showprompt", is_shown),
        Command::LineWrapping(wrapping) => add(text, "wrap", wrapping),
        Command::SetMatchLines(match_lines) => add(text, "matchlines", match_lines),
        Command::SetCarryStyle(carry_style) => add(text, "carrystyle", carry_style),
        Command::SetLineNumbers(numbers) => write!(text, "numbers[{numbers:?}]").is_ok(),
        _ => false,
    }
}

// Adds what an input is: a command, or the key that is pressed.
fn add_input(text: &mut String, input: &Input) -> bool {
    match input {
        Input::Command(command) => add_command(text, command),
        Input::Event(
            Event::Key(
                KeyEvent {
                    code: KeyCode::Char(character),
                    modifiers: KeyModifiers::NONE,
                    kind: KeyEventKind::Press,
                    state: KeyEventState::NONE,
                },
            ),
        ) => add(text, "key", character),
        Input::Event(_) => false,
    }
}

// Adds what inputs are, one after another.
fn add_inputs(text: &mut String, inputs: &[Input]) -> bool {
    for input in inputs {
        if !add_input(text, input) {
            return false;
        }
    }
    true
}

// Whether a script has these inputs.
fn reads(alloc: Global, script: &[u8], wanted: &str) -> bool {
    let mut text = String::new(alloc);
    match parse_script(alloc, script) {
        Ok(inputs) => add_inputs(&mut text, &inputs) && text.as_str() == wanted,
        Err(_) => false,
    }
}

#[test]
fn reads_each_word(rt: HostRuntime) {
    let cases: &[(&[u8], &str)] = &[
        (b"", ""),
        (b"push ", "push[]"),
        (b"push \n", "push[]"),
        (b"push  a b \n", "push[ a b ]"),
        (
            b"push a\\nb\\r\\e\\\\c\nset d\nmark 12\n",
            "push[a\nb\r\x1b\\c]set[d]mark[12]",
        ),
        (b"set a\r\nmark +7", "set[a\r]mark[7]"),
        (b"mark 18446744073709551615", "mark[18446744073709551615]"),
        (b"push \\\\n", "push[\\n]"),
        (b"push \xc3\xa9\\n\xe2\x82\xac", "push[é\n€]"),
        (b"set push a", "set[push a]"),
        (b"push a\tb", "push[a\tb]"),
        (b"push a\0b\n", "push[a\0b]"),
        (b"resize 30 6\nmark 1", "resize[30 6]mark[1]"),
        (b"type \nresize 0 +9", "resize[0 9]"),
        (b"type a\xc3\xa9\\n", "key[a]key[é]key[\n]"),
        (b"prompt p q\nmessage \\n", "prompt[p q]message[\n]"),
        (
            b"follow on\nfollow off\nshowprompt off",
            "follow[true]follow[false]showprompt[false]",
        ),
        (b"wrap on\nwrap off", "wrap[true]wrap[false]"),
        (
            b"matchlines on\nmatchlines off",
            "matchlines[true]matchlines[false]",
        ),
        (
            b"carrystyle on\ncarrystyle off",
            "carrystyle[true]carrystyle[false]",
        ),
        (
            b"numbers always-on\nnumbers on\nnumbers off\nnumbers always-off",
            "numbers[AlwaysOn]numbers[Enabled]numbers[Disabled]numbers[AlwaysOff]",
        ),
    ];
    for (script, wanted) in cases {
        assert!(rt; reads(rt.alloc(), script, wanted), "at {wanted}");
    }
}
