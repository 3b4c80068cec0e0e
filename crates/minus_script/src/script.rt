//! The script that the program reads.
ghost use Rattle.std.specs.Prelude.{◌≡◌, ◌+◌, ◌<◌, ◌++◌, ◌∷◌, [], map, length, IfOk, IfErr, OnOk, IfSome, IsSome, MatchOption, Ok, Some, None, string_bytes};
ghost use Rattle.std.specs.Option.{option_map};
ghost use Rattle.std.specs.List.{position};
ghost use Rattle.minus_script.specs.Script.{is_newline, script_lines, script_told, line_told, word_told, command_asked, setting_asked, resize_asked, switch_of, numbers_of, typed, all_typed};
ghost use Rattle.minus_script.specs.Script.{key_told, mouse_told};
ghost use Rattle.minus_script.specs.Escapes.{unescaped, escape_byte, split_escape_of};
ghost use Rattle.minus_script.specs.ScriptLines.{told_by};
ghost use Rattle.minus_script.specs.ScriptFaults.{IsScriptFault};
ghost use Rattle.minus_commands.specs.Reads.{told_of, wanted_of};
ghost use Rattle.minus_commands.specs.Table.{sets_data, appends_data, moves_mark, sets_prompt, sends_message, follows, shows_prompt, sets_numbers, sets_wrapping, sets_match_lines, sets_carry_style};

use crate::described_events::{parse_key, parse_mouse};
use crate::fault::ScriptFault;
use crate::keys::ScriptKinds;
use minus::{
    CommandOf, Event, InputEvent, InputOf, KeyCode, KeyEvent, LineNumbers, MouseEvent, parse_usize,
};
use std::alloc::{AllocError, Global};

// A command of a script.
type Command = CommandOf<ScriptKinds>;

/// What a script asks of its session.
pub type ScriptInput = InputOf<ScriptKinds>;

/// The place of the first newline.
fn find_newline(script: &[u8]) -> Option<usize>
    ensures { result ≡ position is_newline script.now }
{
    script.iter().position(|byte| *byte == b'\n')
}

/// The first line of a script, without its newline, and what follows it.
fn split_line(script: &[u8]) -> Option<(&[u8], &[u8])>
    ensures lines { MatchOption result (script_lines script.now ≡ [])
        (λ x. script_lines script.now ≡ x.0.now ∷ script_lines x.1.now) }
    ensures room { IfSome result (λ x. length x.1.now < length script.now) }
{
    if script.is_empty() {
        return None;
    }
    match find_newline(script) {
        Some(end) => Some((&script[..end], &script[end + 1..])),
        None => Some((script, &script[script.len()..])),
    }
}

/// The character of the escape with this letter.
fn escape_character(letter: u8) -> Option<char>
    ensures value { result ≡ escape_byte letter }
    ensures letter { IsSome result → letter < 128 }
    ensures ascii { IfSome result (λ x. x < 128) }
{
    match letter {
        b'n' => Some('\n'),
        b'r' => Some('\r'),
        b'e' => Some('\x1b'),
        b'\\' => Some('\\'),
        _ => None,
    }
}

/// The character of the escape whose letter a text begins with, and what follows the letter.
fn split_escape(text: &str) -> Option<(char, &str)>
    ensures value { MatchOption result (split_escape_of text.now ≡ None)
        (λ x. split_escape_of text.now ≡ Some (x.0, x.1.now)) }
    ensures ascii { IfSome result (λ x. x.0 < 128) }
    ensures room { IfSome result (λ x. length x.1.now < length text.now) }
{
    let letter = *text.as_bytes().first()?;
    match escape_character(letter) {
        Some(character) => Some((character, &text[1..])),
        None => None,
    }
}

/// The text that is written with these escapes, if all of them are well formed.
fn unescape(alloc: Global, written: &str) -> Result<Option<String>, AllocError>
    ensures { IfOk result (λ text. option_map string_bytes text ≡ unescaped written.now) }
{
    let mut text = String::new(alloc);
    let mut rest = written;
    while let Some((plain, escape)) = rest.split_once('\\') {
        let Some((character, more)) = split_escape(escape) else {
            return Ok(None);
        };
        text.push_str(plain)?;
        text.push(character)?;
        rest = more;
    }
    text.push_str(rest)?;
    Ok(Some(text))
}

/// The command that adds a text.
fn append(text: String) -> Command
    ensures { wanted_of result ≡ appends_data (string_bytes text) }
{
    Command::AppendData(text)
}

/// The command that puts a text in the place of all text.
fn set(text: String) -> Command
    ensures { wanted_of result ≡ sets_data (string_bytes text) }
{
    Command::SetData(text)
}

/// The command that lets the prompt row say a text.
fn set_prompt(text: String) -> Command
    ensures { wanted_of result ≡ sets_prompt (string_bytes text) }
{
    Command::SetPrompt(text)
}

/// The command that lets it say a text in the prompt's place.
fn send_message(text: String) -> Command
    ensures { wanted_of result ≡ sends_message (string_bytes text) }
{
    Command::SendMessage(text)
}

/// The command that lets the page go on with what is appended, or no longer.
fn follow(follow: bool) -> Command
    ensures { wanted_of result ≡ follows follow }
{
    Command::FollowOutput(follow)
}

/// The command that shows the prompt row, or hides it.
fn show_prompt(is_shown: bool) -> Command
    ensures { wanted_of result ≡ shows_prompt is_shown }
{
    Command::ShowPrompt(is_shown)
}

/// The command that lets rows begin with numbers, or not.
fn set_numbers(numbers: LineNumbers) -> Command
    ensures { wanted_of result ≡ sets_numbers numbers }
{
    Command::SetLineNumbers(numbers)
}

/// The command that wraps lines, or lets each be one row.
fn wrap(wrapping: bool) -> Command
    ensures { wanted_of result ≡ sets_wrapping wrapping }
{
    Command::LineWrapping(wrapping)
}

/// The command that searches for a term in lines, or in rows.
fn match_lines(match_lines: bool) -> Command
    ensures { wanted_of result ≡ sets_match_lines match_lines }
{
    Command::SetMatchLines(match_lines)
}

/// The command that puts rows with the styles that their lines carry to them, or not.
fn carry_style(carry_style: bool) -> Command
    ensures { wanted_of result ≡ sets_carry_style carry_style }
{
    Command::SetCarryStyle(carry_style)
}

/// The numbers that an argument asks for.
fn parse_numbers(argument: &str) -> Option<LineNumbers>
    ensures { result ≡ numbers_of argument.now }
{
    match argument {
        "always-on" => Some(LineNumbers::AlwaysOn),
        "on" => Some(LineNumbers::Enabled),
        "off" => Some(LineNumbers::Disabled),
        "always-off" => Some(LineNumbers::AlwaysOff),
        _ => None,
    }
}

/// Whether an argument says on or off.
fn parse_switch(argument: &str) -> Option<bool>
    ensures { result ≡ switch_of argument.now }
{
    match argument {
        "on" => Some(true),
        "off" => Some(false),
        _ => None,
    }
}

/// The command that moves the mark to a row.
fn move_mark(row: usize) -> Command
    ensures { wanted_of result ≡ moves_mark row }
{
    Command::UserInput(InputEvent::UpdateUpperMark(row))
}

/// The command that asks for the size in an argument, if it is well formed.
fn parse_resize(argument: &str) -> Option<Command>
    ensures { option_map wanted_of result ≡ resize_asked argument.now }
{
    let (cols, rows) = argument.split_once(' ')?;
    let cols = parse_usize(cols)?;
    let rows = parse_usize(rows)?;
    Some(Command::UserInput(InputEvent::UpdateTermArea(cols, rows)))
}

/// The command that sets something beside the text, if a word and the argument after it stand for one.
fn parse_setting(alloc: Global, word: &str, argument: &str) -> Result<Option<Command>, AllocError>
    ensures { IfOk result (λ command. option_map wanted_of command ≡ setting_asked word.now argument.now) }
{
    let command = match word {
        "prompt" => unescape(alloc, argument)?.map(set_prompt),
        "message" => unescape(alloc, argument)?.map(send_message),
        "follow" => parse_switch(argument).map(follow),
        "showprompt" => parse_switch(argument).map(show_prompt),
        "wrap" => parse_switch(argument).map(wrap),
        "matchlines" => parse_switch(argument).map(match_lines),
        "carrystyle" => parse_switch(argument).map(carry_style),
        "numbers" => parse_numbers(argument).map(set_numbers),
        _ => None,
    };
    Ok(command)
}

/// The command that a word and the argument after it stand for, if they are well formed.
fn parse_command(alloc: Global, word: &str, argument: &str) -> Result<Option<Command>, AllocError>
    ensures { IfOk result (λ command. option_map wanted_of command ≡ command_asked word.now argument.now) }
{
    let command = match word {
        "push" => unescape(alloc, argument)?.map(append),
        "set" => unescape(alloc, argument)?.map(set),
        "mark" => parse_usize(argument).map(move_mark),
        "resize" => parse_resize(argument),
        _ => parse_setting(alloc, word, argument)?,
    };
    Ok(command)
}

/// What a line of the script stands for.
#[derive(Debug, Drop)]
pub(crate) enum Line {
    /// A command.
    Command(Command),
    /// A text whose characters are typed.
    Typed(String),
    /// An event of the terminal.
    Event(Event),
}

/// The line of a key.
fn key_line(key: KeyEvent) -> Line
    ensures { told_by result ≡ key_told key }
{
    Line::Event(Event::Key(key))
}

/// The line of an event of the mouse.
fn mouse_line(mouse: MouseEvent) -> Line
    ensures { told_by result ≡ mouse_told mouse }
{
    Line::Event(Event::Mouse(mouse))
}

/// What a word and the argument after it stand for, if they are well formed.
fn parse_word(alloc: Global, word: &str, argument: &str) -> Result<Option<Line>, AllocError>
    ensures { IfOk result (λ line. option_map told_by line ≡ word_told word.now argument.now) }
{
    let line = match word {
        "type" => unescape(alloc, argument)?.map(Line::Typed),
        "key" => parse_key(argument).map(key_line),
        "mouse" => parse_mouse(argument).map(mouse_line),
        _ => parse_command(alloc, word, argument)?.map(Line::Command),
    };
    Ok(line)
}

/// What a line without its newline stands for, if it is well formed.
fn parse_line(alloc: Global, line: &[u8]) -> Result<Option<Line>, AllocError>
    ensures { IfOk result (λ parsed. option_map told_by parsed ≡ line_told line.now) }
{
    let Ok(text) = str::from_utf8(line) else {
        return Ok(None);
    };
    match text.split_once(' ') {
        Some((word, argument)) => parse_word(alloc, word, argument),
        None => Ok(None),
    }
}

/// The press of a character's key.
fn press(character: char) -> ScriptInput
    ensures { told_of result ≡ typed character }
{
    ScriptInput::Event(Event::Key(KeyEvent::from(KeyCode::Char(character))))
}

/// Adds the press of each character's key.
fn push_presses(inputs: &mut Vec<ScriptInput>, text: &str) -> Result<(), AllocError>
    ensures { OnOk result (map told_of inputs.new.items ≡ map told_of inputs.old.items ++ all_typed text.now) }
{
    for character in text.chars() {
        inputs.push(press(character))?;
    }
    Ok(())
}

/// Adds the inputs that a line stands for.
fn push_line(inputs: &mut Vec<ScriptInput>, line: Line) -> Result<(), AllocError>
    ensures { OnOk result (map told_of inputs.new.items ≡ map told_of inputs.old.items ++ told_by line) }
{
    match line {
        Line::Command(command) => inputs.push(ScriptInput::Command(command))?,
        Line::Typed(text) => push_presses(inputs, &text)?,
        Line::Event(event) => inputs.push(ScriptInput::Event(event))?,
    }
    Ok(())
}

/// The inputs that the lines of a script stand for, or the fault of the first faulty one.
pub fn parse_script(alloc: Global, script: &[u8]) -> Result<Vec<ScriptInput>, ScriptFault>
    ensures ok { IfOk result (λ inputs. script_told (script_lines script.now) ≡ Ok (map told_of inputs.items)) }
    ensures fault { IfErr result (IsScriptFault (script_told (script_lines script.now))) }
{
    let mut inputs = Vec::new(alloc);
    let mut number = 1;
    let mut rest = script;
    while let Some((line, more)) = split_line(rest) {
        match parse_line(alloc, line)? {
            Some(line) => push_line(&mut inputs, line)?,
            None => return Err(ScriptFault::Line(number)),
        }
        number += 1;
        rest = more;
    }
    Ok(inputs)
}
