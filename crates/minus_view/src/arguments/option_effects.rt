//! What an option sets, by itself or with its value.
ghost use Rattle.std.specs.Prelude.{◌≡◌, option_map};
ghost use Rattle.minus_view.specs.Paging.{bare_paging, with_setting, line_number, with_command, is_number, with_tab_width};
ghost use Rattle.minus_view.specs.Paging.{words_end, with_name, with_prompt, with_value};

use super::option_table::{Setting, Valued};
use super::reading::{cut, number_len};
use super::{AtEnd, Case, Opening, Paging};
use crate::numbers::number;

/// An option that has no value: it is set, or set back.
pub(super) fn with_setting<'a>(so_far: Paging<'a>, resets: bool, setting: Setting) -> Paging<'a>
    ensures { bare_paging result ≡ with_setting (bare_paging so_far.entry) resets setting }
{
    match setting {
        Setting::Idle => so_far,
        Setting::Numbers(numbers) => Paging {
            numbers: numbers && !resets,
            ..so_far
        },
        Setting::Chops => Paging {
            chops: !resets,
            ..so_far
        },
        Setting::Prints => Paging {
            prints: !resets,
            ..so_far
        },
        Setting::Leaves => Paging {
            leaves: !resets,
            ..so_far
        },
        Setting::Squeezes => Paging {
            squeezes: !resets,
            ..so_far
        },
        Setting::Mouse(mouse) => Paging {
            mouse: mouse && !resets,
            ..so_far
        },
        Setting::Case(case) => Paging {
            case: if resets { Case::Exact } else { case },
            ..so_far
        },
        Setting::AtEnd(at_end) => Paging {
            at_end: if resets { AtEnd::Stays } else { at_end },
            ..so_far
        },
    }
}

// The number of a line.
fn line_number(digits: &[u8]) -> Option<usize>
    ensures { result ≡ line_number digits.now }
{
    let mut line: usize = 0;
    for digit in digits {
        match *digit {
            48..=57 if line < 1_000_000_000_000 => line = line * 10 + usize::from(*digit - 48),
            _ => return None,
        }
    }
    if line == 0 { None } else { Some(line) }
}

// A command behind `+`: where the first page begins.
fn with_command<'a>(so_far: Paging<'a>, command: &'a str) -> Option<Paging<'a>>
    ensures { option_map bare_paging result ≡ with_command (bare_paging so_far.entry) command.now }
{
    let opening = match command.as_bytes() {
        [b'G'] => Opening::End,
        [b'F'] => Opening::Follows,
        [b'/', ..] => Opening::Finds(cut(command, 1, command.len())),
        digits => Opening::Line(line_number(digits)?),
    };
    Some(Paging { opening, ..so_far })
}

// Whether a value is a number.
fn is_number(value: &[u8]) -> bool
    ensures { result ≡ is_number value.now }
{
    !value.is_empty() && number_len(value) == value.len()
}

// How far tabs stand apart: the number at the front of a value.
fn with_tab_width<'a>(so_far: Paging<'a>, value: &[u8]) -> Option<Paging<'a>>
    ensures { option_map bare_paging result ≡ with_tab_width (bare_paging so_far.entry) value.now }
{
    match number(value) {
        0 => None,
        tabs => Some(Paging {
            tabs: usize::from(tabs),
            ..so_far
        }),
    }
}

// Where the words of a prompt end, before the first `?` or `%`.
fn words_end(bytes: &[u8]) -> usize
    ensures { result ≡ words_end 0 0 bytes.now }
{
    let mut end = 0;
    for (at, byte) in bytes.iter().enumerate() {
        match *byte {
            b'?' | b'%' => return end,
            b' ' => (),
            _ => end = at + 1,
        }
    }
    end
}

// The words of a prompt from a place on are what a text without a name is called.
fn with_name<'a>(so_far: Paging<'a>, prompt: &'a str, from: usize) -> Paging<'a>
    ensures { bare_paging result ≡ with_name (bare_paging so_far.entry) prompt.now from }
{
    let end = words_end(prompt.as_bytes());
    match cut(prompt, from, end) {
        "" => so_far,
        name => Paging {
            name: Some(name),
            ..so_far
        },
    }
}

// A prompt; the one of help, of `=` or of waiting names no text.
fn with_prompt<'a>(so_far: Paging<'a>, prompt: &'a str) -> Paging<'a>
    ensures { bare_paging result ≡ with_prompt (bare_paging so_far.entry) prompt.now }
{
    match prompt.as_bytes() {
        [b'h' | b'=' | b'w', ..] => so_far,
        [b's' | b'm' | b'M', b' ', ..] => with_name(so_far, prompt, 2),
        [b's' | b'm' | b'M', ..] => with_name(so_far, prompt, 1),
        _ => with_name(so_far, prompt, 0),
    }
}

/// An option with its value; nothing where that has to be a number, or a command, and is none.
pub(super) fn with_value<'a>(
    so_far: Paging<'a>,
    valued: Valued,
    value: &'a str,
) -> Option<Paging<'a>>
    ensures { option_map bare_paging result ≡ with_value (bare_paging so_far.entry) valued value.now }
{
    match valued {
        Valued::Text => Some(so_far),
        Valued::Number => {
            if is_number(value.as_bytes()) {
                Some(so_far)
            } else {
                None
            }
        }
        Valued::Tabs => with_tab_width(so_far, value.as_bytes()),
        Valued::Command => with_command(so_far, value),
        Valued::Pattern => Some(Paging {
            opening: Opening::Finds(value),
            ..so_far
        }),
        Valued::Prompt => Some(with_prompt(so_far, value)),
    }
}
