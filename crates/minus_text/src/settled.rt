//! How far an unfinished line is measured: units that stay as they are whatever follows them.
ghost use Rattle.std.specs.Prelude.{◌+◌, ◌*◌, ◌<◌, ◌≤◌, length, chars, IfSome};
ghost use Rattle.minus_text.specs.Kept.{IsBorder};
ghost use Rattle.minus_text.specs.Settled.{SettlesFirst};

use crate::formed::Border;
use crate::units::{char_columns, past_parameters, split_char, strip_escape};

// The columns of the first unit of a text, and what follows it, where the unit stays as it is
// whatever follows: a sequence that has its end, or a character, but no ESC, and no carriage return,
// which goes with a newline.
fn split_settled(text: &str) -> Option<(usize, &str)>
    ensures unit { IfSome result (λ x. SettlesFirst (chars text.now) x.0 (chars x.1.now)) }
    ensures room { IfSome result (λ x. x.0 + 2 * length x.1.now ≤ 2 * length text.now) }
    ensures less { IfSome result (λ x. length x.1.now < length text.now) }
{
    let Some((c, rest)) = split_char(text) else {
        return None;
    };
    if c == '\r' {
        return None;
    }
    if c != '\x1b' {
        return Some((char_columns(c), rest));
    }
    let Some(inside) = strip_escape(text) else {
        return None;
    };
    match split_char(past_parameters(inside)) {
        Some((_, after)) => Some((0, after)),
        None => None,
    }
}

// How far a text is measured: the front of it, and its columns, to which those of what follows add.
pub(crate) fn settled(text: &str) -> Border
    ensures { IsBorder text.now result }
{
    let mut width = 0;
    let mut rest = text;
    while let Some((more, after)) = split_settled(rest) {
        width += more;
        rest = after;
    }
    Border {
        bytes: text.len() - rest.len(),
        columns: width,
    }
}
