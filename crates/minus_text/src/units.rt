//! The units of a text taken as one piece: escape sequences and characters, one after another.
ghost use Rattle.std.specs.Prelude.{◌≡◌, ℕ, ◌+◌, ◌*◌, ◌^◌, ◌<◌, ◌≤◌, List, [], ◌∷◌, ◌++◌, length, drop, chars, encode_utf8, true, false, ◌==◌, IfSome, IfNone, MatchOption};
ghost use Rattle.std.specs.Char.{len_utf8};
ghost use Rattle.std.specs.List.{position_or_len, sum_by, list_all};
ghost use Rattle.minus_text.specs.Units.{char_columns, is_final, begins_sequence, units, unit_columns, unit_columns_in, body_of, columns};
ghost use Rattle.minus_text.specs.Plain.{is_printable};
ghost use Rattle.minus_text.specs.MeasuredPieces.{SplitsUnit};
ghost use Rattle.std.specs.Str.{encode_utf8_all};
ghost use Rattle.minus_text.specs.Singles.{singles};
ghost use Rattle.minus_text.specs.TextUnits.{text_units, units_left, bytes_left};

use crate::plain::{is_printable, is_unescaped, printable_front};
use unicode_width::UnicodeWidthChar;

/// A unit of a text: an `ESC[` sequence, which takes no columns, or a character with its columns.
#[derive(Clone, Copy)]
pub struct Unit<'t> {
    /// The sequence or the character.
    pub text: &'t str,
    /// How many columns it takes.
    pub columns: usize,
    /// Whether it is a sequence.
    pub is_sequence: bool,
}

/// What is left of the units of a text.
#[derive(Clone, Copy)]
pub struct Units<'t> {
    body: &'t str,
    spaces: usize,
}

// The first character of a text, and what follows it.
pub(crate) fn split_char(text: &str) -> Option<(char, &str)>
    ensures chars { MatchOption result (chars text.now ≡ []) (λ x. chars text.now ≡ x.0 ∷ chars x.1.now) }
    ensures bytes { IfSome result (λ x. text.now ≡ encode_utf8 x.0 ++ x.1.now) }
    ensures room { IfSome result (λ x. len_utf8 x.0 + length x.1.now ≡ length text.now) }
    ensures none { IfNone result (length text.now ≡ 0) }
{
    let mut rest = text.chars();
    match rest.next() {
        Some(c) => Some((c, rest.as_str())),
        None => None,
    }
}

// The columns of a character: none where it has no width.
pub(crate) fn char_columns(c: char) -> usize
    ensures value { result ≡ char_columns c }
    ensures few { result ≤ 2 * len_utf8 c }
{
    c.width().unwrap_or(0)
}

// What an escape sequence has from its final character on, where its `ESC[` is gone: a byte that ends
// one does so wherever it stands.
pub(crate) fn past_parameters(text: &str) -> &str
    ensures chars { chars result.now ≡ drop (position_or_len is_final (chars text.now)) (chars text.now) }
    ensures room { length result.now ≤ length text.now }
{
    let bytes = text.as_bytes();
    let mut at = 0;
    while at < bytes.len() && !matches!(bytes[at], b'\x40'..=b'\x7e') {
        at += 1;
    }
    &text[at..]
}

// What follows the end of an escape sequence whose `ESC[` is gone.
fn past_sequence(text: &str) -> &str
    ensures chars { chars result.now ≡ drop (position_or_len is_final (chars text.now) + 1) (chars text.now) }
    ensures room { length result.now ≤ length text.now }
{
    let end = past_parameters(text);
    match split_char(end) {
        Some((_, rest)) => rest,
        None => end,
    }
}

// What follows `ESC[`, where a text begins with it.
pub(crate) fn strip_escape(text: &str) -> Option<&str>
    ensures inside { MatchOption result (begins_sequence (chars text.now) ≡ false)
        (λ x. chars text.now ≡ 27 ∷ 91 ∷ chars x.now) }
    ensures less { IfSome result (λ x. length x.now < length text.now) }
{
    let Some(('\x1b', rest)) = split_char(text) else {
        return None;
    };
    match split_char(rest) {
        Some(('[', inside)) => Some(inside),
        _ => None,
    }
}

// The columns of the first unit of a text, and what follows it.
pub(crate) fn split_unit(text: &str) -> Option<(usize, &str)>
    ensures unit { MatchOption result (chars text.now ≡ []) (λ x. SplitsUnit (chars text.now) x.0 (chars x.1.now)) }
    ensures room { IfSome result (λ x. x.0 + 2 * length x.1.now ≤ 2 * length text.now) }
    ensures less { IfSome result (λ x. length x.1.now < length text.now) }
    ensures none { IfNone result (length text.now ≡ 0) }
{
    let Some((c, rest)) = split_char(text) else {
        return None;
    };
    if c != '\x1b' {
        return Some((char_columns(c), rest));
    }
    match strip_escape(text) {
        Some(inside) => Some((0, past_sequence(inside))),
        None => Some((char_columns(c), rest)),
    }
}

// The columns of the characters of printable ASCII at the front of a text, or else of its first
// unit, and what follows them.
fn split_columns(text: &str) -> Option<(usize, &str)>
    ensures columns { MatchOption result (chars text.now ≡ [])
        (λ x. unit_columns_in (chars text.now) ≡ x.0 + unit_columns_in (chars x.1.now)) }
    ensures room { IfSome result (λ x. x.0 + 2 * length x.1.now ≤ 2 * length text.now) }
    ensures less { IfSome result (λ x. length x.1.now < length text.now) }
{
    let front = printable_front(text);
    if front > 0 {
        return Some((front, &text[front..]));
    }
    split_unit(text)
}

// The columns of the units of a text.
pub(crate) fn units_columns(text: &str) -> usize
    ensures value { result ≡ sum_by unit_columns (units (chars text.now)) }
    ensures few { result ≤ 2 * length text.now }
{
    let mut width = 0;
    let mut rest = text;
    while let Some((more, after)) = split_columns(rest) {
        width += more;
        rest = after;
    }
    width
}

// What stands before the rest of a text.
pub(crate) fn front<'a>(text: &'a str, rest: &str) -> &'a str
    requires { (f : List ℕ) × (text.now ≡ f ++ rest.now) }
    ensures { text.now ≡ result.now ++ rest.now }
{
    &text[..text.len() - rest.len()]
}

// A text without the spaces that end it.
pub(crate) fn without_spaces(text: &str) -> &str
    ensures body { chars result.now ≡ body_of (chars text.now) }
    ensures spaces { length text.now + length (chars result.now) ≡ length (chars text.now) + length result.now }
    ensures room { length result.now ≤ length text.now }
{
    let mut body = text;
    while let Some(front) = body.strip_suffix(' ') {
        body = front;
    }
    body
}

// The columns of the characters of a text.
fn chars_columns(text: &str) -> usize
    ensures { result ≡ sum_by char_columns (chars text.now) }
{
    let mut width = 0;
    let mut rest = text;
    while let Some((c, after)) = split_char(rest) {
        width += char_columns(c);
        rest = after;
    }
    width
}

/// The columns of a text taken as one piece: an `ESC[` sequence up to its final character takes none, any other
/// character those of `unicode_width`, one without width none, and a space at the end one.
pub fn columns(text: &str) -> usize
    ensures { result ≡ columns text.now }
{
    if is_printable(text) {
        return text.len();
    }
    if is_unescaped(text) {
        return chars_columns(text);
    }
    let body = without_spaces(text);
    units_columns(body) + (text.len() - body.len())
}

/// How many bytes are left. The caller knows that they are those of a text, and so that a number counts them.
pub fn bytes_len(left: Units<'_>) -> usize
    requires { length (bytes_left left) < 2 ^ 64 }
    ensures { result ≡ length (bytes_left left.entry) }
{
    left.body.len() + left.spaces
}

impl<'t> Units<'t> {
    /// All units of a text taken as one piece: those of its body, and the spaces at its end.
    pub fn new(text: &'t str) -> Units<'t>
        ensures units { units_left result ≡ text_units (chars text.now) }
        ensures bytes { bytes_left result ≡ text.now }
    {
        let body = without_spaces(text);
        Units {
            body,
            spaces: text.len() - body.len(),
        }
    }

    /// Whether no unit is left.
    pub fn is_empty(self) -> bool
        ensures { result ≡ (length (units_left self.entry) == 0) }
    {
        self.body.is_empty() && self.spaces == 0
    }

    // The characters of printable ASCII at the front, each a unit, and what is left behind them.
    pub(crate) fn split_printable(self) -> (&'t str, Units<'t>)
        ensures units { units_left self.entry ≡ singles result.0.now ++ units_left result.1 }
        ensures printable { list_all is_printable result.0.now ≡ true }
        ensures bytes { bytes_left self.entry ≡ result.0.now ++ bytes_left result.1 }
    {
        let (run, rest) = self.body.split_at(printable_front(self.body));
        let behind = Units {
            body: rest,
            spaces: self.spaces,
        };
        (run, behind)
    }

    /// The first unit, and what is left behind it.
    pub fn split_first(self) -> Option<(Unit<'t>, Units<'t>)>
        ensures units { MatchOption result (units_left self.entry ≡ [])
            (λ x. units_left self.entry ≡ chars x.0.text.now ∷ units_left x.1) }
        ensures text { IfSome result (λ x. x.0.text.now ≡ encode_utf8_all (chars x.0.text.now)) }
        ensures columns { IfSome result (λ x. x.0.columns ≡ unit_columns (chars x.0.text.now)) }
        ensures sequence { IfSome result (λ x. x.0.is_sequence ≡ begins_sequence (chars x.0.text.now)) }
        ensures bytes { IfSome result (λ x. bytes_left self.entry ≡ x.0.text.now ++ bytes_left x.1) }
        ensures room { IfSome result (λ x.
            x.0.columns + 2 * length (bytes_left x.1) ≤ 2 * length (bytes_left self.entry)) }
        ensures less { IfSome result (λ x. length (bytes_left x.1) < length (bytes_left self.entry)) }
    {
        if let Some((columns, rest)) = split_unit(self.body) {
            let text = front(self.body, rest);
            let unit = Unit {
                text,
                columns,
                is_sequence: strip_escape(text).is_some(),
            };
            let left = Units {
                body: rest,
                spaces: self.spaces,
            };
            return Some((unit, left));
        }
        if self.spaces == 0 {
            return None;
        }
        let space = Unit {
            text: " ",
            columns: 1,
            is_sequence: false,
        };
        let left = Units {
            body: self.body,
            spaces: self.spaces - 1,
        };
        Some((space, left))
    }
}
