//! The options that a text says, from the left: where each ends, and where its value stands.
ghost use Rattle.std.specs.Prelude.{◌≡◌, ◌+◌, ◌<◌, ◌≤◌, length, drop, true};
ghost use Rattle.std.specs.List.{prefix_len};
ghost use Rattle.std.specs.Str.{IsCharBoundary};
ghost use Rattle.minus_view.specs.Paging.{bare_paging};
ghost use Rattle.minus_view.specs.OptionWords.{is_between, cut, is_of, number_len, value_len};
ghost use Rattle.minus_view.specs.Paging.{begins_with};
ghost use Rattle.minus_view.specs.Reading.{begun_at, ended_at, known, named_end, long_item, item_of, bare_reading, first_of};
ghost use Rattle.minus_view.specs.Reading.{with_valued, with_kind, with_item, new_reading, read_options};

use super::Paging;
use super::option_effects::{with_setting, with_value};
use super::option_table::{Kind, Valued, letter_kind, name_kind};

/// What stands in options.
#[derive(Clone, Copy)]
enum Class {
    Blank,
    Name,
    Word,
    Text,
    Digits,
}

/// An option at the front of some bytes: its value, if it has one, stands from one place to another one, where the
/// next option begins.
#[derive(Clone, Copy)]
pub(super) struct Item {
    kind: Kind,
    from: usize,
    to: usize,
}

/// What a text of options says beside the options that were taken.
#[derive(Clone, Copy)]
pub(super) enum Ending {
    Nothing,
    Help,
    Version,
    Unknown,
    BadNumber,
    /// The value of the last option is to come.
    Waits(Valued),
}

/// The options that were read so far.
#[derive(Clone, Copy)]
pub(super) struct Reading<'a> {
    pub(super) paging: Paging<'a>,
    /// Whether options are set back.
    pub(super) resets: bool,
    /// The first one that there was.
    pub(super) ending: Ending,
}

// Whether a place in a text lies between two characters, or at an end.
fn is_between(text: &str, at: usize) -> bool
    ensures is { result ≡ is_between text.now at }
    ensures cuts { result ≡ true → IsCharBoundary text.now at }
{
    if at < text.len() {
        !(0x80..=0xBF).contains(&text.as_bytes()[at])
    } else {
        at == text.len()
    }
}

/// A text from one place to another one; no text where one of them lies in a character.
pub(super) fn cut(text: &str, from: usize, to: usize) -> &str
    ensures { result.now ≡ cut text.now from to }
{
    if from <= to && is_between(text, from) && is_between(text, to) {
        &text[from..to]
    } else {
        ""
    }
}

// What stands behind a place in a text, from one place there to another one.
fn cut_behind(text: &str, at: usize, from: usize, to: usize) -> &str
    requires from { at + from ≤ length text.now }
    requires to { at + to ≤ length text.now }
    ensures { result.now ≡ cut (drop at text.now) from to }
{
    cut(text, at + from, at + to)
}

// Whether a byte is one of these.
fn is_of(class: Class, byte: u8) -> bool
    ensures { result ≡ is_of class byte }
{
    match class {
        Class::Blank => matches!(byte, b' ' | b'\t'),
        Class::Name => !matches!(byte, b' ' | b'\t' | b'$' | b'='),
        Class::Word => !matches!(byte, b' ' | b'\t' | b'$'),
        Class::Text => byte != b'$',
        Class::Digits => matches!(byte, b'0'..=b'9' | b'.' | b','),
    }
}

// How many bytes at the front are of these.
fn run_of(class: Class, bytes: &[u8]) -> usize
    ensures is { result ≡ prefix_len (is_of class) bytes.now }
    ensures within { result ≤ length bytes.now }
{
    for (at, byte) in bytes.iter().enumerate() {
        if !is_of(class, *byte) {
            return at;
        }
    }
    bytes.len()
}

/// The length of a number.
pub(super) fn number_len(bytes: &[u8]) -> usize
    ensures is { result ≡ number_len bytes.now }
    ensures within { result ≤ length bytes.now }
{
    match bytes {
        [b'-', digits @ ..] => run_of(Class::Digits, digits) + 1,
        _ => run_of(Class::Digits, bytes),
    }
}

// The length of a value.
fn value_len(valued: Valued, bytes: &[u8]) -> usize
    ensures is { result ≡ value_len valued bytes.now }
    ensures within { result ≤ length bytes.now }
{
    match valued {
        Valued::Number | Valued::Tabs => number_len(bytes),
        Valued::Text | Valued::Pattern | Valued::Prompt | Valued::Command => {
            run_of(Class::Text, bytes)
        }
    }
}

// An option whose value begins at a place.
fn begun_at(valued: Valued, bytes: &[u8], from: usize) -> Item
    requires { from ≤ length bytes.now }
    ensures is { result ≡ begun_at valued bytes.now from }
    ensures after { from ≤ result.to }
    ensures order { result.from ≤ result.to }
    ensures within { result.to ≤ length bytes.now }
{
    let to = from + value_len(valued, &bytes[from..]);
    Item {
        kind: Kind::Takes(valued),
        from,
        to,
    }
}

// An option that ends at a place, but for its value.
fn ended_at(kind: Kind, bytes: &[u8], end: usize) -> Item
    requires { end ≤ length bytes.now }
    ensures is { result ≡ ended_at kind bytes.now end }
    ensures after { end ≤ result.to }
    ensures order { result.from ≤ result.to }
    ensures within { result.to ≤ length bytes.now }
{
    match kind {
        Kind::Takes(valued) => begun_at(valued, bytes, end + run_of(Class::Blank, &bytes[end..])),
        _ => Item {
            kind,
            from: end,
            to: end,
        },
    }
}

// Whether bytes begin with this one.
fn begins_with(first: u8, bytes: &[u8]) -> bool
    ensures is { result ≡ begins_with first bytes.now }
    ensures some { result ≡ true → 0 < length bytes.now }
{
    match bytes {
        [byte, ..] => *byte == first,
        [] => false,
    }
}

// A named option, behind which `=` stands or not: that may not stand behind one without a value.
fn known(kind: Kind, is_told: bool) -> Kind
    ensures { result ≡ known kind is_told }
{
    match kind {
        Kind::Takes(_) => kind,
        _ if is_told => Kind::Unknown,
        _ => kind,
    }
}

// Where a named option ends: all of the word is one that there is not.
fn named_end(kind: Kind, is_told: bool, bytes: &[u8], end: usize) -> usize
    requires two { 2 ≤ end }
    requires within { end ≤ length bytes.now }
    requires told { is_told ≡ true → end < length bytes.now }
    ensures is { result ≡ named_end kind is_told bytes.now end }
    ensures some { 2 ≤ result }
    ensures within { result ≤ length bytes.now }
{
    match kind {
        Kind::Unknown => 2 + run_of(Class::Word, &bytes[2..]),
        _ if is_told => end + 1,
        _ => end,
    }
}

// An option by its name, behind `--`.
fn long_item(text: &str, at: usize) -> Item
    requires { at + 2 ≤ length text.now }
    ensures is { result ≡ long_item (drop at text.now) }
    ensures some { 0 < result.to }
    ensures order { result.from ≤ result.to }
    ensures within { at + result.to ≤ length text.now }
{
    let bytes = &text.as_bytes()[at..];
    let end = 2 + run_of(Class::Name, &bytes[2..]);
    let is_told = begins_with(b'=', &bytes[end..]);
    let kind = known(name_kind(cut_behind(text, at, 2, end)), is_told);
    ended_at(kind, bytes, named_end(kind, is_told, bytes, end))
}

// The first option of a text from a place on.
fn item_at(text: &str, at: usize) -> Item
    requires { at < length text.now }
    ensures is { result ≡ item_of (drop at text.now) }
    ensures some { 0 < result.to }
    ensures order { result.from ≤ result.to }
    ensures within { at + result.to ≤ length text.now }
{
    let bytes = &text.as_bytes()[at..];
    if !begins_with(b'-', bytes) {
        return ended_at(letter_kind(bytes[0]), bytes, 1);
    }
    if begins_with(b'-', &bytes[1..]) {
        return long_item(text, at);
    }
    if begins_with(b'+', &bytes[1..]) {
        return ended_at(Kind::Begins(true), bytes, 2);
    }
    ended_at(Kind::Begins(false), bytes, 1)
}

// What was read first stays.
fn first_of(before: Ending, now: Ending) -> Ending
    ensures { result ≡ first_of before now }
{
    match before {
        Ending::Nothing => now,
        _ => before,
    }
}

// An option that has a value.
fn with_valued<'a>(so_far: Reading<'a>, valued: Valued, value: &'a str, ends: bool) -> Reading<'a>
    ensures { bare_reading result ≡ with_valued (bare_reading so_far.entry) valued value.now ends }
{
    if ends {
        return Reading {
            ending: first_of(so_far.ending, Ending::Waits(valued)),
            ..so_far
        };
    }
    match with_value(so_far.paging, valued, value) {
        Some(paging) => Reading { paging, ..so_far },
        None => Reading {
            ending: first_of(so_far.ending, Ending::BadNumber),
            ..so_far
        },
    }
}

// An option that has no value.
fn with_kind<'a>(so_far: Reading<'a>, kind: Kind) -> Reading<'a>
    ensures { bare_reading result ≡ with_kind (bare_reading so_far.entry) kind }
{
    let ending = match kind {
        Kind::Sets(setting) => {
            return Reading {
                paging: with_setting(so_far.paging, so_far.resets, setting),
                ..so_far
            };
        }
        Kind::Begins(resets) => return Reading { resets, ..so_far },
        Kind::Takes(valued) => Ending::Waits(valued),
        Kind::Help => Ending::Help,
        Kind::Version => Ending::Version,
        Kind::Unknown => Ending::Unknown,
    };
    Reading {
        ending: first_of(so_far.ending, ending),
        ..so_far
    }
}

// An option, with its value if it has one.
fn with_item<'a>(so_far: Reading<'a>, kind: Kind, value: &'a str, ends: bool) -> Reading<'a>
    ensures { bare_reading result ≡ with_item (bare_reading so_far.entry) kind value.now ends }
{
    match kind {
        Kind::Takes(valued) => with_valued(so_far, valued, value, ends),
        _ => with_kind(so_far, kind),
    }
}

/// What a text of options says behind what was said before.
pub(super) fn read_options<'a>(paging: Paging<'a>, text: &'a str) -> Reading<'a>
    ensures { bare_reading result ≡ read_options (new_reading (bare_paging paging.entry)) 0 text.now }
{
    let mut reading = Reading {
        paging,
        resets: false,
        ending: Ending::Nothing,
    };
    let mut at = 0;
    while at < text.len() {
        let item = item_at(text, at);
        let value = cut_behind(text, at, item.from, item.to);
        reading = with_item(reading, item.kind, value, item.from == text.len() - at);
        at += item.to;
    }
    reading
}
