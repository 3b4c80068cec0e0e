//! The pieces of a line, which stay on one row: words with the spaces after them, cut at hyphens and where they are
//! too wide.
ghost use Rattle.std.specs.Prelude.{◌≡◌, ◌<◌, ◌≤◌, ◌++◌, length, drop, map, chars, IfOk, OnOk};
ghost use Rattle.std.specs.List.{flat_map, prefix_len};
ghost use Rattle.minus_text.specs.Pieces.{pieces, is_space, body_len, fronts, with_spaces};
ghost use Rattle.minus_text.specs.Hyphens.{parts};
ghost use Rattle.minus_text.specs.Rows.{PiecesJoin};
ghost use Rattle.minus_text.specs.MeasuredPieces.{measure, SplitsFront, SplitsWord};

use crate::hyphens::{is_unhyphened, split_part};
use crate::units::{front, split_char, split_unit, units_columns};
use std::alloc::{AllocError, Global};

// A piece of a line: the bytes of its body, the columns of its body, and the spaces after it.
#[derive(Clone, Copy)]
pub(crate) struct Measured {
    pub(crate) len: usize,
    pub(crate) width: usize,
    pub(crate) spaces: usize,
}

// What follows the spaces at the start of a text.
fn past_spaces(text: &str) -> &str
    ensures chars { chars result.now ≡ drop (prefix_len is_space (chars text.now)) (chars text.now) }
    ensures room { length result.now ≤ length text.now }
{
    let mut rest = text;
    while let Some((c, more)) = split_char(rest) {
        if c != ' ' {
            return rest;
        }
        rest = more;
    }
    rest
}

// What follows the body of the first word: a byte that is 32 is a space wherever it stands.
fn past_body(text: &str) -> &str
    ensures chars { chars result.now ≡ drop (body_len (chars text.now)) (chars text.now) }
    ensures room { length result.now ≤ length text.now }
{
    let bytes = text.as_bytes();
    let mut at = 0;
    while at < bytes.len() && bytes[at] != b' ' {
        at += 1;
    }
    &text[at..]
}

// The longest front of a part that fits, as its columns and what follows it.
fn split_front(part: &str, cols: usize) -> (usize, &str)
    ensures front { 0 < length part.now → SplitsFront cols (chars part.now) result.0 (chars result.1.now) }
    ensures room { length result.1.now ≤ length part.now }
    ensures less { 0 < length part.now → length result.1.now < length part.now }
    ensures none { length part.now ≡ 0 → result.0 ≡ 0 }
{
    let mut width = 0;
    let mut wide = 0;
    let mut rest = part;
    while let Some((more, after)) = split_unit(rest) {
        let count = wide + usize::from(more > 0);
        if width + more > cols && count > 1 {
            return (width, rest);
        }
        width += more;
        wide = count;
        rest = after;
    }
    (width, rest)
}

// Adds the pieces of a part: its fronts, the last of which has the spaces.
fn push_part(
    pieces: &mut Vec<Measured>,
    part: &str,
    spaces: usize,
    cols: usize,
) -> Result<(), AllocError>
    ensures { OnOk result (pieces.new.items ≡ pieces.old.items
        ++ map measure (with_spaces (fronts cols (chars part.now)) spaces)) }
{
    let len = part.len();
    let width = units_columns(part);
    if width <= cols {
        pieces.push(Measured { len, width, spaces })?;
        return Ok(());
    }
    let mut rest = part;
    loop {
        let (width, more) = split_front(rest, cols);
        let len = rest.len() - more.len();
        if more.is_empty() {
            pieces.push(Measured { len, width, spaces })?;
            return Ok(());
        }
        pieces.push(Measured {
            len,
            width,
            spaces: 0,
        })?;
        rest = more;
    }
}

// Adds the pieces of a word.
fn push_word(
    pieces: &mut Vec<Measured>,
    body: &str,
    spaces: usize,
    cols: usize,
) -> Result<(), AllocError>
    ensures { OnOk result (pieces.new.items ≡ pieces.old.items
        ++ map measure (with_spaces (flat_map (fronts cols) (parts (chars body.now))) spaces)) }
{
    if is_unhyphened(body) {
        push_part(pieces, body, spaces, cols)?;
        return Ok(());
    }
    let mut rest = body;
    while let Some((part, more)) = split_part(rest) {
        push_part(pieces, part, 0, cols)?;
        rest = more;
    }
    push_part(pieces, rest, spaces, cols)?;
    Ok(())
}

// A word, the spaces after it, and what follows them.
#[derive(Clone, Copy)]
struct Word<'a> {
    body: &'a str,
    spaces: usize,
    rest: &'a str,
}

// The first word of a line.
fn split_word(line: &str) -> Word<'_>
    ensures word { 0 < length line.now →
        SplitsWord (chars line.now) (chars result.body.now) result.spaces (chars result.rest.now) }
    ensures less { 0 < length line.now → length result.rest.now < length line.now }
{
    let after = past_body(line);
    let rest = past_spaces(after);
    Word {
        body: front(line, after),
        spaces: after.len() - rest.len(),
        rest,
    }
}

// The pieces of a line.
pub(crate) fn line_pieces(
    alloc: Global,
    line: &str,
    cols: usize,
) -> Result<Vec<Measured>, AllocError>
    ensures { IfOk result (λ v. v.items ≡ map measure (pieces cols (chars line.now))) }
{
    let mut pieces = Vec::with_capacity(alloc, line.len() / 5)?;
    let mut rest = line;
    while !rest.is_empty() {
        let word = split_word(rest);
        push_word(&mut pieces, word.body, word.spaces, cols)?;
        rest = word.rest;
    }
    Ok(pieces)
}

/// The pieces of a line, one after another, are the line.
pub fn pieces_join()
    ensures { PiecesJoin }
{}
