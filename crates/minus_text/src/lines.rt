//! Lines of a text, one at a time.
ghost use Rattle.std.specs.Prelude.{◌≡◌, ◌+◌, ◌<◌, ◌≤◌, ◌^◌, length, string_bytes, IfOk, IfSome, MatchOption};
ghost use Rattle.std.specs.Str.{IsCharBoundary};
ghost use Rattle.std.specs.Str.Lines.{strip_carriage_return};
ghost use Rattle.minus_text.specs.Lines.{cut, whole, behind, LinesAreCut};
ghost use Rattle.minus_text.specs.LinePlaces.{joined_lines, last_line_end};
ghost use Rattle.minus_text.specs.LineParts.{PartsAreOfLines};
ghost use Rattle.minus_text.specs.RowHomes.{RowsStandInLines};

use memchr::memchr;
use std::alloc::{AllocError, Global};

// A line without the carriage return at its end.
pub(crate) fn without_return(line: &str) -> &str
    ensures { result.now ≡ strip_carriage_return line.now }
{
    match line.strip_suffix('\r') {
        Some(front) => front,
        None => line,
    }
}

// How many newlines a text has: a byte that is 10 is one wherever it stands.
pub(crate) fn newlines(text: &str) -> usize
    ensures value { result ≡ length (cut text.now).closed }
    ensures few { result ≤ length text.now }
    ensures small { result < 2 ^ 63 }
{
    let mut count = 0;
    for &b in text.as_bytes() {
        count += usize::from(b == b'\n');
    }
    count
}

// The first line that a newline ends, and what follows the newline.
pub(crate) fn split_line(text: &str) -> Option<(&str, &str)>
    ensures cut { MatchOption result (cut text.now ≡ whole text.now)
        (λ x. cut text.now ≡ behind x.0.now (cut x.1.now)) }
    ensures room { IfSome result (λ x. (length x.0.now + 1) + length x.1.now ≡ length text.now) }
{
    match memchr(b'\n', text.as_bytes()) {
        Some(place) => Some((&text[..place], &text[place + 1..])),
        None => None,
    }
}

/// The lines of a text, joined by newlines: the text without the carriage return at the end of each line
/// that a newline ends. Fails only if memory runs out.
pub fn join_lines(alloc: Global, text: &str) -> Result<String, AllocError>
    ensures { IfOk result (λ joined. string_bytes joined ≡ joined_lines text.now) }
{
    let mut joined = String::new(alloc);
    let mut rest = text;
    while let Some((line, more)) = split_line(rest) {
        joined.push_str(without_return(line))?;
        joined.push_str("\n")?;
        rest = more;
    }
    joined.push_str(rest)?;
    Ok(joined)
}

/// The place in the bytes of a text where its last line ends: before the newline that ends the text, and a
/// carriage return before that, or else at the text's end.
pub fn last_line_end(text: &str) -> usize
    ensures value { result ≡ last_line_end text.now }
    ensures boundary { IsCharBoundary text.now result }
{
    match text.strip_suffix('\n') {
        Some(front) => without_return(front).len(),
        None => text.len(),
    }
}

/// The lines of a text are those that a newline ends, each less its carriage return, and what
/// follows the last newline if that is not empty.
pub fn lines_are_cut()
    ensures { LinesAreCut }
{}

/// The part of a text between two places in its lines, its lines joined by newlines, is the part of the
/// lines between these places.
pub fn parts_are_of_lines()
    ensures { PartsAreOfLines }
{}

/// The place of a row in a text is its place in its line, behind where the line begins.
pub fn rows_stand_in_lines()
    ensures { RowsStandInLines }
{}
