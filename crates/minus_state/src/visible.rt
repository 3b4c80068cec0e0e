//! The visible characters of a row: those outside of `ESC[` sequences, the row taken as one piece.
ghost use Rattle.std.specs.Prelude.{◌≡◌, ◌<◌, ◌++◌, string_bytes, IfOk};
ghost use Rattle.minus_text.specs.TextUnits.{units_left, bytes_left};
ghost use Rattle.minus_state.specs.VisibleCharacters.{before_visible, behind_visible, text_of, place_of_visible, place_after_visible, marked, MarksAloneAreAdded};

use minus_text::units::bytes_len;
use minus_text::{Row, Units};
use std::alloc::{AllocError, Global};

const REVERSE_ON: &str = "\x1b[7m";

const REVERSE_OFF: &str = "\x1b[27m";

// The units from a visible character on, where this many come before it.
fn from_visible(units: Units<'_>, count: usize) -> Units<'_>
    ensures units { units_left result ≡ behind_visible count (units_left units.entry) }
    ensures bytes { bytes_left units.entry ≡ text_of (before_visible count (units_left units.entry))
        ++ bytes_left result }
{
    let mut left = count;
    let mut rest = units;
    while let Some((unit, more)) = rest.split_first() {
        if !unit.is_sequence {
            if left == 0 {
                return rest;
            }
            left -= 1;
        }
        rest = more;
    }
    rest
}

/// The place in a row's bytes where its visible character of this number, counted from 0, begins; the row's
/// end where it has none.
pub fn place_of_visible(row: &str, number: usize) -> usize
    ensures { result ≡ place_of_visible number row.now }
{
    row.len() - bytes_len(from_visible(Units::new(row), number))
}

/// The place in a row's bytes where its visible character of this number, counted from 0, ends; the row's
/// end where it has none.
pub fn place_after_visible(row: &str, number: usize) -> usize
    ensures { result ≡ place_after_visible number row.now }
{
    match from_visible(Units::new(row), number).split_first() {
        Some((_, rest)) => row.len() - bytes_len(rest),
        None => row.len(),
    }
}

/// A row with its visible characters from `start` up to but without `end`, counted from 0, shown in reverse:
/// `ESC[7m` right before the first, and `ESC[27m` right before the next visible character after the last, or
/// at the row's end where there is none. The row as it is where it has no such character.
///
/// # Errors
///
/// [`AllocError`] if memory runs out.
pub fn highlight_visible_range(
    alloc: Global,
    row: &str,
    start: usize,
    end: usize,
) -> Result<Row, AllocError>
    ensures { IfOk result (λ text. string_bytes text ≡ marked start end row.now) }
{
    let from = from_visible(Units::new(row), start);
    if start >= end || from.is_empty() {
        return String::from_str(alloc, row);
    }
    let first = row.len() - bytes_len(from);
    let last = row.len() - bytes_len(from_visible(from, end - start));
    let before = &row[..first];
    let marked = &row[first..last];
    let behind = &row[last..];
    format!(in alloc; "{before}{REVERSE_ON}{marked}{REVERSE_OFF}{behind}")
}

/// A highlighted row without its two markers is the row as it stood, or it has none.
pub fn markers_alone_are_added()
    ensures { MarksAloneAreAdded }
{}
