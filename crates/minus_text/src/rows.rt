//! The rows that a line fills: the longest runs of its pieces that fit.
ghost use Rattle.std.specs.Prelude.{◌≡◌, ◌+◌, ◌^◌, ◌<◌, ◌≤◌, List, [], ◌∷◌, length, take, drop, map, string_bytes, IsTrue, IfOk};
ghost use Rattle.std.specs.List.{sum_by};
ghost use Rattle.std.specs.Option.{SomeIff};
ghost use Rattle.minus_text.specs.Runs.{IsRun, AreRuns};
ghost use Rattle.minus_text.specs.Pieces.{pieces};
ghost use Rattle.minus_text.specs.Rows.{line_places, line_rows, ArePlaces, RowsAreDetermined, RowsFit};
ghost use Rattle.minus_text.specs.MeasuredPieces.{size, end_of, fits_measured, measured_places};

use crate::pieces::{Measured, line_pieces};
use crate::plain::is_printable;
use crate::screen::{Line, Rows};
use std::alloc::{AllocError, Global};

/// A part of a text, as two places in its bytes.
#[derive(Clone, Copy, Debug, PartialEq, Eq)]
pub struct Span {
    /// The place of its first byte, counted from 0.
    pub start: usize,
    /// The place behind its last byte, counted from 0.
    pub end: usize,
}

// A run at the front of some pieces: how many there are, where its text ends and where the next run begins.
#[derive(Clone, Copy)]
struct Run {
    count: usize,
    end: usize,
    next: usize,
}

// The columns with a gap and a piece behind them, where they fit.
fn joined(columns: usize, gap: usize, width: usize, cols: usize) -> Option<usize>
    ensures { SomeIff result ((columns + gap) + width ≤ cols) ((columns + gap) + width) }
{
    if columns <= cols && gap <= cols - columns && width <= cols - columns - gap {
        Some(columns + gap + width)
    } else {
        None
    }
}

// The longest run at the front that fits, whose bytes begin at a place.
fn first_run(pieces: &[Measured], at: usize, cols: usize) -> Run
    requires some { 0 < length pieces.now }
    requires small { at + sum_by size pieces.now < 2 ^ 64 }
    ensures count { result.count ≤ length pieces.now }
    ensures run { IsRun (fits_measured cols) (take result.count pieces.now) (drop result.count pieces.now) }
    ensures end { result.end ≡ end_of at (take result.count pieces.now) }
    ensures next { result.next ≡ at + sum_by size (take result.count pieces.now) }
{
    let mut columns = 0;
    let mut gap = 0;
    let mut end = at;
    let mut next = at;
    for (i, piece) in pieces.iter().enumerate() {
        columns = if i == 0 {
            piece.width
        } else {
            match joined(columns, gap, piece.width, cols) {
                Some(more) => more,
                None => return Run {
                    count: i,
                    end,
                    next,
                },
            }
        };
        gap = piece.spaces;
        end = next + piece.len;
        next = end + gap;
    }
    Run {
        count: pieces.len(),
        end,
        next,
    }
}

// The rows that pieces fill, as places in the bytes of their line.
fn fit(alloc: Global, pieces: &[Measured], cols: usize) -> Result<Vec<Span>, AllocError>
    requires { sum_by size pieces.now < 2 ^ 64 }
    ensures { IfOk result (λ rows. (runs : List (List Measured)) × AreRuns (fits_measured cols) pieces.now runs
        × (rows.items ≡ measured_places 0 runs)) }
{
    let mut rows = Vec::with_capacity(alloc, pieces.len() / 2)?;
    let mut at = 0;
    let mut done = 0;
    while done < pieces.len() {
        let run = first_run(&pieces[done..], at, cols);
        rows.push(Span {
            start: at,
            end: run.end,
        })?;
        at = run.next;
        done += run.count;
    }
    Ok(rows)
}

// Whether a line of printable ASCII is one row, all of it: it fits and does not end with a space.
fn is_one_row(line: &str, cols: usize) -> bool
    ensures { IsTrue result → line_places cols line.now ≡ record { start = 0; end = length line.now } ∷ [] }
{
    if line.len() <= cols && !line.ends_with(' ') {
        return is_printable(line);
    }
    false
}

/// The rows of a line for this many columns, as places in its bytes.
///
/// The line is cut into words with the spaces after them, a word after each hyphen between ASCII letters or digits,
/// and a part that is too wide into its longest fronts that fit; a row is the longest run of these pieces whose
/// columns without its last spaces are at most `cols`. An empty line has one empty row. Fails only if memory runs out.
pub fn wrap_line(alloc: Global, line: &str, cols: usize) -> Result<Vec<Span>, AllocError>
    ensures places { IfOk result (λ spans. spans.items ≡ line_places cols line.now) }
    ensures rows { IfOk result (λ spans. ArePlaces line.now spans.items (line_rows cols line.now)) }
{
    if line.is_empty() || is_one_row(line, cols) {
        let mut rows = Vec::new(alloc);
        rows.push(Span {
            start: 0,
            end: line.len(),
        })?;
        return Ok(rows);
    }
    let pieces = line_pieces(alloc, line, cols)?;
    let rows = fit(alloc, &pieces, cols)?;
    Ok(rows)
}

/// The rows of a line for this many columns, as texts. Fails only if memory runs out.
pub fn format_line(alloc: Global, line: Line<'_>, cols: usize) -> Result<Rows, AllocError>
    ensures { IfOk result (λ rows. map string_bytes rows.items ≡ line_rows cols line.now) }
{
    let spans = wrap_line(alloc, line, cols)?;
    let mut rows = Vec::new(alloc);
    for span in &spans {
        rows.push(String::from_str(alloc, &line[span.start..span.end])?)?;
    }
    Ok(rows)
}

/// Pieces are divided into rows in one way.
pub fn rows_are_determined()
    ensures { RowsAreDetermined }
{}

/// A row takes at most the columns, or holds one unit wider than them and otherwise only units without columns.
pub fn rows_fit()
    ensures { RowsFit }
{}
