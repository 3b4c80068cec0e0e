//! Where in an unfinished line forming can begin again.
ghost use Rattle.std.specs.Prelude.{◌≡◌, ◌+◌, ◌-◌, ◌<◌, ◌≤◌, length, drop};
ghost use Rattle.std.specs.Bool.{Decides};
ghost use Rattle.std.specs.List.{All};
ghost use Rattle.std.specs.Str.{IsUtf8};
ghost use Rattle.minus_text.specs.Kept.{GoesOn, open_stored};
ghost use Rattle.minus_text.specs.Seams.{StandsAlone, NoneAlone, RowsGoOn};

use crate::layout::Wrap;
use crate::rows::Span;

// A place in a line, in bytes, and how many rows stand before it.
#[derive(Clone, Copy)]
pub(crate) struct Seam {
    pub(crate) rows: usize,
    pub(crate) bytes: usize,
}

// Whether what stands at a place of a line needs nothing before it, however the line goes on: no
// carriage return that a newline takes away, and no hyphen behind which its word is cut, or may be yet.
fn stands_alone(line: &str, at: usize) -> bool
    ensures { Decides result (StandsAlone line.now at) }
{
    let bytes = line.as_bytes();
    if at >= bytes.len() {
        return false;
    }
    let goes_on = at + 1 < bytes.len();
    match bytes[at] {
        b'\r' => goes_on,
        b'-' => {
            at == 0
                || !bytes[at - 1].is_ascii_alphanumeric()
                || (goes_on && !bytes[at + 1].is_ascii_alphanumeric())
        }
        _ => true,
    }
}

// The last place of a line, no later than a border, at which a row begins that stands alone: the rows
// before it stay. It is the line's start where there is none. The line's rows are those from the first
// on, and it begins at a place of the text.
pub(crate) fn last_seam(line: &str, rows: &[Span], first: usize, base: usize, border: usize) -> Seam
    requires rows { first ≤ length rows.now }
    requires behind { All (λ r. base ≤ r.start) (drop first rows.now) }
    ensures goes_on { (wrap : Wrap) → IsUtf8 line.now → drop first rows.now ≡ open_stored wrap base line.now →
        GoesOn wrap line.now result.rows result.bytes }
    ensures border { result.bytes ≤ border }
    ensures last { NoneAlone line.now base border (drop (first + result.rows + 1) rows.now) }
{
    let mut i = rows.len();
    while i > first {
        i -= 1;
        let at = rows[i].start - base;
        if at <= border && stands_alone(line, at) {
            return Seam {
                rows: i - first,
                bytes: at,
            };
        }
    }
    Seam { rows: 0, bytes: 0 }
}

/// The rows of an unfinished line before one that stands alone stay however the line goes on, and the
/// others are those formed from that row on.
///
/// A row stands alone unless it begins with a carriage return at the line's end, which goes with a
/// newline, or with a hyphen behind an ASCII letter or digit where its word is cut, or may be yet.
pub fn rows_go_on()
    ensures { RowsGoOn }
{}
