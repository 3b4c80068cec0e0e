//! What of a row stands in the columns of the screen.
ghost use Rattle.std.specs.Prelude.{◌≡◌, ◌+◌, ◌&&◌, ◌<◌, nat_lt, [], Some, None, if◌then◌else◌};
ghost use Rattle.minus_text.specs.Crop.{is_inside};
ghost use Rattle.minus_state.specs.LineBounds.{IsLastCut, prefix_bytes, AreScrollBounds, joined, seen_range};
ghost use Rattle.minus_state.specs.VisibleCharacters.{row_units};

use minus_text::{Units, Window, prefix_columns};

// Where the prefix of a line ends.
fn prefix_end(line: &str, numbers: bool, line_count: usize) -> usize
    ensures { IsLastCut line.now (prefix_bytes numbers line_count) result }
{
    if numbers {
        line.floor_char_boundary(prefix_columns(numbers, line_count) + 8)
    } else {
        0
    }
}

// Whether this many columns from one on are some, and all are shown.
fn is_seen(window: Window, at: usize, columns: usize) -> bool
    ensures { result ≡ (nat_lt 0 columns && is_inside window.left window.width at columns) }
{
    if columns > 0 {
        return window.is_inside(at, columns);
    }
    false
}

// A range that goes on to the end of a part that is seen, or begins with it.
fn gone_on(
    range: Option<(usize, usize)>,
    seen: bool,
    start: usize,
    end: usize,
) -> Option<(usize, usize)>
    ensures { result ≡ joined range (if seen then Some (start, end) else None) }
{
    if !seen {
        return range;
    }
    match range {
        Some((first, _)) => Some((first, end)),
        None => Some((start, end)),
    }
}

// From where the first unit with columns that stands in a window begins to where the last one ends, in bytes.
fn seen_range(text: &str, window: Window) -> Option<(usize, usize)>
    ensures { result ≡ seen_range window.left window.width [] (row_units text.now) }
{
    let mut range = None;
    let mut at = 0;
    let mut bytes = 0;
    let mut rest = Units::new(text);
    while let Some((unit, more)) = rest.split_first() {
        let end = bytes + unit.text.len();
        range = gone_on(range, is_seen(window, at, unit.columns), bytes, end);
        at += unit.columns;
        bytes = end;
        rest = more;
    }
    range
}

/// The places in the bytes of a line, taken as a row with its prefix, that show the columns from `start` on,
/// counted from 0, of `cols` columns less those of the prefix: where the prefix ends (0 where numbers are
/// off; never inside a character), where the first unit with columns that is shown whole begins, and where
/// the last one ends; with none, twice the line's end.
pub fn get_horizontal_scroll_bounds(
    line: &str,
    cols: usize,
    start: usize,
    numbers: bool,
    line_count: usize,
) -> (usize, usize, usize)
    ensures { AreScrollBounds line.now cols start numbers line_count result.0 (result.1, result.2) }
{
    let prefix = prefix_end(line, numbers, line_count);
    let window = Window {
        left: start,
        width: cols.saturating_sub(prefix_columns(numbers, line_count)),
    };
    match seen_range(&line[prefix..], window) {
        Some((first, last)) => (prefix, prefix + first, prefix + last),
        None => (prefix, line.len(), line.len()),
    }
}
