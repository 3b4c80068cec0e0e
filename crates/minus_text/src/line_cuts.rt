//! Rows of a line of printable ASCII, each cut from its last column back.
ghost use Rattle.std.specs.Prelude.{◌≡◌, ◌≢◌, ◌+◌, ◌-◌, ◌<◌, ◌≤◌, ◌^◌, ◌++◌, length, map, take, true, false, slice_index, IfSome, IfOk, OnOk};
ghost use Rattle.std.specs.List.{list_all};
ghost use Rattle.minus_text.specs.Plain.{is_printable};
ghost use Rattle.minus_text.specs.Kept.{moved};
ghost use Rattle.minus_text.specs.Rows.{line_places};
ghost use Rattle.minus_text.specs.LineCuts.{is_cut, HasNoCut, HasSpaces, CutsRow};

use crate::plain::are_printable;
use crate::rows::Span;
use std::alloc::AllocError;

// Where a row ends, and where the next one begins.
#[derive(Clone, Copy)]
struct RowCut {
    end: usize,
    next: usize,
}

// Whether a row that begins at one place may end before another: at a space, or behind a hyphen
// between ASCII letters or digits of the row.
fn is_cut(line: &[u8], start: usize, place: usize) -> bool
    requires { place < length line.now }
    ensures { result ≡ is_cut line.now start place }
{
    if line[place] == b' ' {
        return true;
    }
    if place < 2 || place - 2 < start || line[place - 1] != b'-' {
        return false;
    }
    line[place - 2].is_ascii_alphanumeric() && line[place].is_ascii_alphanumeric()
}

// The last place within the columns before which a row may end, or the row's start.
fn last_cut(line: &[u8], start: usize, cols: usize) -> usize
    requires { start + cols < length line.now }
    ensures least { start ≤ result }
    ensures most { result ≤ start + cols }
    ensures cut { start < result → is_cut line.now start result ≡ true }
    ensures none { HasNoCut line.now start result (start + cols) }
{
    let mut place = start + cols;
    while place > start && !is_cut(line, start, place) {
        place -= 1;
    }
    place
}

// Where the spaces before a place begin, from another place on.
fn before_spaces(line: &[u8], start: usize, place: usize) -> usize
    requires order { start ≤ place }
    requires within { place ≤ length line.now }
    ensures least { start ≤ result }
    ensures most { result ≤ place }
    ensures spaces { HasSpaces line.now result place }
    ensures other { start < result → slice_index line.now (result - 1) ≢ 32 }
{
    let mut end = place;
    while end > start && line[end - 1] == b' ' {
        end -= 1;
    }
    end
}

// Where the spaces from a place on end, up to another place.
fn behind_spaces(line: &[u8], place: usize, end: usize) -> usize
    requires order { place ≤ end }
    requires within { end ≤ length line.now }
    ensures least { place ≤ result }
    ensures most { result ≤ end }
    ensures spaces { HasSpaces line.now place result }
    ensures other { result < end → slice_index line.now result ≢ 32 }
{
    let mut next = place;
    while next < end && line[next] == b' ' {
        next += 1;
    }
    next
}

// The cut of a row at the spaces round a place, where the row has a body and another row follows.
fn cut_at_spaces(line: &[u8], start: usize, place: usize, end: usize) -> Option<RowCut>
    requires start { start < place }
    requires end { place < end }
    requires within { end ≤ length line.now }
    ensures order { IfSome result (λ cut. start < cut.end) }
    ensures end { IfSome result (λ cut. cut.end ≤ place) }
    ensures next { IfSome result (λ cut. place ≤ cut.next) }
    ensures within { IfSome result (λ cut. cut.next < end) }
    ensures spaces { IfSome result (λ cut. HasSpaces line.now cut.end cut.next) }
    ensures before { IfSome result (λ cut. slice_index line.now (cut.end - 1) ≢ 32) }
    ensures behind { IfSome result (λ cut. slice_index line.now cut.next ≢ 32) }
{
    let cut = RowCut {
        end: before_spaces(line, start, place),
        next: behind_spaces(line, place, end),
    };
    if cut.end > start && cut.next < end {
        Some(cut)
    } else {
        None
    }
}

// The cut of a row at the last column, inside a word that is too wide, where the row has no space
// before it and the next row begins with no hyphen, which could be a joint of the line.
fn cut_at_limit(line: &[u8], start: usize, cols: usize) -> Option<RowCut>
    requires { start + cols < length line.now }
    ensures end { IfSome result (λ cut. cut.end ≡ start + cols) }
    ensures next { IfSome result (λ cut. cut.next ≡ start + cols) }
    ensures some { IfSome result (λ cut. 0 < cols) }
    ensures body { IfSome result (λ cut. slice_index line.now start ≢ 32) }
    ensures other { IfSome result (λ cut. slice_index line.now (start + cols) ≢ 45) }
{
    let limit = start + cols;
    if cols == 0 || line[start] == b' ' || line[limit] == b'-' {
        return None;
    }
    Some(RowCut {
        end: limit,
        next: limit,
    })
}

// The cut of the row that begins at a place, in a line that goes on behind the columns up to an
// end; none where it is left to the pieces.
fn next_cut(line: &[u8], start: usize, end: usize, cols: usize) -> Option<RowCut>
    requires more { start + cols < end }
    requires within { end ≤ length line.now }
    ensures row { IfSome result (λ cut. CutsRow cols line.now start cut) }
    ensures start { IfSome result (λ cut. start ≤ cut.end) }
    ensures order { IfSome result (λ cut. cut.end ≤ cut.next) }
    ensures more { IfSome result (λ cut. start < cut.next) }
    ensures within { IfSome result (λ cut. cut.next < end) }
{
    let place = last_cut(line, start, cols);
    if place > start {
        if line[place] == b' ' {
            return cut_at_spaces(line, start, place, end);
        }
        return Some(RowCut {
            end: place,
            next: place,
        });
    }
    cut_at_limit(line, start, cols)
}

// Adds the rows of a line of printable ASCII that begins at a place of the text, or says that they
// are left to the pieces.
fn push_cuts(
    rows: &mut Vec<Span>,
    base: usize,
    line: &[u8],
    cols: usize,
) -> Result<bool, AllocError>
    requires room { base + length line.now < 2 ^ 64 }
    requires printable { list_all is_printable line.now ≡ true }
    ensures rows { IfOk result (λ all. all ≡ true →
        rows.new.items ≡ rows.old.items ++ map (moved base) (line_places cols line.now)) }
    ensures kept { OnOk result (take (length rows.old.items) rows.new.items ≡ rows.old.items) }
{
    let end = before_spaces(line, 0, line.len());
    let mut start = 0;
    while end - start > cols {
        let Some(cut) = next_cut(line, start, end, cols) else {
            return Ok(false);
        };
        rows.push(Span {
            start: base + start,
            end: base + cut.end,
        })?;
        start = cut.next;
    }
    rows.push(Span {
        start: base + start,
        end: base + end,
    })?;
    Ok(true)
}

// Adds the rows of a line that begins at a place of the text, if it is of printable ASCII and no row
// is left to the pieces; else adds nothing.
pub(crate) fn push_printable(
    rows: &mut Vec<Span>,
    base: usize,
    line: &str,
    cols: usize,
) -> Result<bool, AllocError>
    requires room { base + length line.now < 2 ^ 64 }
    ensures rows { IfOk result (λ all. all ≡ true →
        rows.new.items ≡ rows.old.items ++ map (moved base) (line_places cols line.now)) }
    ensures none { IfOk result (λ all. all ≡ false → rows.new.items ≡ rows.old.items) }
{
    let bytes = line.as_bytes();
    if !are_printable(bytes) {
        return Ok(false);
    }
    let len = rows.len();
    if push_cuts(rows, base, bytes, cols)? {
        return Ok(true);
    }
    rows.truncate(len);
    Ok(false)
}
