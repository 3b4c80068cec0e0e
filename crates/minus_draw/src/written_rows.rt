//! Stored rows that are handed in, written on a sink without a state.
ghost use Rattle.std.specs.Prelude.{◌≡◌, false, ◌++◌, map, string_bytes, OnOk, IfOk, IfErr};
ghost use Rattle.minus_term.specs.Counts.{Stays, RisesBy};
ghost use Rattle.minus_term.specs.FullRedraw.{row_ops};
ghost use Rattle.minus_term.specs.Written.{written_all};
ghost use Rattle.minus_draw.specs.WrittenRows.{row_from, lines_of_page, styled_row, styled_lines, styled_text};
ghost use Rattle.minus_draw.specs.WrittenRows.{AddsLines, AddsText, LinesRefused, TextRefused};

use minus_state::get_horizontal_scroll_bounds;
use minus_term::{
    MinusError, OutputSink, draw_bytes, page_len, top_of, write_page_start, write_row,
};
use minus_text::{LineNumbers, Row, crop_columns, prefix_columns};
use std::alloc::{AllocError, Global};
use std::convert::AsStr;

// How stored rows are shown.
#[derive(Clone, Copy)]
struct RowStyle {
    // Rows are as they are stored; otherwise they are cropped at the left mark.
    wrapping: bool,
    cols: usize,
    left_mark: usize,
    // Whether rows have numbers, and how many lines the text has that they are of.
    numbers: bool,
    line_count: usize,
}

// A stored row from the left mark on.
fn row_from(alloc: Global, row: &str, style: RowStyle) -> Result<Row, AllocError>
    ensures { IfOk result (λ r. string_bytes r
        ≡ row_from style.cols style.left_mark style.numbers style.line_count row.now) }
{
    let RowStyle {
        cols,
        left_mark,
        numbers,
        line_count,
        ..
    } = style;
    let (prefix, _, _) = get_horizontal_scroll_bounds(row, cols, left_mark, numbers, line_count);
    let width = cols.saturating_sub(prefix_columns(numbers, line_count));
    let text = crop_columns(alloc, &row[prefix..], left_mark, width)?;
    let mut shown = String::from_str(alloc, &row[..prefix])?;
    shown.push_str(text.as_str())?;
    Ok(shown)
}

// Adds what is shown of a stored row, and goes to the next.
fn push_shown(
    alloc: Global,
    bytes: &mut Vec<u8>,
    row: &str,
    style: RowStyle,
) -> Result<(), AllocError>
    ensures { OnOk result (bytes.new.items ≡ bytes.old.items
        ++ written_all (row_ops (styled_row style row.now))) }
{
    if style.wrapping {
        return write_row(bytes, row);
    }
    let shown = row_from(alloc, row, style)?;
    write_row(bytes, shown.as_str())
}

// Adds what is shown of stored rows.
fn push_lines<L: AsStr>(
    alloc: Global,
    bytes: &mut Vec<u8>,
    lines: &[L],
    style: RowStyle,
) -> Result<(), AllocError>
    ensures { OnOk result (bytes.new.items ≡ bytes.old.items
        ++ written_all (styled_lines style (map L.text lines.now))) }
{
    for line in lines {
        push_shown(alloc, bytes, line.as_str(), style)?;
    }
    Ok(())
}

/// Writes stored rows one below another, each after a carriage return and with a newline at its end, and settles the
/// sink. Where lines are wrapped, a row is as it is stored. Otherwise it shows its prefix, where it has a number, and
/// of its text what stands in the columns from the left mark on, counted from 0, as many as the prefix leaves of
/// `cols`. The text that the rows are of has `line_count` lines.
///
/// # Errors
///
/// [`MinusError::Memory`] where there is none for the bytes: nothing was written then. [`MinusError::Draw`] where the
/// sink refused a write or the flush: a beginning of the bytes was written.
pub fn write_lines<W: OutputSink, L: AsStr>(
    alloc: Global,
    out: &mut W,
    lines: &[L],
    cols: usize,
    wrapping: bool,
    left_mark: usize,
    numbers: bool,
    line_count: usize,
) -> Result<(), MinusError>
    ensures ok { OnOk result (AddsLines (W.seen out.old) (W.seen out.new)
        wrapping cols left_mark numbers line_count (map L.text lines.now)) }
    ensures stays { OnOk result (Stays (W.seen out.old).refusals (W.seen out.new).refusals) }
    ensures settled { OnOk result (RisesBy (W.seen out.old).settles (W.seen out.new).settles 1) }
    ensures err { IfErr result (λ e. LinesRefused W.seen e out.old out.new
        wrapping cols left_mark numbers line_count (map L.text lines.now)) }
{
    let style = RowStyle {
        wrapping,
        cols,
        left_mark,
        numbers,
        line_count,
    };
    let mut bytes = Vec::new(alloc);
    push_lines(alloc, &mut bytes, lines, style)?;
    draw_bytes(out, &bytes)?;
    Ok(())
}

/// Writes stored rows of lines that are not wrapped, from the left mark on, as [`write_lines`] does.
///
/// # Errors
///
/// [`MinusError::Memory`] where there is none for the bytes: nothing was written then. [`MinusError::Draw`] where the
/// sink refused a write or the flush: a beginning of the bytes was written.
pub fn write_lines_in_horizontal_scroll<W: OutputSink, L: AsStr>(
    alloc: Global,
    out: &mut W,
    lines: &[L],
    cols: usize,
    left_mark: usize,
    numbers: bool,
    line_count: usize,
) -> Result<(), MinusError>
    ensures ok { OnOk result (AddsLines (W.seen out.old) (W.seen out.new)
        false cols left_mark numbers line_count (map L.text lines.now)) }
    ensures stays { OnOk result (Stays (W.seen out.old).refusals (W.seen out.new).refusals) }
    ensures settled { OnOk result (RisesBy (W.seen out.old).settles (W.seen out.new).settles 1) }
    ensures err { IfErr result (λ e. LinesRefused W.seen e out.old out.new
        false cols left_mark numbers line_count (map L.text lines.now)) }
{
    write_lines(
        alloc, out, lines, cols, false, left_mark, numbers, line_count,
    )
}

// The lines on a page of this many rows, from the mark on, which is at most the one at which the last page is full.
fn lines_of_page<L>(lines: &[L], upper_mark: usize, rows: usize) -> &[L]
    ensures { result.now ≡ lines_of_page upper_mark rows lines.now }
{
    let rest = &lines[upper_mark.min(top_of(lines.len(), rows))..];
    &rest[..rest.len().min(page_len(rows))]
}

// Adds the lines on a page, on a screen that is cleared first.
fn push_text<L: AsStr>(
    alloc: Global,
    bytes: &mut Vec<u8>,
    lines: &[L],
    upper_mark: usize,
    rows: usize,
    style: RowStyle,
) -> Result<(), AllocError>
    ensures { OnOk result (bytes.new.items ≡ bytes.old.items
        ++ written_all (styled_text upper_mark rows style (map L.text lines.now))) }
{
    write_page_start(bytes)?;
    push_lines(alloc, bytes, lines_of_page(lines, upper_mark, rows), style)?;
    Ok(())
}

/// Clears the screen and writes the stored rows that stand on a page of `rows` rows, the last of which is the prompt's
/// and stays blank: those from `upper_mark` on, counted from 0, each as [`write_lines`] does, and settles the sink. A
/// mark past the one at which the last page is full is taken for that one.
///
/// # Errors
///
/// [`MinusError::Memory`] where there is none for the bytes: nothing was written then. [`MinusError::Draw`] where the
/// sink refused a write or the flush: a beginning of the bytes was written.
pub fn write_text_checked<W: OutputSink, L: AsStr>(
    alloc: Global,
    out: &mut W,
    lines: &[L],
    upper_mark: usize,
    rows: usize,
    cols: usize,
    wrapping: bool,
    left_mark: usize,
    line_numbers: LineNumbers,
    line_count: usize,
) -> Result<(), MinusError>
    ensures ok { OnOk result (AddsText (W.seen out.old) (W.seen out.new)
        upper_mark rows wrapping cols left_mark line_numbers line_count (map L.text lines.now)) }
    ensures stays { OnOk result (Stays (W.seen out.old).refusals (W.seen out.new).refusals) }
    ensures settled { OnOk result (RisesBy (W.seen out.old).settles (W.seen out.new).settles 1) }
    ensures err { IfErr result (λ e. TextRefused W.seen e out.old out.new
        upper_mark rows wrapping cols left_mark line_numbers line_count (map L.text lines.now)) }
{
    let style = RowStyle {
        wrapping,
        cols,
        left_mark,
        numbers: line_numbers.is_on(),
        line_count,
    };
    let mut page = Vec::new(alloc);
    push_text(alloc, &mut page, lines, upper_mark, rows, style)?;
    draw_bytes(out, &page)?;
    Ok(())
}
