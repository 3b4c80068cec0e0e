//! Calls that put the rows of a text into a buffer.
ghost use Rattle.std.specs.Prelude.{◌≡◌, ◌^◌, ◌<◌, ◌++◌, map, true, option_map, string_bytes, IfOk, IfErr, OnOk, OnErr};
ghost use Rattle.minus_text.specs.FoundRows.{pattern_of};
ghost use Rattle.minus_text.specs.Blocks.{block_rows, TellsBlock};
ghost use Rattle.minus_text.specs.Formats.{block_with, block_of, term_of, attaches_none};

use crate::block::{FormattedBlock, put_block};
use crate::buffers::AppendableBuffer;
use crate::layout::Layout;
use crate::line_numbers::LineNumbers;
use crate::screen::{FormatResult, Rows, TextBlock};
use crate::search::Term;
use minus_term::error::MinusError;
use std::alloc::{AllocError, Global};

// This many lines and rows are counted before a text at most: no text in memory has more.
const MOST_BEFORE: usize = 0x7fff_ffff_ffff_ffff;

/// A text that is to be formatted, and what takes its rows.
pub struct FormatOpts<'a, B> {
    /// The rows are put at the end of it.
    pub buffer: &'a mut B,
    /// The text.
    pub text: TextBlock<'a>,
    /// The line that the text goes on in, if a newline does not end the last one before it. It is
    /// formatted again with the text.
    pub attachment: Option<TextBlock<'a>>,
    /// Whether rows begin with the numbers of their lines.
    pub line_numbers: LineNumbers,
    /// How many lines there are before the text, with the attachment. More than 2^63 - 1 count as this many.
    pub lines_count: usize,
    /// How many rows these lines have. More than 2^63 - 1 count as this many.
    pub formatted_lines_count: usize,
    /// The columns of a row.
    pub cols: usize,
    /// How many of those rows are the attachment's.
    pub prev_unterminated: usize,
    /// The term whose matches are shown in reverse.
    pub search_term: Option<Term<'a>>,
    /// Whether a line that is too long for the columns fills several rows.
    pub line_wrapping: bool,
}

// Forms a text behind this many lines and rows, with what is attached in front of it.
fn form_with(
    alloc: Global,
    attachment: Option<&str>,
    text: &str,
    layout: Layout,
    lines: usize,
    rows: usize,
    unterminated: usize,
) -> Result<FormattedBlock, AllocError>
    requires lines { lines < 2 ^ 63 }
    requires rows { rows < 2 ^ 63 }
    ensures { IfOk result (λ b. b
        ≡ block_with (option_map (λ a. a.now) attachment.entry) text.now layout lines rows unterminated) }
{
    let Some(front) = attachment else {
        let whole = String::from_str(alloc, text)?;
        let block = FormattedBlock::new(alloc, whole, layout, lines, rows)?;
        return Ok(block);
    };
    let mut whole = String::from_str(alloc, front)?;
    whole.push_str(text)?;
    let lines_before = lines.saturating_sub(1);
    let first_row = rows.saturating_sub(unterminated);
    let block = FormattedBlock::new(alloc, whole, layout, lines_before, first_row)?;
    Ok(block)
}

/// Puts the rows of a text at the end of a buffer, as they are stored: numbers before them where these
/// are on, the matches of the term in reverse. The result reports the attachment and the text.
///
/// # Errors
///
/// [`MinusError::Memory`] where there is no memory for it. The buffer has the rows then that it had.
pub fn format_text_block<B: AppendableBuffer>(
    alloc: Global,
    opts: FormatOpts<'_, B>,
) -> Result<FormatResult, MinusError>
    ensures rows { OnOk result (B.rows opts.exit.0.now ≡ B.rows opts.entry.buffer.now
        ++ block_rows (term_of opts.entry) (block_of opts.entry)) }
    ensures told { IfOk result (λ r.
        TellsBlock r (term_of opts.entry) (block_of opts.entry) (attaches_none opts.entry)) }
    ensures err { OnErr result (B.rows opts.exit.0.now ≡ B.rows opts.entry.buffer.now) }
    ensures memory { IfErr result (λ e. e ≡ MinusError.Memory) }
{
    let FormatOpts {
        buffer,
        text,
        attachment,
        line_numbers,
        lines_count,
        formatted_lines_count,
        cols,
        prev_unterminated,
        search_term,
        line_wrapping,
    } = opts;
    let layout = Layout {
        cols,
        wrapping: line_wrapping,
        numbers: line_numbers,
        match_lines: false,
        carry_style: false,
    };
    let clean = attachment.is_none();
    let block = form_with(
        alloc,
        attachment,
        text,
        layout,
        lines_count.min(MOST_BEFORE),
        formatted_lines_count.min(MOST_BEFORE),
        prev_unterminated,
    )?;
    let told = put_block(alloc, buffer, block, search_term, clean)?;
    Ok(told)
}

/// Leaves in a buffer the rows of a text by itself, as they are stored, and no others.
///
/// # Errors
///
/// [`MinusError::Memory`] where there is no memory for it. Nothing has changed then.
pub fn format_lines_into(
    alloc: Global,
    buffer: &mut Rows,
    text: TextBlock<'_>,
    layout: Layout,
    search_term: Option<Term<'_>>,
) -> Result<FormatResult, MinusError>
    ensures rows { OnOk result (map string_bytes buffer.new.items
        ≡ block_rows (pattern_of search_term.entry) (block_with None text.now layout 0 0 0)) }
    ensures told { IfOk result (λ r.
        TellsBlock r (pattern_of search_term.entry) (block_with None text.now layout 0 0 0) true) }
    ensures err { OnErr result (buffer.new.items ≡ buffer.old.items) }
    ensures memory { IfErr result (λ e. e ≡ MinusError.Memory) }
{
    let block = form_with(alloc, None, text, layout, 0, 0, 0)?;
    let mut rows = Rows::new(alloc);
    let told = put_block(alloc, &mut rows, block, search_term, true)?;
    *buffer = rows;
    Ok(told)
}
