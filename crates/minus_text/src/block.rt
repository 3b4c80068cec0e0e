//! A text that is formed by itself, behind other lines and rows.
ghost use Rattle.std.specs.Prelude.{◌≡◌, ◌+◌, ◌^◌, ◌<◌, ◌≤◌, ◌++◌, length, Option, option_map, slice_get, string_bytes, IfOk, OnOk, OnErr};
ghost use Rattle.std.specs.Str.Lines.{lines};
ghost use Rattle.regex.specs.Patterns.{Re};
ghost use Rattle.minus_text.specs.Layouts.{margin};
ghost use Rattle.minus_text.specs.Fragments.{rows_in};
ghost use Rattle.minus_text.specs.FoundRows.{finder_pattern, pattern_of};
ghost use Rattle.minus_text.specs.Formatted.{prefix_of};
ghost use Rattle.minus_text.specs.Blocks.{Block, fragment_of, block_rows, matching_rows, TellsBlock, IsPrefixIn, IsRowIn, one, keys_noted, noted_in, GrowsByRows};

use crate::buffers::AppendableBuffer;
use crate::formatted::{FormattedRow, finder_of, search_row};
use crate::formed::{Border, Finished, Restart, form};
use crate::formed_push::FormedPush;
use crate::layout::{Layout, Wrap};
use crate::line_numbers::{LineNumbers, prefix_columns};
use crate::lines::newlines;
use crate::number_prefix::RowPrefix;
use crate::row_text::escapes_end;
use crate::screen::FormatResult;
use crate::search::{Finder, Term};
use std::alloc::{AllocError, Global};
use std::collections::BTreeSet;
use std::marker::Model;

// How many lines a text has.
fn line_count(text: &str) -> usize
    ensures value { result ≡ length (lines text.now) }
    ensures few { result ≤ 2 ^ 63 }
{
    if text.is_empty() {
        return 0;
    }
    newlines(text) + usize::from(!text.ends_with('\n'))
}

// The columns that numbers take from the text of rows, where there are this many lines.
fn margin(numbers: LineNumbers, line_count: usize) -> usize
    ensures { result ≡ margin numbers line_count }
{
    if !numbers.is_on() {
        return 0;
    }
    prefix_columns(true, line_count) + 1
}

// Notes the number of a row if it matches.
fn note(found: &mut BTreeSet<usize>, row: usize, matches: bool) -> Result<(), AllocError>
    ensures { OnOk result (found.new.keys ≡ keys_noted matches row found.old.keys) }
{
    if matches {
        found.insert(row)?;
    }
    Ok(())
}

// A text with its rows, formed behind this many lines; how many rows its unfinished line has, and the
// columns of its longest line.
pub(crate) struct FormattedBlock {
    formed: FormedPush,
    layout: Layout,
    lines_before: usize,
    unfinished: usize,
    longest: usize,
}

// Hand-written: a derived drop would stand again in the proof of each function that lets one go.
impl Drop for FormattedBlock {
    fn drop(self) {
        let FormattedBlock {
            formed: _,
            layout: _,
            lines_before: _,
            unfinished: _,
            longest: _,
        } = self;
    }
}

impl Model for FormattedBlock {
    ghost use Rattle.minus_text.specs.Blocks.{Block, IsBlockFormed};

    ghost Value = { Block };

    ghost view = { λ b. record {
      text = b.formed.tail.text;
      layout = b.layout;
      lines_before = b.lines_before;
      first_row = b.formed.kept_rows;
    } };

    ghost invariant = { λ b. IsBlockFormed b.formed b.layout b.lines_before b.unfinished b.longest };
}

impl FormattedBlock {
    // Forms a text behind this many lines, from a row with a number on.
    pub(crate) fn new(
        alloc: Global,
        text: String,
        layout: Layout,
        lines_before: usize,
        first_row: usize,
    ) -> Result<Self, AllocError>
        requires lines { lines_before < 2 ^ 63 }
        requires rows { first_row < 2 ^ 63 }
        ensures { IfOk result (λ b. b ≡ record {
          text = string_bytes text;
          layout = layout;
          lines_before = lines_before;
          first_row = first_row;
        }) }
    {
        let columns = margin(layout.numbers, lines_before + line_count(&text));
        let wrap = Wrap::of(layout.wrapping, layout.cols.saturating_sub(columns));
        let start = Restart {
            finished: Finished {
                lines: 0,
                rows: first_row,
                bytes: 0,
                longest: 0,
            },
            rows: 0,
            bytes: 0,
            border: Border::START,
        };
        let formed = form(alloc, &text, start, wrap)?;
        let unfinished = first_row + formed.rows.len() - formed.finished.rows;
        let longest = formed.longest;
        let escapes_end = escapes_end(0, 0, &text);
        Ok(FormattedBlock {
            formed: FormedPush {
                tail: text,
                start,
                formed,
                wrap,
                numbers: layout.numbers,
                cols: layout.cols,
                escapes_end,
                match_lines: false,
            },
            layout,
            lines_before,
            unfinished,
            longest,
        })
    }

    // How many rows it has.
    fn rows_len(&self) -> usize
        ensures value { result ≡ length (rows_in (fragment_of self.now)) }
        ensures few { result < 2 ^ 63 }
    {
        self.formed.formed_rows()
    }

    // The number of a row that is counted from 0 in it.
    fn number_of(&self, i: usize) -> usize
        requires { i < 2 ^ 63 }
        ensures { result ≡ self.now.first_row + i }
    {
        self.formed.kept_rows() + i
    }

    // What stands before a row, counted from 0.
    fn prefix(&self, i: usize) -> RowPrefix
        requires { i < 2 ^ 63 }
        ensures { IsPrefixIn self.now i (prefix_of result) }
    {
        let map = self.formed.first_rows();
        let row = self.formed.kept_rows() + i;
        let Some(line) = map.row_to_line(row) else {
            return RowPrefix::NONE;
        };
        RowPrefix {
            numbers: self.layout.numbers.is_on(),
            line_count: self.lines_before + map.len(),
            line: self.lines_before + line + 1,
            is_first: map.begins(line, row),
        }
    }

    // A row, counted from 0.
    fn row(&self, i: usize) -> Option<FormattedRow<'_>>
        requires { i < 2 ^ 63 }
        ensures { IsRowIn self.now i result }
    {
        match self.formed.row_text(i) {
            Some(row) => Some(FormattedRow {
                row,
                prefix: self.prefix(i),
            }),
            None => None,
        }
    }

    // What it tells, with these rows that match.
    fn told(self, matches: BTreeSet<usize>, clean: bool) -> FormatResult
        ensures { (term : Option Re) → matches.keys ≡ matching_rows term self →
            TellsBlock result term self clean }
    {
        let FormattedBlock {
            formed,
            layout: _,
            lines_before: _,
            unfinished,
            longest,
        } = self;
        let rows_formatted = formed.formed_rows();
        let first_rows = formed.into_first_rows();
        FormatResult {
            lines_formatted: first_rows.len(),
            rows_formatted,
            num_unterminated: unfinished,
            append_search_idx: matches,
            lines_to_row_map: first_rows,
            max_line_length: longest,
            clean_append: clean,
        }
    }
}

// Puts a row of a block at the end of a buffer, as what searches it shows it, and notes it if it
// matches. An `Err` changes no row of the buffer.
fn put_row<B: AppendableBuffer>(
    alloc: Global,
    buffer: &mut B,
    found: &mut BTreeSet<usize>,
    finder: &mut Option<Finder<'_>>,
    block: &FormattedBlock,
    i: usize,
) -> Result<(), AllocError>
    requires { i < 2 ^ 63 }
    ensures rows { OnOk result (B.rows buffer.new ≡ B.rows buffer.old
        ++ one (slice_get (block_rows (option_map finder_pattern finder.old) block.now) i)) }
    ensures found { OnOk result (found.new.keys
        ≡ noted_in (option_map finder_pattern finder.old) block.now i found.old.keys) }
    ensures same { option_map finder_pattern finder.new ≡ option_map finder_pattern finder.old }
    ensures err { OnErr result (B.rows buffer.new ≡ B.rows buffer.old) }
{
    let Some(row) = block.row(i) else {
        return Ok(());
    };
    let (row, matches) = search_row(alloc, finder, row)?;
    note(found, block.number_of(i), matches)?;
    buffer.push_fmt(alloc, &row)?;
    Ok(())
}

// Puts the rows of a block at the end of a buffer, and tells those that match a term. An `Err` leaves
// some of them there.
fn put_rows<B: AppendableBuffer>(
    alloc: Global,
    buffer: &mut B,
    block: &FormattedBlock,
    term: Option<Term<'_>>,
) -> Result<BTreeSet<usize>, AllocError>
    ensures rows { OnOk result (B.rows buffer.new
        ≡ B.rows buffer.old ++ block_rows (pattern_of term.entry) block.now) }
    ensures found { IfOk result (λ found. found.keys ≡ matching_rows (pattern_of term.entry) block.now) }
    ensures grows { GrowsByRows (B.rows buffer.old) (B.rows buffer.new) }
{
    let mut finder = finder_of(alloc, term)?;
    let mut found = BTreeSet::new(alloc);
    for i in 0..block.rows_len() {
        put_row(alloc, buffer, &mut found, &mut finder, block, i)?;
    }
    Ok(found)
}

// Puts the rows of a block at the end of a buffer, and reports it. An `Err` changes no row.
pub(crate) fn put_block<B: AppendableBuffer>(
    alloc: Global,
    buffer: &mut B,
    block: FormattedBlock,
    term: Option<Term<'_>>,
    clean: bool,
) -> Result<FormatResult, AllocError>
    ensures rows { OnOk result (B.rows buffer.new ≡ B.rows buffer.old ++ block_rows (pattern_of term.entry) block) }
    ensures told { IfOk result (λ r. TellsBlock r (pattern_of term.entry) block clean) }
    ensures err { OnErr result (B.rows buffer.new ≡ B.rows buffer.old) }
{
    let len = buffer.rows_len();
    let found = match put_rows(alloc, buffer, &block, term) {
        Ok(found) => found,
        Err(error) => {
            buffer.truncate_rows(len);
            return Err(error);
        }
    };
    Ok(block.told(found, clean))
}
