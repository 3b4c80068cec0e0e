//! What a push forms, before it is made.
ghost use Rattle.std.specs.Prelude.{◌≡◌, true, ◌^◌, ◌<◌, ◌≤◌, slice_get, option_map, map, length, IfOk};
ghost use Rattle.minus_text.specs.Found.{AreFoundIn};
ghost use Rattle.minus_text.specs.FoundRows.{finder_pattern, matches_of};
ghost use Rattle.minus_text.specs.Finds.{finds_in_pushed_lines};
ghost use Rattle.minus_text.specs.Fragments.{rows_in};
ghost use Rattle.minus_text.specs.Layouts.{relaid};

use crate::formed::{Formed, Restart};
use crate::layout::{Layout, Wrap};
use crate::line_numbers::LineNumbers;
use crate::lines_row_map::LinesRowMap;
use crate::row_text::RowText;
use crate::search::found::{Finder, FoundRow};
use crate::search::line_finds::find_in_text;
use crate::stored_line::StoredText;
use std::alloc::{AllocError, Global};
use std::marker::Model;

// What a push would form, beside the rows that would stay.
#[derive(Debug, Drop)]
pub(crate) struct FormedPush {
    // What stands in the text from the restart on, followed by the pushed text.
    pub(crate) tail: String,
    pub(crate) start: Restart,
    pub(crate) formed: Formed,
    pub(crate) wrap: Wrap,
    // The numbers and columns of the push.
    pub(crate) numbers: LineNumbers,
    pub(crate) cols: usize,
    // A place from which on no byte of the tail is ESC.
    pub(crate) escapes_end: usize,
    // Whether its lines are searched: then it begins with a line.
    pub(crate) match_lines: bool,
}

impl Model for FormedPush {
    ghost use Rattle.std.specs.Prelude.{◌≡◌, true, ◌+◌, string_bytes};
    ghost use Rattle.std.specs.Str.Lines.{lines};
    ghost use Rattle.minus_text.specs.Document.{first_rows};
    ghost use Rattle.minus_text.specs.Pending.{Pending};
    ghost use Rattle.minus_text.specs.Kept.{IsPreparedPush};
    ghost use Rattle.minus_text.specs.RowText.{IsUnescapedFrom};

    ghost Value = { Pending };

    ghost view = { λ p. record {
      kept_rows = p.start.finished.rows + p.start.rows;
      kept_lines = p.start.finished.lines;
      first_rows = p.formed.first_rows;
      start = p.start;
      tail = record { text = string_bytes p.tail; wrap = p.wrap };
      numbers = p.numbers;
      cols = p.cols;
      match_lines = p.match_lines;
    } };

    ghost invariant = { λ p. IsPreparedPush p.wrap (string_bytes p.tail) p.start p.formed
        × IsUnescapedFrom p.escapes_end (string_bytes p.tail)
        × (p.match_lines ≡ true → p.formed.first_rows
        ≡ first_rows p.wrap (p.start.finished.rows + p.start.rows) (lines (string_bytes p.tail))) };
}

impl FormedPush {
    // The first row of each line that is formed.
    pub(crate) fn first_rows(&self) -> &LinesRowMap
        ensures { result.now ≡ self.now.first_rows }
    {
        &self.formed.first_rows
    }

    // The row at which each line begins, handed out for good.
    pub(crate) fn into_first_rows(self) -> LinesRowMap
        ensures { result ≡ self.first_rows }
    {
        let FormedPush { formed, .. } = self;
        formed.first_rows
    }

    // The number of lines that stay in front of what is formed.
    pub(crate) fn kept_lines(&self) -> usize
        ensures { result ≡ self.now.kept_lines }
    {
        self.start.finished.lines
    }

    // The line numbers of the push.
    pub(crate) fn numbers(&self) -> LineNumbers
        ensures { result ≡ self.now.numbers }
    {
        self.numbers
    }

    // A layout with the line numbers and columns of the push.
    pub(crate) fn relaid(&self, layout: Layout) -> Layout
        ensures { result ≡ relaid layout self.now.numbers self.now.cols }
    {
        layout.relaid(self.numbers, self.cols)
    }

    // Whether its lines are searched, and not its rows.
    pub(crate) fn matches_lines(&self) -> bool
        ensures { result ≡ self.now.match_lines }
    {
        self.match_lines
    }

    // What a term finds in its lines, with the numbers that their rows have after the push.
    pub(crate) fn find_in_lines(
        &self,
        alloc: Global,
        finder: &mut Finder<'_>,
    ) -> Result<Vec<FoundRow>, AllocError>
        requires { self.now.match_lines ≡ true }
        ensures found { IfOk result (λ f. map matches_of f.items
            ≡ finds_in_pushed_lines (finder_pattern finder.old) self.now) }
        ensures stand { IfOk result (λ f.
            AreFoundIn self.now.kept_rows (rows_in self.now.tail) (map matches_of f.items)) }
    {
        let mut found = Vec::new(alloc);
        let text = StoredText {
            first: self.kept_rows(),
            base: self.start.finished.bytes + self.start.bytes,
            text: self.tail.as_str(),
            rows: self.formed.rows.as_slice(),
            firsts: self.formed.first_rows.as_slice(),
        };
        find_in_text(alloc, finder, &mut found, text, self.wrap)?;
        Ok(found)
    }

    // How many rows stay in front of what is formed.
    pub(crate) fn kept_rows(&self) -> usize
        ensures value { result ≡ self.now.kept_rows }
        ensures few { result < 2 ^ 63 }
    {
        self.start.finished.rows + self.start.rows
    }

    // The number of the first row of the text that the push forms: the unfinished line or the whole, and
    // what is pushed.
    pub(crate) fn first_row(&self) -> usize
        ensures value { result ≡ self.now.start.finished.rows }
        ensures few { result ≤ self.now.kept_rows }
    {
        self.start.finished.rows
    }

    // How many rows are formed.
    pub(crate) fn formed_rows(&self) -> usize
        ensures value { result ≡ length (rows_in self.now.tail) }
        ensures few { result < 2 ^ 63 }
    {
        self.formed.rows.len()
    }

    // The text of a row that is formed, counted from 0.
    pub(crate) fn row(&self, i: usize) -> Option<RowText<'_>>
        ensures { option_map (λ r. r.text.now) result ≡ slice_get (rows_in self.now.tail) i }
    {
        let at = self.start.finished.bytes + self.start.bytes;
        let text = self.tail.as_str();
        match self.formed.rows.get(i) {
            Some(row) => Some(RowText {
                text: &text[row.start - at..row.end - at],
                escapes_end: self.escapes_end.saturating_sub(row.start - at),
            }),
            None => None,
        }
    }

    // It alone, where nothing is asked of its escape sequences.
    pub(crate) fn row_text(&self, i: usize) -> Option<&str>
        ensures { option_map (λ r. r.now) result ≡ slice_get (rows_in self.now.tail) i }
    {
        match self.row(i) {
            Some(row) => Some(row.text),
            None => None,
        }
    }
}
