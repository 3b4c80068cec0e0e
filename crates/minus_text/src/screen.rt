//! A text and its rows, and what a term finds in them.
ghost use Rattle.std.specs.Prelude.{◌≡◌, [], length, IfOk, slice_get, option_map, string_bytes, ◌^◌, ◌<◌};
ghost use Rattle.minus_text.specs.Layouts.{plain};
ghost use Rattle.minus_text.specs.Document.{rows_of, line_map, line_count, longest, unfinished_rows, PushesJoin, LineMapAscends};
ghost use Rattle.minus_text.specs.LinePlaces.{row_places};
ghost use Rattle.minus_text.specs.FormatResults.{TellsAll};
ghost use Rattle.minus_text.specs.Found.{AreFoundIn, jump_rows};
ghost use Rattle.minus_text.specs.FoundRows.{pattern_of};
ghost use Rattle.minus_text.specs.FoundBy.{found_rows, AreJumps};
ghost use Rattle.minus_text.specs.Searched.{searched, IsStoredRow, IsHighlightedRow};

pub mod pieces;
mod pushes;
pub mod searching;

use crate::layout::Layout;
use crate::lines_row_map::LinesRowMap;
use crate::rows::Span;
use crate::search::found_rows::FoundRows;
use crate::search::term::Term;
use crate::store::Store;
use std::alloc::{AllocError, Global};
use std::collections::BTreeSet;
use std::marker::Model;

/// The text of a row.
pub type Row = String;

/// The texts of rows.
pub type Rows = Vec<String>;

/// The text of a line.
pub type Line<'a> = &'a str;

/// A text of any number of lines.
pub type TextBlock<'a> = &'a str;

/// A text of any number of lines that is owned.
pub type OwnedTextBlock = String;

/// What a call formed. It reports the text formed: in a push the unfinished line followed by the
/// pushed text, and the whole text where that is formed again.
#[derive(Debug, Drop)]
pub struct FormatResult {
    /// How many lines the text formed has.
    pub lines_formatted: usize,
    /// How many rows it has.
    pub rows_formatted: usize,
    /// How many rows its last line has where no newline ends it, and 0 otherwise.
    pub num_unterminated: usize,
    /// Those of its rows that match, numbered in the whole text from 0; none without a term.
    pub append_search_idx: BTreeSet<usize>,
    /// The first row of each of its lines, numbered in the whole text from 0.
    pub lines_to_row_map: LinesRowMap,
    /// The columns of its longest line.
    pub max_line_length: usize,
    /// Whether nothing was attached in front of the text given.
    pub clean_append: bool,
}

impl FormatResult {
    // This result, with these rows told to match.
    fn with_matches(self, rows: BTreeSet<usize>) -> Self
        ensures { result ≡ record self { append_search_idx = rows } }
    {
        FormatResult {
            append_search_idx: rows,
            ..self
        }
    }
}

/// A text that grows, with its rows in a layout. Of a row in which a term was found it keeps the places
/// of the matches and of the row's escape sequences; of the term it keeps nothing.
#[derive(Debug)]
pub struct Screen {
    store: Store,
    found: FoundRows,
}

// Hand-written: a derived drop would stand again in the proof of each function that lets one go.
impl Drop for Screen {
    fn drop(self) {
        let Screen { store: _, found: _ } = self;
    }
}

impl Model for Screen {
    ghost use Rattle.minus_text.specs.Document.{rows_of};
    ghost use Rattle.minus_text.specs.Found.{AreFoundIn, jump_rows};
    ghost use Rattle.minus_text.specs.FoundBy.{found_rows, AreJumps};
    ghost use Rattle.minus_text.specs.Searched.{Searched};

    ghost Value = { Searched };

    ghost view = { λ s. record { document = s.store; found = found_rows s.found } };

    ghost invariant = { λ s. AreFoundIn 0 (rows_of s.store) (found_rows s.found) × AreJumps s.found };
}

// A copy of a text in a layout, with what a term finds in it.
fn formed(
    alloc: Global,
    text: &str,
    layout: Layout,
    term: Option<Term<'_>>,
) -> Result<(Screen, FormatResult), AllocError>
    ensures ok { IfOk result (λ r. r.0
        ≡ searched (pattern_of term.entry) (record { text = text.now; layout = layout })) }
    ensures told { IfOk result (λ r.
        TellsAll r.1 (pattern_of term.entry) (record { text = text.now; layout = layout })) }
{
    Screen::of_text(alloc, String::from_str(alloc, text)?, layout, term)
}

impl Screen {
    /// A screen of no text, for no columns, with wrapping on and numbers off.
    pub fn new(alloc: Global) -> Self
        ensures { result ≡ record { document = record { text = []; layout = plain 0 }; found = [] } }
    {
        Screen {
            store: Store::new(alloc),
            found: FoundRows::new(alloc),
        }
    }

    /// A text in a layout, searched for a term, and what forming it tells. The text is taken as it is, and not
    /// copied.
    ///
    /// # Errors
    ///
    /// [`AllocError`] where there is no memory for its rows or for what is found in them.
    pub fn of_text(
        alloc: Global,
        text: OwnedTextBlock,
        layout: Layout,
        term: Option<Term<'_>>,
    ) -> Result<(Screen, FormatResult), AllocError>
        ensures ok { IfOk result (λ r. r.0
            ≡ searched (pattern_of term.entry) (record { text = string_bytes text; layout = layout })) }
        ensures told { IfOk result (λ r. TellsAll r.1 (pattern_of term.entry)
            (record { text = string_bytes text; layout = layout })) }
    {
        let (store, told) = Store::of_text(alloc, text, layout)?;
        let found = FoundRows::of_store(alloc, term, &store)?;
        let matches = found.numbers(alloc)?;
        Ok((Screen { store, found }, told.with_matches(matches)))
    }

    /// Makes room for this number of bytes of text more, so that pushes of that number of bytes take no more memory for
    /// the text itself; their rows take their own. Nothing displayed changes, whether there is room or not.
    ///
    /// # Errors
    ///
    /// [`AllocError`] where there is no memory for it.
    pub fn reserve(&mut self, bytes: usize) -> Result<(), AllocError>
        ensures { self.new ≡ self.old }
    {
        self.store.reserve(bytes)
    }

    /// How many rows there are.
    pub fn formatted_lines_count(&self) -> usize
        ensures value { result ≡ length (rows_of self.now.document) }
        ensures few { result < 2 ^ 63 }
    {
        self.store.formatted_lines_count()
    }

    /// How many lines there are.
    pub fn line_count(&self) -> usize
        ensures { result ≡ line_count self.now.document }
    {
        self.store.line_count()
    }

    /// The columns of the longest line, 0 where there is no line.
    pub fn get_max_line_length(&self) -> usize
        ensures { result ≡ longest self.now.document }
    {
        self.store.get_max_line_length()
    }

    /// How many rows the last line has where no newline ends it, and 0 otherwise.
    pub fn unterminated(&self) -> usize
        ensures { result ≡ unfinished_rows self.now.document }
    {
        self.store.unterminated()
    }

    /// The layout that the rows were formed for.
    pub fn layout(&self) -> Layout
        ensures { result ≡ self.now.document.layout }
    {
        self.store.layout()
    }

    /// The text as it was given.
    pub fn orig_text(&self) -> &str
        ensures { result.now ≡ self.now.document.text }
    {
        self.store.orig_text()
    }

    /// The number of the first row of each line.
    pub fn lines_to_row_map(&self) -> &LinesRowMap
        ensures { result.now ≡ line_map self.now.document }
    {
        self.store.lines_to_row_map()
    }

    /// The text of a row, counted from 0, without what stands before it and without markers. It takes no
    /// memory.
    pub fn row_text(&self, i: usize) -> Option<&str>
        ensures { option_map (λ r. r.now) result ≡ slice_get (rows_of self.now.document) i }
    {
        match self.store.row_text(i) {
            Some(row) => Some(row),
            None => None,
        }
    }

    /// The place of a row's own text, counted from 0, in the bytes of the text. It takes no memory.
    pub fn row_place(&self, i: usize) -> Option<Span>
        ensures { result ≡ slice_get (row_places self.now.document) i }
    {
        self.store.row_place(i)
    }

    /// In how many rows matches begin.
    pub fn match_count(&self) -> usize
        ensures { result ≡ length (jump_rows self.now.found) }
    {
        self.found.len()
    }

    /// The number of a row in which matches begin. Such rows are counted from 0 in their order.
    pub fn match_row(&self, i: usize) -> Option<usize>
        ensures { result ≡ slice_get (jump_rows self.now.found) i }
    {
        self.found.row(i)
    }

    /// A row as it is stored, counted from 0, if there is one: what stands before its text, the style that is
    /// carried to it, and its text with its matches shown in reverse. Fails only if memory runs out.
    pub fn formatted_row(&self, alloc: Global, i: usize) -> Result<Option<Row>, AllocError>
        ensures { IfOk result (λ row. IsStoredRow self.now i (option_map string_bytes row)) }
    {
        self.view().formatted_row(alloc, i)
    }

    /// The own text of a row, counted from 0, if there is one, with its matches shown in reverse and nothing
    /// before it but the style that is carried to it. Fails only if memory runs out.
    pub fn highlighted_row(&self, alloc: Global, i: usize) -> Result<Option<Row>, AllocError>
        ensures { IfOk result (λ row. IsHighlightedRow self.now i (option_map string_bytes row)) }
    {
        self.view().highlighted_row(alloc, i)
    }
}

/// To push one piece and then another is to push both joined: the rows, the first row of each
/// line, the number of lines and the longest line are the same.
pub fn pushes_join()
    ensures { PushesJoin }
{}

/// Each line begins at a later row than the line before it.
pub fn line_map_ascends()
    ensures { LineMapAscends }
{}
