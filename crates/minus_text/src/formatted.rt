//! Rows that print as they are stored.
ghost use Rattle.std.specs.Prelude.{◌≡◌, map, option_map, false, IfOk, Some};
ghost use Rattle.minus_text.specs.Highlight.{highlighted, line_matches};
ghost use Rattle.minus_text.specs.Shown.{shown_line};
ghost use Rattle.minus_text.specs.FoundRows.{finder_pattern, pattern_of};
ghost use Rattle.minus_text.specs.Formatted.{printed_row, printed_under, printed_searched, row_matches};

use crate::number_prefix::RowPrefix;
use crate::push_text::PushText;
use crate::screen::Row;
use crate::search::escapes::part;
use crate::search::{Finder, HighlightMatchesArgs, Term};
use std::alloc::{AllocError, Global};
use std::fmt;

/// A row of a line. It prints what stands before it, and its own text.
#[derive(Clone, Copy)]
pub struct FormattedRow<'a> {
    pub(crate) row: &'a str,
    pub(crate) prefix: RowPrefix,
}

impl<'a> FormattedRow<'a> {
    ghost use Rattle.std.specs.Prelude.{◌++◌, string_bytes, OnOk};
    ghost use Rattle.minus_text.specs.NumberPrefix.{prefix};
    ghost use Rattle.minus_text.specs.Formatted.{prefix_of};

    /// A row with this text of its own. Where numbers are on it has the number of its line before it,
    /// counted from 1, if it is the first row of the line, and as many blanks otherwise. The number, in
    /// bold and with a stop, stands at the right of as many columns as `line_count`, the lines of the
    /// whole text, has digits and six more, with a blank behind it.
    pub fn new(
        row: &'a str,
        numbers: bool,
        line_count: usize,
        line: usize,
        is_first: bool,
    ) -> FormattedRow<'a>
        ensures prefix { prefix_of result.prefix ≡ prefix numbers line_count line is_first }
        ensures row { result.row.now ≡ row.now }
    {
        FormattedRow {
            row,
            prefix: RowPrefix {
                numbers,
                line_count,
                line,
                is_first,
            },
        }
    }

    // Adds it to a row, or to the bytes of a drawing. An `Err` only means out of memory; it may leave some of it
    // behind.
    fn push_to<T: PushText>(self, out: &mut T) -> Result<(), AllocError>
        ensures { OnOk result (T.bytes out.new ≡ T.bytes out.old ++ printed_row self.entry) }
    {
        self.prefix.push_to(out)?;
        out.push_text(self.row)?;
        Ok(())
    }

    /// Adds what it prints to the bytes of a drawing.
    ///
    /// # Errors
    ///
    /// [`AllocError`] where there is no memory for it: a beginning of it was added.
    pub fn write_to(self, out: &mut Vec<u8>) -> Result<(), AllocError>
        ensures { OnOk result (out.new.items ≡ out.old.items ++ printed_row self.entry) }
    {
        self.push_to(out)
    }

    /// What it prints, in memory that is taken once.
    ///
    /// # Errors
    ///
    /// [`AllocError`] where there is none.
    pub fn to_row(self, alloc: Global) -> Result<Row, AllocError>
        ensures { IfOk result (λ row. string_bytes row ≡ printed_row self.entry) }
    {
        let room = self.prefix.room().saturating_add(self.row.len());
        let mut out = String::with_capacity(alloc, room)?;
        self.push_to(&mut out)?;
        Ok(out)
    }
}

impl fmt::Display for FormattedRow<'_> {
    ghost output = { λ r. Some (printed_row r) };

    fn fmt<W: fmt::Write>(&self, f: &mut fmt::Formatter<W>) -> fmt::Result {
        let prefix = self.prefix;
        let row = self.row;
        write!(f, "{prefix}{row}")
    }
}

/// A row in which a term was searched. It prints what stands before it, and its own text with the
/// matches in reverse.
#[derive(Drop)]
pub struct SearchFormattedRow<'a> {
    pub(crate) row: FormattedRow<'a>,
    pub(crate) shown: Option<HighlightMatchesArgs<'a>>,
}

impl fmt::Display for SearchFormattedRow<'_> {
    ghost output = { λ r. Some (printed_searched r) };

    fn fmt<W: fmt::Write>(&self, f: &mut fmt::Formatter<W>) -> fmt::Result {
        let prefix = self.row.prefix;
        match &self.shown {
            Some(shown) => write!(f, "{prefix}{shown}"),
            None => {
                let row = self.row.row;
                write!(f, "{prefix}{row}")
            }
        }
    }
}

// What searches rows for a term, if there is one.
pub(crate) fn finder_of<'p>(
    alloc: Global,
    term: Option<Term<'p>>,
) -> Result<Option<Finder<'p>>, AllocError>
    ensures { IfOk result (λ f. option_map finder_pattern f ≡ pattern_of term.entry) }
{
    let Some(term) = term else {
        return Ok(None);
    };
    let finder = Finder::new(alloc, term)?;
    Ok(Some(finder))
}

// A line as what searches rows shows it.
fn highlight_row<'l>(
    alloc: Global,
    finder: &mut Finder<'_>,
    line: &'l str,
) -> Result<HighlightMatchesArgs<'l>, AllocError>
    ensures line { IfOk result (λ h. shown_line h ≡ highlighted (finder_pattern finder.old) false line.now) }
    ensures matches { IfOk result (λ h. h.is_match ≡ line_matches (finder_pattern finder.old) line.now) }
    ensures same { finder_pattern finder.new ≡ finder_pattern finder.old }
{
    let places = finder.escape_places(alloc, line)?;
    let parted = part(alloc, line, &places)?;
    let highlight = HighlightMatchesArgs::of_parted(alloc, &mut finder.term, parted, false)?;
    Ok(highlight)
}

// A row as what searches it shows it, and whether it matches.
pub(crate) fn search_row<'a>(
    alloc: Global,
    finder: &mut Option<Finder<'_>>,
    row: FormattedRow<'a>,
) -> Result<(SearchFormattedRow<'a>, bool), AllocError>
    ensures printed { IfOk result (λ r. printed_searched r.0
        ≡ printed_under (option_map finder_pattern finder.old) row.entry) }
    ensures matches { IfOk result (λ r. r.1 ≡ row_matches (option_map finder_pattern finder.old) row.entry.row.now) }
    ensures same { option_map finder_pattern finder.new ≡ option_map finder_pattern finder.old }
{
    let Some(search) = finder else {
        return Ok((SearchFormattedRow { row, shown: None }, false));
    };
    let shown = highlight_row(alloc, search, row.row)?;
    let matches = shown.is_match();
    Ok((
        SearchFormattedRow {
            row,
            shown: Some(shown),
        },
        matches,
    ))
}

/// Each of these rows with the matches of a term in reverse, and whether it matches; as they are
/// without a term. One search serves all rows. Fails only if memory runs out.
pub fn format_search_rows<'a>(
    alloc: Global,
    rows: &[FormattedRow<'a>],
    search_term: Option<Term<'_>>,
) -> Result<Vec<(SearchFormattedRow<'a>, bool)>, AllocError>
    ensures printed { IfOk result (λ found. map (λ r. printed_searched r.0) found.items
        ≡ map (printed_under (pattern_of search_term.entry)) rows.now) }
    ensures matches { IfOk result (λ found. map (λ r. r.1) found.items
        ≡ map (λ r. row_matches (pattern_of search_term.entry) r.row.now) rows.now) }
{
    let mut finder = finder_of(alloc, search_term)?;
    let mut found = Vec::new(alloc);
    for row in rows {
        found.push(search_row(alloc, &mut finder, *row)?)?;
    }
    Ok(found)
}
