//! Searches in a screen.
ghost use Rattle.std.specs.Prelude.{◌≡◌, ◌<◌, IfOk, IfErr, OnOk, OnErr, Some};
ghost use Rattle.minus_text.specs.Document.{rows_of};
ghost use Rattle.minus_text.specs.Pending.{IsPending};
ghost use Rattle.minus_text.specs.Found.{AreFoundIn, jump_rows};
ghost use Rattle.minus_text.specs.Finds.{finds};
ghost use Rattle.minus_text.specs.Matches.{match_at};
ghost use Rattle.regex.specs.Strings.{regex_pattern};
ghost use Rattle.minus_text.specs.FoundRows.{pattern_of};
ghost use Rattle.minus_text.specs.Searched.{searched_after, IsFoundBy, IsFoundBetween};
ghost use Rattle.minus_text.specs.Views.{viewed};

use crate::pending::PendingPush;
use crate::screen::{Screen, TextBlock};
use crate::search::finding::first_match;
use crate::search::found_rows::FoundRows;
use crate::search::term::Term;
use crate::view::{NextPush, RowsView};
use minus_term::error::MinusError;
use std::alloc::{AllocError, Global};
use std::marker::Model;

/// What a term finds in the rows of a text, apart from what is kept as found: `Screen::search` makes it,
/// [`view_of`] shows it, and `Screen::place_findings` keeps it.
#[derive(Debug, Drop)]
pub struct Findings {
    rows: FoundRows,
}

impl Model for Findings {
    ghost use Rattle.std.specs.Prelude.{List};
    ghost use Rattle.minus_text.specs.Found.{RowMatches, Ascend};
    ghost use Rattle.minus_text.specs.FoundBy.{found_rows, AreJumps};

    ghost Value = { List RowMatches };

    ghost view = { λ f. found_rows f.rows };

    ghost invariant = { λ f. Ascend 0 (found_rows f.rows) × AreJumps f.rows };
}

impl Findings {
    ghost use Rattle.std.specs.Prelude.{length, slice_get};
    ghost use Rattle.minus_text.specs.Found.{match_total, matches_above};
    ghost use Rattle.minus_text.specs.JumpRows.{counted};

    /// The number of rows in which matches begin.
    pub fn match_count(&self) -> usize
        ensures { result ≡ length (jump_rows self.now) }
    {
        self.rows.len()
    }

    /// The number of a row in which matches begin. Such rows are counted from 0 in their order.
    pub fn match_row(&self, i: usize) -> Option<usize>
        ensures { result ≡ slice_get (jump_rows self.now) i }
    {
        self.rows.row(i)
    }

    /// How many matches there are.
    pub fn match_total(&self) -> usize
        ensures { result ≡ counted (match_total self.now) }
    {
        self.rows.match_total()
    }

    /// How many matches begin in the rows above one, counted from 0. It halves the rows in which matches begin.
    pub fn matches_above(&self, row: usize) -> usize
        ensures { result ≡ counted (matches_above row self.now) }
    {
        self.rows.matches_above(row)
    }
}

/// The rows of a screen, with what a search found in them. The caller knows that it was found there.
pub fn view_of<'s>(screen: &'s Screen, findings: &'s Findings) -> RowsView<'s>
    requires { AreFoundIn 0 (rows_of screen.now.document) findings.now }
    ensures { viewed result ≡ record screen.now { found = findings.now } }
{
    RowsView {
        store: &screen.store,
        found: &findings.rows,
        next: None,
    }
}

/// The rows of a screen that a push of this text would leave, for the numbers and columns that it was prepared for. The
/// caller knows that it was prepared on this screen with this text. It takes no memory.
pub fn view_after<'s>(
    screen: &'s Screen,
    text: TextBlock<'s>,
    pending: &'s PendingPush,
) -> RowsView<'s>
    requires { IsPending screen.now.document text.now pending.now.push.numbers pending.now.push.cols
        pending.now.push }
    ensures { viewed result ≡ searched_after screen.now text.now pending.now }
{
    RowsView {
        store: &screen.store,
        found: &screen.found,
        next: Some(NextPush { text, pending }),
    }
}

impl Screen {
    ghost use Rattle.std.specs.Prelude.{◌++◌, length, slice_get};
    ghost use Rattle.minus_text.specs.Found.{found_above, match_total, matches_above};
    ghost use Rattle.minus_text.specs.JumpRows.{counted};

    /// Its rows, with what is kept as found in them.
    pub fn view(&self) -> RowsView<'_>
        ensures { viewed result ≡ self.now }
    {
        RowsView {
            store: &self.store,
            found: &self.found,
            next: None,
        }
    }

    /// The number of rows in which matches begin once a push is made, whichever text it was prepared for: those that
    /// are kept as found above the rows that it forms, and those that were found in these. It takes no memory.
    pub fn match_count_after(&self, pending: &PendingPush) -> usize
        ensures { result
            ≡ length (jump_rows (found_above pending.now.push.kept_rows self.now.found ++ pending.now.found)) }
    {
        pending.match_count(&self.found)
    }

    /// The number of a row in which matches begin then. Such rows are counted from 0 in their order. It takes no
    /// memory.
    pub fn match_row_after(&self, pending: &PendingPush, i: usize) -> Option<usize>
        ensures { result ≡ slice_get (jump_rows (found_above pending.now.push.kept_rows self.now.found
            ++ pending.now.found)) i }
    {
        pending.match_row(&self.found, i)
    }

    /// How many matches there are then. It takes no memory.
    pub fn match_total_after(&self, pending: &PendingPush) -> usize
        ensures { result ≡ counted
            (match_total (found_above pending.now.push.kept_rows self.now.found ++ pending.now.found)) }
    {
        pending.match_total(&self.found)
    }

    /// How many matches begin then in the rows above one, counted from 0. It takes no memory, and halves the rows in
    /// which matches begin.
    pub fn matches_above_after(&self, pending: &PendingPush, row: usize) -> usize
        ensures { result ≡ counted
            (matches_above row (found_above pending.now.push.kept_rows self.now.found ++ pending.now.found)) }
    {
        pending.matches_above(&self.found, row)
    }

    /// Searches the rows for a term, or the lines where the layout says so, and leaves what is kept as found.
    ///
    /// # Errors
    ///
    /// [`AllocError`] where there is no memory for what is found.
    pub fn search(&self, alloc: Global, term: Option<Term<'_>>) -> Result<Findings, AllocError>
        ensures found { IfOk result (λ f. f ≡ finds (pattern_of term.entry) self.now.document) }
        ensures stand { IfOk result (λ f. AreFoundIn 0 (rows_of self.now.document) f) }
    {
        Ok(Findings {
            rows: FoundRows::of_store(alloc, term, &self.store)?,
        })
    }

    /// What a term finds in the rows from `start` on up to but without `end`, counted from 0, as far as there are rows:
    /// [`view_of`] shows these rows with their matches. No other row is searched, or no other line than those of these
    /// rows where a term is searched for in lines; and what is kept as found stays.
    ///
    /// # Errors
    ///
    /// [`AllocError`] where there is no memory for what is found.
    pub fn search_rows(
        &self,
        alloc: Global,
        term: Option<Term<'_>>,
        start: usize,
        end: usize,
    ) -> Result<Findings, AllocError>
        ensures found { IfOk result (λ f.
            IsFoundBetween (pattern_of term.entry) (record self.now { found = f }) start end) }
        ensures stand { IfOk result (λ f. AreFoundIn 0 (rows_of self.now.document) f) }
    {
        Ok(Findings {
            rows: FoundRows::of_rows(alloc, term, &self.store, start, end)?,
        })
    }

    /// The row that a search for a term from a mark goes to, counted from 0: the first row in which a match begins, at
    /// the mark or behind it, or else the first of all such rows; `None` where there is none. The search reads the rows
    /// from the mark on and then those above it, each at most once, and reads no row further than the one that it
    /// answers; where a term is searched for in lines, it reads lines so, and the mark's own line twice. What is kept
    /// as found stays.
    ///
    /// # Errors
    ///
    /// [`AllocError`] where there is no memory for the search.
    pub fn first_match(
        &self,
        alloc: Global,
        term: Term<'_>,
        mark: usize,
    ) -> Result<Option<usize>, AllocError>
        ensures { IfOk result (λ row. row
            ≡ match_at (jump_rows (finds (Some (regex_pattern term.entry.pattern.now)) self.now.document)) mark) }
    {
        first_match(alloc, term, &self.store, mark)
    }

    /// Keeps what a term was found to match as found, where it stands in these rows. Where it does not, since it was
    /// found in the rows of another text, the rows are searched for the term again. The check looks at places alone,
    /// and not at what the term matches there: the term is to be the one that was searched for. So the check runs no
    /// pattern, reads only the rows in which something was found, and takes memory only while it reads one that has
    /// escape sequences.
    ///
    /// # Errors
    ///
    /// [`MinusError::Memory`] where there is no memory for it. Nothing has changed then.
    pub fn place_findings(
        &mut self,
        alloc: Global,
        findings: Findings,
        term: Option<Term<'_>>,
    ) -> Result<(), MinusError>
        ensures document { OnOk result (self.new.document ≡ self.old.document) }
        ensures found { OnOk result (findings ≡ finds (pattern_of term.entry) self.old.document →
            IsFoundBy (pattern_of term.entry) self.new) }
        ensures err { OnErr result (self.new ≡ self.old) }
        ensures memory { IfErr result (λ e. e ≡ MinusError.Memory) }
    {
        let Findings { rows } = findings;
        self.found = rows.or_found(alloc, term, &self.store)?;
        Ok(())
    }
}
