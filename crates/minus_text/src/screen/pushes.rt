//! Pushes behind the text of a screen, and texts put in its place.
ghost use Rattle.std.specs.Prelude.{◌≡◌, [], OnOk, OnErr, IfOk, IfErr, None};
ghost use Rattle.minus_text.specs.Document.{pushed};
ghost use Rattle.minus_text.specs.Fragments.{rows_in};
ghost use Rattle.minus_text.specs.Pending.{Pending, IsPending, IsPreparedFor, SearchesAlike};
ghost use Rattle.minus_text.specs.FormatResults.{TellsAll, TellsPush, TellsPrepared, TellsFound};
ghost use Rattle.minus_text.specs.Found.{AreFoundIn};
ghost use Rattle.minus_text.specs.FoundRows.{pattern_of};
ghost use Rattle.minus_text.specs.FoundBy.{found_rows, AreJumps};
ghost use Rattle.minus_text.specs.Searched.{searched, IsFoundBy, IsFoundInPush, FindsOn, FindsOnAlike};

use crate::formed_push::FormedPush;
use crate::layout::Layout;
use crate::line_numbers::LineNumbers;
use crate::pending::PendingPush;
use crate::screen::{FormatResult, Screen, TextBlock, formed};
use crate::search::found_rows::FoundRows;
use crate::search::term::Term;
use minus_term::error::MinusError;
use std::alloc::{AllocError, Global};

impl Screen {
    /// Puts a text at the end, with numbers and columns for all. Where the columns differ from those
    /// that the rows were last formed for, or those that numbers take do, all rows are formed again, and
    /// otherwise those of the unfinished line and the text. Wrapping stays as it is. The rows that are
    /// formed lose what was found in them and are searched for the term, which is to be the one that the
    /// other rows were searched for; without one nothing is kept as found.
    ///
    /// # Errors
    ///
    /// [`MinusError::Memory`] where there is no memory for it. Nothing has changed then.
    pub fn push_screen_buf(
        &mut self,
        alloc: Global,
        text: TextBlock<'_>,
        numbers: LineNumbers,
        cols: usize,
        term: Option<Term<'_>>,
    ) -> Result<FormatResult, MinusError>
        ensures ok { OnOk result (self.new.document ≡ pushed self.old.document text.now numbers cols) }
        ensures found { OnOk result (IsFoundBy (pattern_of term.entry) self.old →
            IsFoundBy (pattern_of term.entry) self.new) }
        ensures without { OnOk result (term.entry ≡ None → self.new.found ≡ []) }
        ensures told { IfOk result (λ r. IsFoundBy (pattern_of term.entry) self.old →
            TellsPush r (pattern_of term.entry) self.old.document text.now numbers cols) }
        ensures kept { IfOk result (λ r. TellsFound r self.new.found self.old.document text.now numbers cols) }
        ensures err { OnErr result (self.new ≡ self.old) }
        ensures memory { IfErr result (λ e. e ≡ MinusError.Memory) }
    {
        if term.is_none() {
            let told = self.store.push(alloc, text, numbers, cols)?;
            self.found.clear();
            return Ok(told);
        }
        let lines = self.matches_lines(&term);
        let push = self.store.prepare_push(alloc, text, numbers, cols, lines)?;
        let found = FoundRows::of_push(alloc, term, &push)?;
        Ok(self.put(alloc, text, push, found)?)
    }

    // Whether a push is searched for a term in its lines.
    fn matches_lines(&self, term: &Option<Term<'_>>) -> bool
        ensures { (p : Pending) → p.match_lines ≡ result →
            SearchesAlike (pattern_of term.now) self.now.document p }
    {
        term.is_some() && self.store.layout().match_lines
    }

    // Puts a text, what was formed of it, and what was found in that, behind what stays. An `Err` changes
    // nothing.
    fn put(
        &mut self,
        alloc: Global,
        text: &str,
        push: FormedPush,
        found: FoundRows,
    ) -> Result<FormatResult, AllocError>
        requires prepared { IsPreparedFor self.old.document text.now push }
        requires stand { AreFoundIn push.kept_rows (rows_in push.tail) (found_rows found) }
        requires jumps { AreJumps found }
        ensures ok { OnOk result (self.new.document ≡ pushed self.old.document text.now push.numbers push.cols) }
        ensures found { OnOk result
            (FindsOnAlike self.old (record { push = push; found = found_rows found }) self.new) }
        ensures told { IfOk result (λ r.
            TellsFound r self.new.found self.old.document text.now push.numbers push.cols) }
        ensures err { OnErr result (self.new ≡ self.old) }
    {
        let first = push.kept_rows();
        let matches = self
            .found
            .numbers_from(alloc, push.first_row(), first, &found)?;
        self.found.reserve(&found)?;
        let told = self.store.place_push(alloc, text, push)?;
        self.found.replace_from(first, found);
        Ok(told.with_matches(matches))
    }

    /// Forms what a push of this text would form, beside the rows that would stay, and searches that for
    /// a term. The screen stays as it is; `view_after` shows the rows that the push would leave.
    ///
    /// # Errors
    ///
    /// [`MinusError::Memory`] where there is no memory for it.
    pub fn prepare_push(
        &self,
        alloc: Global,
        text: TextBlock<'_>,
        numbers: LineNumbers,
        cols: usize,
        term: Option<Term<'_>>,
    ) -> Result<PendingPush, MinusError>
        ensures ok { IfOk result (λ p. IsPending self.now.document text.now numbers cols p.push) }
        ensures own { IfOk result (λ p. IsPending self.now.document text.now p.push.numbers p.push.cols p.push) }
        ensures found { IfOk result (IsFoundInPush (pattern_of term.entry)) }
        ensures alike { IfOk result (λ p. SearchesAlike (pattern_of term.entry) self.now.document p.push) }
        ensures memory { IfErr result (λ e. e ≡ MinusError.Memory) }
    {
        let lines = self.matches_lines(&term);
        let push = self.store.prepare_push(alloc, text, numbers, cols, lines)?;
        let found = FoundRows::of_push(alloc, term, &push)?;
        Ok(PendingPush { push, found })
    }

    /// Pushes a text for the numbers and columns of a push that was prepared, with the term that it was
    /// searched for. What was formed and found then is put in place as it is; where it is not what this
    /// push forms, that is formed and searched again.
    ///
    /// # Errors
    ///
    /// [`MinusError::Memory`] where there is no memory for it. Nothing has changed then.
    pub fn place_push(
        &mut self,
        alloc: Global,
        text: TextBlock<'_>,
        pending: PendingPush,
        term: Option<Term<'_>>,
    ) -> Result<FormatResult, MinusError>
        ensures ok { OnOk result (self.new.document
            ≡ pushed self.old.document text.now pending.push.numbers pending.push.cols) }
        ensures found { OnOk result (FindsOn (pattern_of term.entry) self.old pending self.new) }
        ensures told { IfOk result (λ r. TellsPrepared r (pattern_of term.entry) self.old text.now pending) }
        ensures kept { IfOk result (λ r.
            TellsFound r self.new.found self.old.document text.now pending.push.numbers pending.push.cols) }
        ensures err { OnErr result (self.new ≡ self.old) }
        ensures memory { IfErr result (λ e. e ≡ MinusError.Memory) }
    {
        let PendingPush { push, found } = pending;
        let lines = self.matches_lines(&term);
        if self.store.is_prepared(text, &push, lines) {
            return Ok(self.put(alloc, text, push, found)?);
        }
        let (numbers, cols) = (push.numbers, push.cols);
        drop(push);
        drop(found);
        self.push_screen_buf(alloc, text, numbers, cols, term)
    }

    /// Forms all rows again in a layout, and searches them for a term.
    ///
    /// # Errors
    ///
    /// [`MinusError::Memory`] where there is no memory for it. Nothing has changed then.
    pub fn reform(
        &mut self,
        alloc: Global,
        layout: Layout,
        term: Option<Term<'_>>,
    ) -> Result<FormatResult, MinusError>
        ensures ok { OnOk result (self.new
            ≡ searched (pattern_of term.entry) (record self.old.document { layout = layout })) }
        ensures told { IfOk result (λ r.
            TellsAll r (pattern_of term.entry) (record self.old.document { layout = layout })) }
        ensures err { OnErr result (self.new ≡ self.old) }
        ensures memory { IfErr result (λ e. e ≡ MinusError.Memory) }
    {
        if term.is_none() {
            let told = self.store.reform(alloc, layout)?;
            self.found.clear();
            return Ok(told);
        }
        let (fresh, told) = formed(alloc, self.store.orig_text(), layout, term)?;
        *self = fresh;
        Ok(told)
    }

    /// Puts a text in the place of all that there is, in a layout, and searches its rows for a term.
    ///
    /// # Errors
    ///
    /// [`MinusError::Memory`] where there is no memory for it. Nothing has changed then.
    pub fn set_text(
        &mut self,
        alloc: Global,
        text: TextBlock<'_>,
        layout: Layout,
        term: Option<Term<'_>>,
    ) -> Result<FormatResult, MinusError>
        ensures ok { OnOk result (self.new ≡ searched (pattern_of term.entry)
            (record { text = text.now; layout = layout })) }
        ensures told { IfOk result (λ r.
            TellsAll r (pattern_of term.entry) (record { text = text.now; layout = layout })) }
        ensures err { OnErr result (self.new ≡ self.old) }
        ensures memory { IfErr result (λ e. e ≡ MinusError.Memory) }
    {
        let (fresh, told) = formed(alloc, text, layout, term)?;
        *self = fresh;
        Ok(told)
    }
}
