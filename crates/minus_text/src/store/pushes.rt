//! Pushes behind a text, at once or in two halves, and its rows formed again.
ghost use Rattle.std.specs.Prelude.{◌≡◌, ◌+◌, ◌≤◌, ◌++◌, length, true, ◌==◌, if◌then◌else◌, IsTrue, None, IfOk, OnOk, OnErr, string_bytes};
ghost use Rattle.std.specs.Str.Lines.{lines};
ghost use Rattle.std.specs.String.{string_len, string_capacity};
ghost use Rattle.minus_text.specs.Layouts.{wrap_of};
ghost use Rattle.minus_text.specs.Document.{pushed, wrap_in};
ghost use Rattle.minus_text.specs.Kept.{IsFormOf, IsRestartOf, line_going_on, piece_behind};
ghost use Rattle.minus_text.specs.Pending.{IsPending, IsPreparedFor};
ghost use Rattle.minus_text.specs.FormatResults.{TellsAll, TellsPlan, TellsPush};

use crate::formed::{Finished, Formed, Plan, Restart, form};
use crate::formed_push::FormedPush;
use crate::layout::Layout;
use crate::line_numbers::LineNumbers;
use crate::row_text::escapes_end;
use crate::screen::FormatResult;
use crate::store::{Store, form_end, replace_rows, told};
use std::alloc::{AllocError, Global};

// Whether the finished lines take all of the text, or the whole is formed again.
fn attaches_nothing(finished: Finished, len: usize, plan: Plan) -> bool
    ensures { result ≡ (if plan.keeps then finished.bytes == len else true) }
{
    !plan.keeps || finished.bytes == len
}

// Puts a text at the end, for which there is room.
fn push_str_reserved(text: &mut String, piece: &str)
    requires { string_len text.old + length piece.now ≤ string_capacity text.old }
    ensures { string_bytes text.new ≡ string_bytes text.old ++ piece.now }
{
    match text.push_str(piece) {
        Ok(()) => {}
        Err(_) => unreachable!(),
    }
}

impl Store {
    // Puts a piece behind the text, and forms what it goes on beside what is kept. An `Err` changes
    // nothing.
    fn push_by(
        &mut self,
        alloc: Global,
        piece: &str,
        layout: Layout,
        plan: Plan,
    ) -> Result<FormatResult, AllocError>
        requires wrap { plan.wrap ≡ wrap_of layout (length (lines (self.old.text ++ piece.now))) }
        requires keeps { plan.keeps ≡ true → plan.wrap ≡ wrap_in self.old }
        ensures ok { OnOk result (self.new ≡ record { text = self.old.text ++ piece.now; layout = layout }) }
        ensures told { IfOk result (λ r. TellsPlan r None self.old piece.now plan) }
        ensures err { OnErr result (self.new ≡ self.old) }
    {
        let start = self.restart(plan);
        let len = self.text.len();
        let clean = attaches_nothing(self.finished, len, plan);
        self.text.push_str(piece)?;
        let formed = match form_end(
            alloc,
            &self.text,
            &mut self.rows,
            &mut self.first_rows,
            start,
            plan.wrap,
        ) {
            Ok(formed) => formed,
            Err(error) => {
                self.text.truncate(len);
                return Err(error);
            }
        };
        self.layout = layout;
        self.finished = formed.finished;
        self.longest = formed.longest_behind(start);
        self.border = formed.border;
        self.escapes_end = escapes_end(self.escapes_end, len, piece);
        Ok(told(alloc, start, formed, clean))
    }

    // Puts a piece, and what is formed of it and of what it goes on, behind what is kept. An `Err`
    // changes nothing.
    fn place_formed(
        &mut self,
        alloc: Global,
        piece: &str,
        start: Restart,
        formed: Formed,
        layout: Layout,
        plan: Plan,
    ) -> Result<FormatResult, AllocError>
        requires wrap { plan.wrap ≡ wrap_of layout (length (lines (self.old.text ++ piece.now))) }
        requires keeps { plan.keeps ≡ true → plan.wrap ≡ wrap_in self.old }
        requires start { IsRestartOf self.old.text plan start }
        requires formed { IsFormOf plan.wrap (line_going_on self.old.text plan)
            (piece_behind self.old.text plan piece.now) start formed }
        ensures ok { OnOk result (self.new ≡ record { text = self.old.text ++ piece.now; layout = layout }) }
        ensures told { IfOk result (λ r. TellsPlan r None self.old piece.now plan) }
        ensures err { OnErr result (self.new ≡ self.old) }
    {
        let clean = attaches_nothing(self.finished, self.text.len(), plan);
        let escapes_end = escapes_end(self.escapes_end, self.text.len(), piece);
        self.text.reserve(piece.len())?;
        replace_rows(&mut self.rows, &mut self.first_rows, start, &formed)?;
        push_str_reserved(&mut self.text, piece);
        self.layout = layout;
        self.finished = formed.finished;
        self.longest = formed.longest_behind(start);
        self.border = formed.border;
        self.escapes_end = escapes_end;
        Ok(told(alloc, start, formed, clean))
    }

    // Puts a text at the end, with numbers and columns for all. An `Err` changes nothing.
    pub(crate) fn push(
        &mut self,
        alloc: Global,
        text: &str,
        numbers: LineNumbers,
        cols: usize,
    ) -> Result<FormatResult, AllocError>
        ensures ok { OnOk result (self.new ≡ pushed self.old text.now numbers cols) }
        ensures told { IfOk result (λ r. TellsPush r None self.old text.now numbers cols) }
        ensures err { OnErr result (self.new ≡ self.old) }
    {
        let plan = self.plan(text, numbers, cols);
        let layout = self.layout.relaid(numbers, cols);
        Ok(self.push_by(alloc, text, layout, plan)?)
    }

    // Forms what a push of this text would form, beside the rows that would stay: from the start of the unfinished line
    // on where its lines are to be searched.
    pub(crate) fn prepare_push(
        &self,
        alloc: Global,
        text: &str,
        numbers: LineNumbers,
        cols: usize,
        match_lines: bool,
    ) -> Result<FormedPush, AllocError>
        ensures pending { IfOk result (λ p. IsPending self.now text.now numbers cols p) }
        ensures prepared { IfOk result (λ p. IsPreparedFor self.now text.now p) }
        ensures lines { IfOk result (λ p. p.match_lines ≡ match_lines) }
    {
        let plan = self.plan(text, numbers, cols);
        let start = self.restart_for(plan, match_lines);
        let tail = self.tail(alloc, start.finished.bytes + start.bytes, text)?;
        let formed = form(alloc, &tail, start, plan.wrap)?;
        let escapes_end = escapes_end(0, 0, &tail);
        Ok(FormedPush {
            tail,
            start,
            formed,
            wrap: plan.wrap,
            numbers,
            cols,
            escapes_end,
            match_lines,
        })
    }

    // Whether a push of this text forms what was formed, and its lines are to be searched, or its rows, as they were.
    pub(crate) fn is_prepared(&self, text: &str, pending: &FormedPush, match_lines: bool) -> bool
        ensures prepared { IsTrue result → IsPreparedFor self.now text.now pending.now }
        ensures lines { IsTrue result → pending.now.match_lines ≡ match_lines }
    {
        if pending.match_lines != match_lines {
            return false;
        }
        let plan = self.plan(text, pending.numbers, pending.cols);
        self.forms(
            pending.start,
            &pending.tail,
            pending.wrap,
            match_lines,
            text,
            plan,
        )
    }

    // Pushes a text of which this is formed. An `Err` changes nothing.
    pub(crate) fn place_push(
        &mut self,
        alloc: Global,
        text: &str,
        pending: FormedPush,
    ) -> Result<FormatResult, AllocError>
        requires { IsPreparedFor self.old text.now pending }
        ensures pending { OnOk result (IsPending self.old text.now pending.numbers pending.cols pending) }
        ensures ok { OnOk result (self.new ≡ pushed self.old text.now pending.numbers pending.cols) }
        ensures told { IfOk result (λ r. TellsPush r None self.old text.now pending.numbers pending.cols) }
        ensures err { OnErr result (self.new ≡ self.old) }
    {
        let FormedPush {
            tail,
            start,
            formed,
            wrap: _,
            numbers,
            cols,
            escapes_end: _,
            match_lines: _,
        } = pending;
        drop(tail);
        let plan = self.plan(text, numbers, cols);
        let layout = self.layout.relaid(numbers, cols);
        Ok(self.place_formed(alloc, text, start, formed, layout, plan)?)
    }

    // Forms all rows again in a layout. An `Err` changes nothing.
    pub(crate) fn reform(
        &mut self,
        alloc: Global,
        layout: Layout,
    ) -> Result<FormatResult, AllocError>
        ensures ok { OnOk result (self.new ≡ record self.old { layout = layout }) }
        ensures told { IfOk result (λ r. TellsAll r None (record self.old { layout = layout })) }
        ensures err { OnErr result (self.new ≡ self.old) }
    {
        let plan = self.plan_anew("", layout);
        Ok(self.push_by(alloc, "", layout, plan)?)
    }
}
