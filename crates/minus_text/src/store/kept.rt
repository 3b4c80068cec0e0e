//! What a push keeps of a text, and where in it the push begins to form.
ghost use Rattle.std.specs.Prelude.{◌≡◌, ◌+◌, ◌^◌, ◌<◌, ◌≤◌, ◌++◌, length, drop, true, ◌==◌, ◌&&◌, IsTrue, IfOk, false, string_bytes};
ghost use Rattle.std.specs.Str.{IsUtf8, IsCharBoundary};
ghost use Rattle.std.specs.Str.Lines.{lines};
ghost use Rattle.minus_text.specs.Layouts.{margin, wrap_of};
ghost use Rattle.minus_text.specs.Document.{wrap_in, plan_of};
ghost use Rattle.minus_text.specs.Kept.{IsRestartOf};
ghost use Rattle.minus_text.specs.Pending.{IsAtLine};

use crate::formed::{Plan, Restart};
use crate::layout::{Layout, Wrap};
use crate::line_numbers::{LineNumbers, prefix_columns};
use crate::lines::newlines;
use crate::seams::last_seam;
use crate::store::Store;
use std::alloc::{AllocError, Global};

// Whether columns stay, and what numbers take of them.
fn stay(cols: usize, old_cols: usize, margin: usize, old_margin: usize) -> bool
    ensures { result ≡ ((cols == old_cols) && (margin == old_margin)) }
{
    cols == old_cols && margin == old_margin
}

impl Store {
    // How many lines there are with a piece behind the text.
    fn lines_after(&self, piece: &str) -> usize
        ensures { result ≡ length (lines (self.now.text ++ piece.now)) }
    {
        if piece.is_empty() {
            return self.first_rows.len();
        }
        self.finished.lines + newlines(piece) + usize::from(!piece.ends_with('\n'))
    }

    // The columns that numbers take with a piece behind the text.
    fn margin_after(&self, piece: &str, numbers: LineNumbers) -> usize
        ensures value { result ≡ margin numbers (length (lines (self.now.text ++ piece.now))) }
    {
        if !numbers.is_on() {
            return 0;
        }
        prefix_columns(true, self.lines_after(piece)) + 1
    }

    // How a push forms.
    pub(super) fn plan(&self, piece: &str, numbers: LineNumbers, cols: usize) -> Plan
        ensures { result ≡ plan_of self.now piece.now numbers cols }
    {
        let margin = self.margin_after(piece, numbers);
        let old_margin = self.margin_after("", self.layout.numbers);
        Plan {
            keeps: stay(cols, self.layout.cols, margin, old_margin),
            wrap: Wrap::of(self.layout.wrapping, cols.saturating_sub(margin)),
        }
    }

    // How all is formed again in a layout, with a piece behind the text.
    pub(super) fn plan_anew(&self, piece: &str, layout: Layout) -> Plan
        ensures { result ≡ record {
          keeps = false;
          wrap = wrap_of layout (length (lines (self.now.text ++ piece.now)));
        } }
    {
        let margin = self.margin_after(piece, layout.numbers);
        Plan {
            keeps: false,
            wrap: Wrap::of(layout.wrapping, layout.cols.saturating_sub(margin)),
        }
    }

    // Where a push begins to form.
    pub(super) fn restart(&self, plan: Plan) -> Restart
        requires { plan.keeps ≡ true → plan.wrap ≡ wrap_in self.now }
        ensures start { IsRestartOf self.now.text plan result }
        ensures text { IsUtf8 self.now.text }
        ensures small { length self.now.text < 2 ^ 63 }
        ensures place { IsCharBoundary self.now.text (result.finished.bytes + result.bytes) }
        ensures lines { result.finished.lines ≤ length self.now.text }
        ensures rows { result.finished.rows + result.rows < 2 ^ 63 }
    {
        let finished = self.finished;
        if !plan.keeps {
            return Restart::START;
        }
        let line = &self.text[finished.bytes..];
        let seam = last_seam(
            line,
            self.rows.as_slice(),
            finished.rows,
            finished.bytes,
            self.border.bytes,
        );
        Restart {
            finished,
            rows: seam.rows,
            bytes: seam.bytes,
            border: self.border,
        }
    }

    // Where a push begins to form that is searched in lines: where the unfinished line begins.
    fn line_restart(&self, plan: Plan) -> Restart
        requires { plan.keeps ≡ true → plan.wrap ≡ wrap_in self.now }
        ensures start { IsRestartOf self.now.text plan result }
        ensures text { IsUtf8 self.now.text }
        ensures small { length self.now.text < 2 ^ 63 }
        ensures place { IsCharBoundary self.now.text (result.finished.bytes + result.bytes) }
        ensures lines { result.finished.lines ≤ length self.now.text }
        ensures rows { result.finished.rows + result.rows < 2 ^ 63 }
        ensures at_line { IsAtLine result }
    {
        let finished = self.finished;
        if !plan.keeps {
            return Restart::START;
        }
        Restart {
            finished,
            rows: 0,
            bytes: 0,
            border: self.border,
        }
    }

    // Where a push begins to form, whether it is searched in lines or not.
    pub(super) fn restart_for(&self, plan: Plan, match_lines: bool) -> Restart
        requires { plan.keeps ≡ true → plan.wrap ≡ wrap_in self.now }
        ensures start { IsRestartOf self.now.text plan result }
        ensures text { IsUtf8 self.now.text }
        ensures small { length self.now.text < 2 ^ 63 }
        ensures place { IsCharBoundary self.now.text (result.finished.bytes + result.bytes) }
        ensures lines { result.finished.lines ≤ length self.now.text }
        ensures rows { result.finished.rows + result.rows < 2 ^ 63 }
        ensures at_line { match_lines ≡ true → IsAtLine result }
    {
        if match_lines {
            return self.line_restart(plan);
        }
        self.restart(plan)
    }

    // What stands in the text from a place on, and a piece behind it.
    pub(super) fn tail(&self, alloc: Global, at: usize, piece: &str) -> Result<String, AllocError>
        requires { IsCharBoundary self.now.text at }
        ensures { IfOk result (λ t. string_bytes t ≡ drop at self.now.text ++ piece.now) }
    {
        let mut tail = String::from_str(alloc, &self.text[at..])?;
        tail.push_str(piece)?;
        Ok(tail)
    }

    // Whether a push of this piece begins there, and forms this text so.
    pub(super) fn forms(
        &self,
        start: Restart,
        tail: &str,
        wrap: Wrap,
        match_lines: bool,
        piece: &str,
        plan: Plan,
    ) -> bool
        requires { plan.keeps ≡ true → plan.wrap ≡ wrap_in self.now }
        ensures text { IsUtf8 self.now.text }
        ensures start { IsTrue result → IsRestartOf self.now.text plan start }
        ensures wrap { IsTrue result → wrap ≡ plan.wrap }
        ensures tail { IsTrue result → tail.now
            ≡ drop (start.finished.bytes + start.bytes) self.now.text ++ piece.now }
        ensures at_line { IsTrue result → match_lines ≡ true → IsAtLine start }
    {
        let own = self.restart_for(plan, match_lines);
        if !start.is_same(own) {
            return false;
        }
        if !wrap.is_same(plan.wrap) {
            return false;
        }
        match tail.strip_prefix(&self.text[own.finished.bytes + own.bytes..]) {
            Some(rest) => rest == piece,
            None => false,
        }
    }
}
