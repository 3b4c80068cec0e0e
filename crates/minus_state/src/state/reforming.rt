//! The state with another text or in another layout: its rows are formed again, beside it.
use crate::change::{Change, NextText, Redraw, boxed};
use crate::state::search_mark::search_mark_anew;
use crate::state::{PagerState, formed};
use minus_term::MinusError;
use minus_text::{Layout, LineNumbers, Screen};
use std::alloc::{AllocError, Global};

impl PagerState {
    ghost use Rattle.std.specs.Prelude.{◌≡◌, string_bytes, IfOk, IfErr};
    ghost use Rattle.minus_state.specs.Control.{reformed, anew_at};
    ghost use Rattle.minus_state.specs.States.{control_of, term_of};
    ghost use Rattle.minus_text.specs.Searched.{searched};
    ghost use Rattle.minus_state.specs.Changes.{Leads};

    // A copy of the displayed text.
    pub(crate) fn copied_text(&self, alloc: Global) -> Result<String, AllocError>
        ensures { IfOk result (λ t. string_bytes t ≡ (control_of self.now).text) }
    {
        String::from_str(alloc, self.screen.orig_text())
    }

    // A text in a layout, searched for the term.
    pub(crate) fn formed(
        &self,
        alloc: Global,
        text: String,
        layout: Layout,
    ) -> Result<Screen, MinusError>
        ensures ok { IfOk result (λ s. s
            ≡ searched (term_of self.now) (record { text = string_bytes text; layout = layout })) }
        ensures memory { IfErr result (λ e. e ≡ MinusError.Memory) }
    {
        formed(alloc, text, layout, self.searching())
    }

    // The state at a mark, with a text in a layout, which is formed again.
    pub(crate) fn formed_anew(
        &self,
        alloc: Global,
        text: String,
        layout: Layout,
        mark: usize,
    ) -> Result<Change, MinusError>
        requires { layout.cols ≡ self.now.cols }
        ensures next { IfOk result (λ c. Leads self.now c
            (anew_at (control_of self.now) (string_bytes text) layout mark)) }
        ensures redraw { IfOk result (λ c. c.redraw ≡ Redraw.Whole) }
        ensures memory { IfErr result (λ e. e ≡ MinusError.Memory) }
    {
        let next = self.formed(alloc, text, layout)?;
        let mut change = self.redrawn(Redraw::Whole);
        change.mark = mark;
        change.search_mark = search_mark_anew(next.view(), mark);
        change.text = NextText::Whole(boxed(alloc, next)?);
        Ok(change)
    }

    // The state with another text.
    pub(crate) fn with_text(&self, alloc: Global, text: String) -> Result<Change, MinusError>
        ensures next { IfOk result (λ c. Leads self.now c
            (reformed (record (control_of self.now) { text = string_bytes text }))) }
        ensures redraw { IfOk result (λ c. c.redraw ≡ Redraw.Whole) }
        ensures memory { IfErr result (λ e. e ≡ MinusError.Memory) }
    {
        self.formed_anew(alloc, text, self.layout(), self.upper_mark)
    }

    /// The state with numbers before its rows, or none, for which the text is formed again.
    ///
    /// # Errors
    ///
    /// [`MinusError::Memory`] where there is no memory for it.
    pub fn renumbered(&self, alloc: Global, numbers: LineNumbers) -> Result<Change, MinusError>
        ensures next { IfOk result (λ c. Leads self.now c
            (reformed (record (control_of self.now) { numbers = numbers }))) }
        ensures redraw { IfOk result (λ c. c.redraw ≡ Redraw.Whole) }
        ensures memory { IfErr result (λ e. e ≡ MinusError.Memory) }
    {
        let layout = Layout {
            numbers,
            ..self.layout()
        };
        self.formed_anew(alloc, self.copied_text(alloc)?, layout, self.upper_mark)
    }

    /// The state with its lines wrapped, or not, for which the text is formed again.
    ///
    /// # Errors
    ///
    /// [`MinusError::Memory`] where there is no memory for it.
    pub fn rewrapped(&self, alloc: Global, wrapping: bool) -> Result<Change, MinusError>
        ensures next { IfOk result (λ c. Leads self.now c
            (reformed (record (control_of self.now) { wrapping = wrapping }))) }
        ensures redraw { IfOk result (λ c. c.redraw ≡ Redraw.Whole) }
        ensures memory { IfErr result (λ e. e ≡ MinusError.Memory) }
    {
        let layout = Layout {
            wrapping,
            ..self.layout()
        };
        self.formed_anew(alloc, self.copied_text(alloc)?, layout, self.upper_mark)
    }

    /// The state with its rows put with the styles that their lines carry to them, or not, for which the text is formed
    /// again.
    ///
    /// # Errors
    ///
    /// [`MinusError::Memory`] where there is no memory for it.
    pub fn restyled(&self, alloc: Global, carry_style: bool) -> Result<Change, MinusError>
        ensures next { IfOk result (λ c. Leads self.now c
            (reformed (record (control_of self.now) { carry_style = carry_style }))) }
        ensures redraw { IfOk result (λ c. c.redraw ≡ Redraw.Whole) }
        ensures memory { IfErr result (λ e. e ≡ MinusError.Memory) }
    {
        let layout = Layout {
            carry_style,
            ..self.layout()
        };
        self.formed_anew(alloc, self.copied_text(alloc)?, layout, self.upper_mark)
    }

    /// The state with its term searched for in lines, or in rows, for which the text is formed again.
    ///
    /// # Errors
    ///
    /// [`MinusError::Memory`] where there is no memory for it.
    pub fn rematched(&self, alloc: Global, match_lines: bool) -> Result<Change, MinusError>
        ensures next { IfOk result (λ c. Leads self.now c
            (reformed (record (control_of self.now) { match_lines = match_lines }))) }
        ensures redraw { IfOk result (λ c. c.redraw ≡ Redraw.Whole) }
        ensures memory { IfErr result (λ e. e ≡ MinusError.Memory) }
    {
        let layout = Layout {
            match_lines,
            ..self.layout()
        };
        self.formed_anew(alloc, self.copied_text(alloc)?, layout, self.upper_mark)
    }
}
