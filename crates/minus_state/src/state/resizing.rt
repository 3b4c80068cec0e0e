//! The state in another size of the terminal, formed beside it.
use crate::change::{Change, NextText, Redraw, boxed};
use crate::state::search_mark::search_mark_anew;
use crate::state::{PagerState, is_size};
use minus_term::MinusError;
use minus_text::Layout;
use std::alloc::Global;

impl PagerState {
    ghost use Rattle.std.specs.Prelude.{◌≡◌, IfOk, IfErr, OnOk};
    ghost use Rattle.minus_term.specs.Refusals.{refusal_of};
    ghost use Rattle.minus_state.specs.Control.{reformed};
    ghost use Rattle.minus_state.specs.States.{control_of};
    ghost use Rattle.minus_state.specs.Changes.{Leads, IsUnresized};
    ghost use Rattle.minus_state.specs.Sizes.{IsSize};

    /// The state in another size, columns and rows, for which the text is formed again.
    ///
    /// # Errors
    ///
    /// [`MinusError::BadSize`] where the columns or the rows are not from 1 to 65,535, and [`MinusError::Memory`] where
    /// there is no memory for it.
    pub fn resized(&self, alloc: Global, cols: usize, rows: usize) -> Result<Change, MinusError>
        ensures next { IfOk result (λ c. Leads self.now c
            (reformed (record (control_of self.now) { cols = cols; rows = rows }))) }
        ensures redraw { IfOk result (λ c. c.redraw ≡ Redraw.Whole) }
        ensures size { OnOk result (IsSize cols rows) }
        ensures refused { IfErr result (λ e. IsUnresized (refusal_of e) cols rows) }
    {
        if !is_size(cols, rows) {
            return Err(MinusError::BadSize(cols, rows));
        }
        let text = self.copied_text(alloc)?;
        let layout = Layout {
            cols,
            ..self.layout()
        };
        let screen = self.formed(alloc, text, layout)?;
        let mut change = self.redrawn(Redraw::Whole);
        change.cols = cols;
        change.rows = rows;
        change.search_mark = search_mark_anew(screen.view(), self.upper_mark);
        change.text = NextText::Whole(boxed(alloc, screen)?);
        Ok(change)
    }
}
