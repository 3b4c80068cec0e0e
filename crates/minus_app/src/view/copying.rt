//! Copying: what is selected with the mouse goes to the terminal's clipboard.
ghost use Rattle.std.specs.Prelude.{◌≡◌, IfSome};
ghost use Rattle.minus_state.specs.Selection.{ends_in_order};
ghost use Rattle.minus_state.specs.States.{ends_of};
ghost use Rattle.minus_app.specs.Copying.{begins_at};

use crate::clipboard::clipboard_sequence;
use crate::fault::Fault;
use crate::view::View;
use minus::{
    Event, MouseEventKind, OutputSink, PagerState, place_of_visible, strip_escapes, write_bytes,
};
use minus_view::with_tabs;
use std::alloc::AllocError;

/// The mouse, and the clipboard to which what is selected with it goes.
#[derive(Clone, Copy)]
pub struct Mouse {
    // Whether the pager takes the mouse.
    pub(super) is_taken: bool,
    // Whether the terminal takes a copied text.
    copies: bool,
    // Whether the mouse was moved since its button was pressed.
    was_dragged: bool,
    // Where what is selected began before the last event, in bytes of the text.
    selected_from: Option<usize>,
}

impl Mouse {
    /// A mouse that was not moved yet.
    pub(super) fn new(is_taken: bool, copies: bool) -> Mouse {
        Mouse {
            is_taken,
            copies,
            was_dragged: false,
            selected_from: None,
        }
    }
}

// Where what is selected begins, in bytes of the displayed text.
fn selected_from(state: &PagerState) -> Option<usize>
    ensures { IfSome result (λ place. IfSome (ends_in_order (ends_of state.now)) (λ ends.
        place ≡ begins_at state.now.screen.document ends.0)) }
{
    let (first, _) = state.ends().in_order()?;
    let place = state.screen.row_place(first.absolute_row)?;
    let row = state.screen.row_text(first.absolute_row)?;
    place.start.checked_add(place_of_visible(row, first.col))
}

impl<S: OutputSink + Drop> View<S> {
    /// Puts a text on the terminal's clipboard. Where there is no memory for it, or the terminal takes none, it does
    /// not, and the prompt row says so.
    ///
    /// # Errors
    ///
    /// [`Fault::Pager`] where the terminal refuses.
    pub fn copy(&mut self, text: &str) -> Result<(), Fault> {
        if !self.mouse.copies {
            self.notices.was_kept = true;
            return Ok(());
        }
        match clipboard_sequence(self.alloc, text) {
            Ok(sequence) => {
                write_bytes(&mut self.terminal, sequence.as_bytes())?;
            }
            Err(_) => self.notices.was_short = true,
        }
        Ok(())
    }

    /// Heeds whether the mouse was moved since its button was pressed, and what is selected, which an event that copies
    /// it lets go. The text of help has no tabs.
    pub(super) fn heed_mouse(&mut self, event: &Event) {
        let state = self.session.state();
        self.mouse.selected_from = if state.help_open() {
            None
        } else {
            selected_from(state)
        };
        if let Event::Mouse(mouse) = event {
            match mouse.kind {
                MouseEventKind::Down(_) => self.mouse.was_dragged = false,
                MouseEventKind::Drag(_) => self.mouse.was_dragged = true,
                _ => (),
            }
        }
    }

    // What was selected, without its styles and with its tabs.
    fn plain_of(&self, selected: &str) -> Result<String, AllocError> {
        let patterns = self.session.state().patterns();
        match self.mouse.selected_from {
            Some(place) => {
                let tabbed = with_tabs(self.alloc, place, selected, self.tabs.places())?;
                strip_escapes(self.alloc, patterns, tabbed.as_str())
            }
            None => strip_escapes(self.alloc, patterns, selected),
        }
    }

    /// Puts what was selected with the mouse on the terminal's clipboard, without its styles and with its tabs; a click
    /// selects nothing.
    pub(super) fn copy_selected(&mut self, selected: &str) -> Result<(), Fault> {
        if !self.mouse.was_dragged {
            return Ok(());
        }
        match self.plain_of(selected) {
            Ok(plain) => self.copy(plain.as_str()),
            Err(_) => {
                self.notices.was_short = true;
                Ok(())
            }
        }
    }
}
