//! What is selected by events of the mouse, formed beside a state.
ghost use Rattle.std.specs.Prelude.{◌≡◌};
ghost use Rattle.minus_state.specs.RedrawExtent.{whole_where};

use crate::change::{Change, Redraw};
use crate::selection::{Selection, SelectionEnds};
use crate::state::PagerState;
use crate::view::{View, selection_from_coordinates};
use minus_term::page_len;

// The whole page is drawn where something has changed, and else nothing.
fn whole_where(changed: bool) -> Redraw
    ensures { result ≡ whole_where changed }
{
    if changed {
        return Redraw::Whole;
    }
    Redraw::Stays
}

impl PagerState {
    ghost use Rattle.std.specs.Prelude.{◌-◌, ◌==◌, ◌<◌, ◌&&◌, min, is_some};
    ghost use Rattle.minus_state.specs.Selecting.{no_ends, has_ends, end_at, ends_begun, is_led, mark_led_to, mark_led, ends_led_to, ends_led, is_same_end};
    ghost use Rattle.minus_state.specs.RedrawExtent.{led_redraw};
    ghost use Rattle.minus_state.specs.States.{control_of, ends_of, IsFormed};
    ghost use Rattle.minus_state.specs.Changes.{Leads};

    // The end of a selection at a place of the page that begins at a mark; none while a term is searched for.
    fn end_at(&self, mark: usize, x: u16, y: u16) -> Option<Selection>
        ensures { IsFormed self.now → result ≡ end_at (record (control_of self.now) { mark = mark }) x y }
    {
        if self.term.is_some() {
            return None;
        }
        let view = View {
            upper_mark: mark,
            left_mark: self.left_mark,
            rows: self.rows,
        };
        selection_from_coordinates(&self.screen, view, x, y)
    }

    // The state with these ends of what is selected, and the page drawn whole or not at all.
    fn with_ends(&self, ends: SelectionEnds, redraw: Redraw) -> Change
        ensures next { Leads self.now result (record (control_of self.now) { ends = ends }) }
        ensures redraw { result.redraw ≡ redraw }
    {
        let mut change = self.redrawn(redraw);
        change.ends = ends;
        change
    }

    // The state with a selection that begins at an end, if there is one.
    fn begun(&self, end: Option<Selection>) -> Change
        ensures next { Leads self.now result
            (record (control_of self.now) { ends = ends_begun (ends_of self.now) end }) }
        ensures redraw { result.redraw ≡ whole_where (is_some end) }
    {
        match end {
            Some(end) => {
                let ends = SelectionEnds {
                    anchor: Some(end),
                    selection: Some(end),
                };
                self.with_ends(ends, Redraw::Whole)
            }
            None => self.redrawn(Redraw::Stays),
        }
    }

    /// The state with a selection that begins at a place of the page.
    pub fn selected(&self, x: u16, y: u16) -> Change
        ensures next { Leads self.now result
            (record (control_of self.now) { ends = ends_begun (ends_of self.now) (end_at (control_of self.now) x y) }) }
        ensures redraw { IsFormed self.now →
            result.redraw ≡ whole_where (is_some (end_at (control_of self.now) x y)) }
    {
        self.begun(self.end_at(self.upper_mark, x, y))
    }

    // Whether a selection is dragged; none is while a term is searched for.
    fn is_led(&self) -> bool
        ensures { result ≡ is_led (control_of self.now) }
    {
        self.term.is_none() && self.anchor.is_some() && 1 < self.rows
    }

    // Where the mark goes as a selection is led to a row of the page.
    fn mark_led_to(&self, y: u16) -> usize
        ensures { IsFormed self.now → result ≡ mark_led_to (control_of self.now) y }
    {
        if y == 0 {
            return self.upper_mark.saturating_sub(1);
        }
        if usize::from(y) >= page_len(self.rows) {
            return self.upper_mark.saturating_add(1).min(self.top());
        }
        self.upper_mark
    }

    // The ends of a selection that is led to an end, if there is one.
    fn ends_with(&self, end: Option<Selection>) -> SelectionEnds
        ensures { result ≡ ends_led_to (ends_of self.now) end }
    {
        match end {
            Some(end) => SelectionEnds {
                anchor: self.anchor,
                selection: Some(end),
            },
            None => self.ends(),
        }
    }

    // The ends of a selection that is led to a place of the page that begins at a mark.
    fn ends_led_to(&self, mark: usize, x: u16, y: u16) -> SelectionEnds
        requires { 1 < self.now.rows }
        ensures { IsFormed self.now → result ≡ ends_led_to (ends_of self.now)
            (end_at (record (control_of self.now) { mark = mark }) x (min y (self.now.rows - 2))) }
    {
        let row = usize::from(y).min(self.rows - 2) as u16;
        self.ends_with(self.end_at(mark, x, row))
    }

    // Whether the mark and where the selection is led to stay so.
    fn stays_at(&self, mark: usize, ends: SelectionEnds) -> bool
        ensures { result ≡ ((mark == self.now.upper_mark) && is_same_end ends.selection self.now.selection) }
    {
        mark == self.upper_mark && ends.selection == self.selection
    }

    /// The state with its selection dragged to a place of the page.
    pub fn dragged(&self, x: u16, y: u16) -> Change
        ensures next { Leads self.now result
            (record (control_of self.now) {
              mark = mark_led (control_of self.now) y;
              ends = ends_led
                  (control_of self.now) x y;
            }) }
        ensures redraw { IsFormed self.now → result.redraw ≡ led_redraw (control_of self.now) x y }
    {
        if !self.is_led() {
            return self.redrawn(Redraw::Stays);
        }
        let mark = self.mark_led_to(y);
        let ends = self.ends_led_to(mark, x, y);
        let stays = self.stays_at(mark, ends);
        let mut change = self.with_ends(ends, whole_where(!stays));
        change.mark = mark;
        change
    }

    // Whether an end of a selection is there.
    fn has_ends(&self) -> bool
        ensures { result ≡ has_ends (ends_of self.now) }
    {
        self.anchor.is_some() || self.selection.is_some()
    }

    /// The state with nothing selected.
    pub fn unselected(&self) -> Change
        ensures next { Leads self.now result (record (control_of self.now) { ends = no_ends }) }
        ensures redraw { result.redraw ≡ whole_where (has_ends (ends_of self.now)) }
    {
        let ends = SelectionEnds {
            anchor: None,
            selection: None,
        };
        self.with_ends(ends, whole_where(self.has_ends()))
    }
}
