//! Whether each row of a view is stored as its own text.
use crate::view::RowsView;

impl<'s> RowsView<'s> {
    ghost use Rattle.std.specs.Prelude.{◌≡◌, [], IsTrue};
    ghost use Rattle.minus_text.specs.Searched.{IsPlainView};
    ghost use Rattle.minus_text.specs.Views.{viewed};

    // Whether nothing was found, as far as is known at once.
    fn has_no_match(self) -> bool
        ensures { IsTrue result → (viewed self.entry).found ≡ [] }
    {
        if !self.found.is_empty() {
            return false;
        }
        match self.next {
            Some(next) => next.pending.found().is_empty(),
            None => true,
        }
    }

    /// Whether each row is stored as its own text, as far as is known at once: rows have no numbers, no styles are
    /// carried to them, and nothing was found in them. It takes no memory.
    pub fn is_plain(self) -> bool
        ensures { IsTrue result → IsPlainView (viewed self.entry) }
    {
        let layout = self.layout();
        if layout.numbers.is_on() {
            return false;
        }
        if layout.carry_style {
            return false;
        }
        self.has_no_match()
    }
}
