//! The rows that match: those in which a match begins.
use minus_text::RowsView;

/// The rows that match a term, in their order: those in which a match begins. Their places in it are counted from 0,
/// and so are the rows.
#[derive(Clone, Copy)]
pub struct Matches<'s> {
    pub(crate) view: RowsView<'s>,
}

impl Matches<'_> {
    ghost use Rattle.std.specs.Prelude.{◌≡◌, ◌==◌, length, slice_get};
    ghost use Rattle.minus_text.specs.Matches.{nth_match};
    ghost use Rattle.minus_state.specs.Matches.{numbers_of};

    /// The number of rows that match. It takes no memory.
    pub fn len(self) -> usize
        ensures { result ≡ length (numbers_of self.entry) }
    {
        self.view.match_count()
    }

    /// Whether no row matches. It takes no memory.
    pub fn is_empty(self) -> bool
        ensures { result ≡ (length (numbers_of self.entry) == 0) }
    {
        self.len() == 0
    }

    /// The row at a place, if there is one. It takes no memory.
    pub fn row(self, place: usize) -> Option<usize>
        ensures { result ≡ slice_get (numbers_of self.entry) place }
    {
        self.view.match_row(place)
    }

    /// The place of the row that matches to which a jump by this number of such rows from a row goes; a jump by 0 stays
    /// at one that is right there. Past the last the jump goes on at the first. `None` where no row matches. It takes
    /// no memory, and halves the rows that match.
    pub fn nth_match(self, mark: usize, jump: usize) -> Option<usize>
        ensures { result ≡ nth_match (numbers_of self.entry) mark jump }
    {
        self.view.nth_match(mark, jump)
    }
}
