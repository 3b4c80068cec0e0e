//! How a text is paged.
ghost use Rattle.std.specs.Prelude.{◌≡◌};
ghost use Rattle.minus_app.specs.Reading.{first_goal};

use crate::view::Goal;
use minus::{Layout, LineNumbers};
use minus_view::{AtEnd, Case, Opening};

/// How a text is paged.
#[derive(Clone, Copy, PartialEq, Eq)]
pub struct Options<'a> {
    /// Whether lines have numbers.
    pub numbers: bool,
    /// Whether long lines are cut at the screen's edge, and not wrapped.
    pub chops: bool,
    /// Whether a text that fits the terminal is printed, and not paged.
    pub prints: bool,
    /// Whether the pager takes the mouse.
    pub mouse: bool,
    /// Whether the page stays on the terminal where the program ends.
    pub leaves: bool,
    /// Whether the capitals of a query count.
    pub case: Case,
    /// What the end of the text does.
    pub at_end: AtEnd,
    /// Where the first page begins.
    pub opening: Opening<'a>,
}

impl<'a> Options<'a> {
    /// As they are where nothing is asked for: the mouse is the pager's, and the text is paged from its first line on.
    pub fn new() -> Options<'static> {
        Options {
            numbers: false,
            chops: false,
            prints: false,
            mouse: true,
            leaves: false,
            case: Case::Exact,
            at_end: AtEnd::Stays,
            opening: Opening::First,
        }
    }

    // With what an application says of following; a text that is followed is not printed.
    pub(crate) fn with_following(&self, follows: bool) -> Options<'a> {
        let mut options = *self;
        if follows {
            options.opening = Opening::Follows;
        }
        options.prints = self.prints && options.opening != Opening::Follows;
        options
    }

    // How the rows of a text are formed in this many columns. A term is searched for in lines, and colours go on over
    // their rows.
    pub(crate) fn layout(&self, cols: usize) -> Layout {
        Layout {
            cols,
            wrapping: !self.chops,
            numbers: if self.numbers {
                LineNumbers::Enabled
            } else {
                LineNumbers::Disabled
            },
            match_lines: true,
            carry_style: true,
        }
    }

    // What the text is read on for at first: its end, or the line that is shown first, where that is not its first one.
    pub(crate) fn first_goal(&self) -> Option<Goal>
        ensures { result ≡ first_goal self.now }
    {
        match self.opening {
            Opening::Line(line) if line > 1 => Some(Goal::Line(line - 1)),
            Opening::End => Some(Goal::End),
            Opening::First | Opening::Line(_) | Opening::Follows | Opening::Finds(_) => None,
        }
    }
}
