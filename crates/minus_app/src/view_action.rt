//! What a key does that no default action of the pager does.
ghost use Rattle.std.specs.Prelude.{◌≡◌};

/// What a key does that no default action of the pager does: as in `less`, where that has it. A number before the key
/// is its count.
#[derive(Clone, Copy, PartialEq, Eq)]
pub enum ViewAction {
    /// Moves down by a page, or by as many rows as are counted.
    PageDown,
    /// Moves up by a page, or by as many rows as are counted.
    PageUp,
    /// Moves down by half a page, or by as many rows as are counted.
    HalfPageDown,
    /// Moves up by half a page, or by as many rows as are counted.
    HalfPageUp,
    /// Goes to the counted line, or else to the first one.
    FirstLine,
    /// Goes to the counted line, or else to the last page; the text is read on for that.
    LastLine,
    /// Goes to the line at the counted per cent of the text, or else to the first one; all of the text is read for
    /// that.
    Percent,
    /// Moves the page to the right by half of its columns, or by as many as are counted, where lines are not wrapped.
    Right,
    /// Moves the page to the left by half of its columns, or by as many as are counted, where lines are not wrapped.
    Left,
    /// Goes to the next match in the direction of the search, seen from the page; the text is read on for that.
    NextMatch,
    /// Goes to the next match against the direction of the search, seen from the page.
    PreviousMatch,
    /// Draws the whole page again.
    Redraw,
    /// Ends what goes on, following or reading on, and else the program.
    Interrupt,
    /// Keeps the place of the page under the letter that is typed next.
    SetMark,
    /// Goes to the place that is kept under the letter that is typed next; with `'`, back to before the last jump.
    GoToMark,
    /// Says in the prompt row where in the text the page is, in lines and in bytes.
    TellPlace,
    /// Sets the option whose letter is typed next.
    SetOption,
    /// Does what the letter that is typed next says: `q` ends, `n` and `p` go to the next text and the one before.
    Command,
    /// Ends the program where the same key is typed once more.
    EndTwice,
    /// Shows the matches no more, or again.
    TurnMatches,
    /// Takes what is typed up to Enter, and does nothing with it: a command of `less` that is none here.
    PassLine,
}

impl ViewAction {
    ghost use Rattle.minus_app.specs.Moves.{holds_in_help, view_description};

    /// What help says of it.
    pub fn description(self) -> &'static str
        ensures { result.now ≡ view_description self }
    {
        match self {
            ViewAction::PageDown => "page down, or by N rows",
            ViewAction::PageUp => "page up, or by N rows",
            ViewAction::HalfPageDown => "half a page down, or N rows",
            ViewAction::HalfPageUp => "half a page up, or N rows",
            ViewAction::FirstLine => "first line, or line N",
            ViewAction::LastLine => "end of the text, or line N",
            ViewAction::Percent => "N per cent of the text",
            ViewAction::Right => "half a page to the right, or N columns",
            ViewAction::Left => "half a page to the left, or N columns",
            ViewAction::NextMatch => "next match in the direction of the search",
            ViewAction::PreviousMatch => "match against the direction of the search",
            ViewAction::Redraw => "draw the page again",
            ViewAction::Interrupt => "end following, reading on, or the program",
            ViewAction::SetMark => "keep this place under a letter",
            ViewAction::GoToMark => "go to the place of a letter, ' back",
            ViewAction::TellPlace => "where in the text the page is",
            ViewAction::SetOption => "set an option: N numbers, S cut, i I case",
            ViewAction::Command => "q quit, n next file, p file before",
            ViewAction::EndTwice => "quit, typed twice",
            ViewAction::TurnMatches => "show matches no more, or again",
            ViewAction::PassLine => "not done here, with what follows up to Enter",
        }
    }

    // Whether it is done while help is open too.
    pub(crate) fn holds_in_help(self) -> bool
        ensures { result ≡ holds_in_help self }
    {
        match self {
            ViewAction::PageDown
            | ViewAction::PageUp
            | ViewAction::HalfPageDown
            | ViewAction::HalfPageUp
            | ViewAction::FirstLine
            | ViewAction::LastLine
            | ViewAction::Percent
            | ViewAction::Right
            | ViewAction::Left
            | ViewAction::Redraw => true,
            ViewAction::NextMatch
            | ViewAction::PreviousMatch
            | ViewAction::Interrupt
            | ViewAction::SetMark
            | ViewAction::GoToMark
            | ViewAction::TellPlace
            | ViewAction::SetOption
            | ViewAction::Command
            | ViewAction::EndTwice
            | ViewAction::TurnMatches
            | ViewAction::PassLine => false,
        }
    }
}
