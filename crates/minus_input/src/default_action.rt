//! The default actions, and how a help table describes them.
ghost use Rattle.std.specs.Prelude.{◌≡◌};
ghost use Rattle.minus_input.specs.DefaultActions.{default_description};

/// What a default binding does.
#[derive(Clone, Copy, Debug, PartialEq, Eq)]
pub enum DefaultAction {
    /// End the session.
    Quit,
    /// Scroll up, by as many rows as the typed prefix says.
    ScrollUp,
    /// Scroll down, by as many rows as the typed prefix says.
    ScrollDown,
    /// Follow the text as it grows, or stop following it.
    ToggleFollow,
    /// Drop the message if there is one, and scroll down otherwise.
    ScrollLines,
    /// Scroll up by half of the terminal's rows.
    HalfPageUp,
    /// Scroll down by half of the terminal's rows.
    HalfPageDown,
    /// Go to the first row.
    Top,
    /// Go to the first row of the line that the typed prefix names, counted from 1; to the last page where it names
    /// none.
    GoToLine,
    /// Scroll up by a page.
    PageUp,
    /// Scroll down by a page.
    PageDown,
    /// Show line numbers, or hide them.
    ToggleNumbers,
    /// Go to the last page.
    Bottom,
    /// Show the help table, or leave it.
    Help,
    /// Open the search prompt for a search forward.
    SearchForward,
    /// Open the search prompt for a search backward.
    SearchBackward,
    /// Jump by as many matches as the typed prefix says, in the direction of the last search; nothing where no search
    /// has begun.
    NextMatch,
    /// Jump by as many matches as the typed prefix says, against the direction of the last search; nothing where no
    /// search has begun.
    PreviousMatch,
    /// Scroll up by five rows.
    WheelUp,
    /// Scroll down by five rows.
    WheelDown,
    /// Begin a selection where the mouse is.
    StartSelection,
    /// Lead the selection to where the mouse is.
    UpdateSelection,
    /// Copy what is selected.
    CopySelection,
    /// Wrap long lines, or let each be one row.
    ToggleWrap,
    /// Scroll left, by as many columns as the typed prefix says.
    ScrollLeft,
    /// Scroll right, by as many columns as the typed prefix says.
    ScrollRight,
    /// Take the terminal's new size.
    Resize,
    /// Type a digit to the prefix.
    TypeDigit,
}

impl DefaultAction {
    /// How the help table describes this action; empty where it is not listed there.
    pub fn description(&self) -> &str
        ensures { result.now ≡ default_description self.now }
    {
        match self {
            DefaultAction::Quit => "quit",
            DefaultAction::ScrollUp => "scroll up",
            DefaultAction::ScrollDown => "scroll down",
            DefaultAction::ToggleFollow => "toggle follow",
            DefaultAction::ScrollLines => "scroll lines",
            DefaultAction::HalfPageUp => "half-page up",
            DefaultAction::HalfPageDown => "half-page down",
            DefaultAction::Top => "top",
            DefaultAction::GoToLine | DefaultAction::Bottom => "bottom",
            DefaultAction::PageUp => "page up",
            DefaultAction::PageDown => "page down",
            DefaultAction::ToggleNumbers => "toggle line numbers",
            DefaultAction::Help => "help",
            DefaultAction::SearchForward => "search forward",
            DefaultAction::SearchBackward => "search backward",
            DefaultAction::NextMatch => "next match",
            DefaultAction::PreviousMatch => "previous match",
            DefaultAction::ToggleWrap => "toggle line wrap",
            DefaultAction::ScrollLeft => "scroll left",
            DefaultAction::ScrollRight => "scroll right",
            DefaultAction::WheelUp
            | DefaultAction::WheelDown
            | DefaultAction::StartSelection
            | DefaultAction::UpdateSelection
            | DefaultAction::CopySelection
            | DefaultAction::Resize
            | DefaultAction::TypeDigit => "",
        }
    }
}
