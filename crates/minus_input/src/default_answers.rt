//! What the default actions answer to an event in a state.
ghost use Rattle.std.specs.Prelude.{◌≡◌};
ghost use Rattle.minus_input.specs.DefaultAnswers.{typed, steps, up_by, down_by, left_by, right_by, half_page, page};
ghost use Rattle.minus_input.specs.DefaultAnswers.{restore_or_down, row_of_line, to_line, selection_start};
ghost use Rattle.minus_input.specs.DefaultAnswers.{selection_update, next_match, previous_match, new_size, default_answer};

use crate::default_action::DefaultAction;
use crate::number::parse_usize;
use minus_state::{InputEvent, PagerState, SearchMode, typed_digit};
use minus_term::{Event, page_len};

// The number that the typed prefix writes.
pub(crate) fn typed(state: &PagerState) -> Option<usize>
    ensures { result ≡ typed state.now }
{
    parse_usize(&state.prefix_num)
}

// The typed prefix as a number of steps: 1 where it writes none.
pub(crate) fn steps(state: &PagerState) -> usize
    ensures { result ≡ steps state.now }
{
    typed(state).unwrap_or(1)
}

// The mark moves up by some rows, not above the first one.
pub(crate) fn up_by(state: &PagerState, rows: usize) -> InputEvent
    ensures { result ≡ up_by state.now rows }
{
    InputEvent::UpdateUpperMark(state.upper_mark.saturating_sub(rows))
}

// The mark moves down by some rows.
pub(crate) fn down_by(state: &PagerState, rows: usize) -> InputEvent
    ensures { result ≡ down_by state.now rows }
{
    InputEvent::UpdateUpperMark(state.upper_mark.saturating_add(rows))
}

// The left mark moves left by some columns, not beyond the first one.
pub(crate) fn left_by(state: &PagerState, columns: usize) -> InputEvent
    ensures { result ≡ left_by state.now columns }
{
    InputEvent::UpdateLeftMark(state.left_mark.saturating_sub(columns))
}

// The left mark moves right by some columns.
pub(crate) fn right_by(state: &PagerState, columns: usize) -> InputEvent
    ensures { result ≡ right_by state.now columns }
{
    InputEvent::UpdateLeftMark(state.left_mark.saturating_add(columns))
}

// Half of the terminal's rows.
pub(crate) fn half_page(state: &PagerState) -> usize
    ensures { result ≡ half_page state.now }
{
    state.rows / 2
}

// The rows of text on a page.
pub(crate) fn page(state: &PagerState) -> usize
    ensures { result ≡ page state.now }
{
    page_len(state.rows)
}

// The message goes if there is one; else the mark moves down.
pub(crate) fn restore_or_down(state: &PagerState) -> InputEvent
    ensures { result ≡ restore_or_down state.now }
{
    if state.message.is_some() {
        InputEvent::RestorePrompt
    } else {
        down_by(state, steps(state))
    }
}

// The first row of the line that the typed prefix names, counted from 1.
fn row_of_line(state: &PagerState) -> Option<usize>
    ensures { result ≡ row_of_line state.now (typed state.now) }
{
    match typed(state) {
        None | Some(0) => None,
        Some(number) => state.line_first_row(number - 1),
    }
}

// The mark moves to the line that the typed prefix names; to the bottom where it names none.
fn to_line(state: &PagerState) -> InputEvent
    ensures { result ≡ to_line state.now }
{
    InputEvent::UpdateUpperMark(row_of_line(state).unwrap_or(usize::MAX - 1))
}

// A selection begins where the mouse is.
fn selection_start(event: &Event) -> InputEvent
    ensures { result ≡ selection_start event.now }
{
    match event {
        Event::Mouse(mouse) => InputEvent::StartSelection {
            x: mouse.column,
            y: mouse.row,
        },
        _ => InputEvent::Ignore,
    }
}

// A selection is dragged to where the mouse is.
fn selection_update(event: &Event) -> InputEvent
    ensures { result ≡ selection_update event.now }
{
    match event {
        Event::Mouse(mouse) => InputEvent::UpdateSelection {
            x: mouse.column,
            y: mouse.row,
        },
        _ => InputEvent::Ignore,
    }
}

// A jump in the direction of the last search; where no search has begun, none.
fn next_match(state: &PagerState) -> InputEvent
    ensures { result ≡ next_match state.now.search_state.search_mode (steps state.now) }
{
    match state.search_state.search_mode {
        SearchMode::Forward => InputEvent::MoveToNextMatch(steps(state)),
        SearchMode::Reverse => InputEvent::MoveToPrevMatch(steps(state)),
        SearchMode::Unknown => InputEvent::Ignore,
    }
}

// A jump against the direction of the last search; where no search has begun, none.
fn previous_match(state: &PagerState) -> InputEvent
    ensures { result ≡ previous_match state.now.search_state.search_mode (steps state.now) }
{
    match state.search_state.search_mode {
        SearchMode::Forward => InputEvent::MoveToPrevMatch(steps(state)),
        SearchMode::Reverse => InputEvent::MoveToNextMatch(steps(state)),
        SearchMode::Unknown => InputEvent::Ignore,
    }
}

// A resize asks for the terminal's new size.
fn new_size(event: &Event) -> InputEvent
    ensures { result ≡ new_size event.now }
{
    match event {
        Event::Resize(cols, rows) => {
            InputEvent::UpdateTermArea(usize::from(*cols), usize::from(*rows))
        }
        _ => InputEvent::Ignore,
    }
}

impl DefaultAction {
    /// What this action answers to an event in a state.
    pub fn answer(&self, event: &Event, state: &PagerState) -> InputEvent
        ensures { result ≡ default_answer self.now event.now state.now }
    {
        match self {
            DefaultAction::Quit => InputEvent::Exit,
            DefaultAction::ScrollUp => up_by(state, steps(state)),
            DefaultAction::ScrollDown => down_by(state, steps(state)),
            DefaultAction::ToggleFollow => InputEvent::FollowOutput(!state.follow_output()),
            DefaultAction::ScrollLines => restore_or_down(state),
            DefaultAction::HalfPageUp => up_by(state, half_page(state)),
            DefaultAction::HalfPageDown => down_by(state, half_page(state)),
            DefaultAction::Top => InputEvent::UpdateUpperMark(0),
            DefaultAction::GoToLine => to_line(state),
            DefaultAction::PageUp => up_by(state, page(state)),
            DefaultAction::PageDown => down_by(state, page(state)),
            DefaultAction::ToggleNumbers => InputEvent::UpdateLineNumber(!state.line_numbers),
            DefaultAction::Bottom => InputEvent::UpdateUpperMark(usize::MAX - 1),
            DefaultAction::Help => InputEvent::ShowHelp,
            DefaultAction::SearchForward => InputEvent::Search(SearchMode::Forward),
            DefaultAction::SearchBackward => InputEvent::Search(SearchMode::Reverse),
            DefaultAction::NextMatch => next_match(state),
            DefaultAction::PreviousMatch => previous_match(state),
            DefaultAction::WheelUp => up_by(state, 5),
            DefaultAction::WheelDown => down_by(state, 5),
            DefaultAction::StartSelection => selection_start(event),
            DefaultAction::UpdateSelection => selection_update(event),
            DefaultAction::CopySelection => InputEvent::CopySelection,
            DefaultAction::ToggleWrap => InputEvent::HorizontalScroll(!state.line_wrapping()),
            DefaultAction::ScrollLeft => left_by(state, steps(state)),
            DefaultAction::ScrollRight => right_by(state, steps(state)),
            DefaultAction::Resize => new_size(event),
            DefaultAction::TypeDigit => typed_digit(event),
        }
    }
}
