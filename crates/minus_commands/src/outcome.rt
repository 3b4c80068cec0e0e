//! The result of a request, formed beside the state: [`form`] is read beside the table of `specs/Table`, a line each.
ghost use Rattle.std.specs.Prelude.{◌≡◌, IfOk, IfErr};
ghost use Rattle.minus_term.specs.Refusals.{refusal_of};
ghost use Rattle.minus_state.specs.States.{control_of, IsFormed};
ghost use Rattle.minus_commands.specs.Outcomes.{IsFormedFor, IsOutcome, IsUnformed};
ghost use Rattle.minus_commands.specs.Reads.{wanted_by};
ghost use Rattle.minus_commands.specs.Table.{effect_of};
ghost use Rattle.minus_commands.specs.Unmoved.{IsUnmoved};

use crate::parts::Parts;
use crate::request::Request;
use minus_state::change::{Change, Redraw};
use minus_state::state::PagerState;
use minus_state::{SearchChange, extract_selection};
use minus_term::MinusError;
use std::alloc::Global;

/// The result of a request: a change without its move, the row that the mark is moved to before the clamp, if it is
/// moved, whether of the page only the prompt row may have changed, the text that is copied, if one is, and whether it
/// is an exit.
pub struct Outcome {
    pub change: Change,
    pub moves_to: Option<usize>,
    pub row_only: bool,
    pub copied: Option<String>,
    pub exits: bool,
}

// Hand-written: a derived drop would stand again in the proof of each function that lets one go.
impl Drop for Outcome {
    fn drop(self) {
        let Outcome {
            change: _,
            moves_to: _,
            row_only: _,
            copied: _,
            exits: _,
        } = self;
    }
}

impl Outcome {
    ghost use Rattle.std.specs.Prelude.{Some, None, not, true, false, string_bytes};
    ghost use Rattle.std.specs.Option.{option_map};
    ghost use Rattle.minus_state.specs.Changes.{Leads};
    ghost use Rattle.minus_state.specs.Control.{with_follow};
    ghost use Rattle.minus_state.specs.ClampedMark.{top};
    ghost use Rattle.minus_state.specs.Copied.{copied};
    ghost use Rattle.minus_state.specs.Help.{help_open, left_help, prompt_restored};
    ghost use Rattle.minus_state.specs.MatchJumps.{next_match_row, prev_match_row, telling_next, telling_prev};
    ghost use Rattle.minus_state.specs.NextTexts.{Belongs};
    ghost use Rattle.minus_state.specs.RedrawExtent.{whole_where};
    ghost use Rattle.minus_state.specs.Selecting.{has_ends, no_ends};
    ghost use Rattle.minus_state.specs.Selection.{ends_in_order};
    ghost use Rattle.minus_state.specs.States.{ends_of};
    ghost use Rattle.minus_commands.specs.Outcomes.{followed_by};

    /// A change alone.
    pub fn of(change: Change) -> Outcome
        ensures change { result.change ≡ change }
        ensures moves_to { result.moves_to ≡ None }
        ensures row_only { result.row_only ≡ false }
        ensures copied { result.copied ≡ None }
        ensures exits { result.exits ≡ false }
    {
        Outcome {
            change,
            moves_to: None,
            row_only: false,
            copied: None,
            exits: false,
        }
    }

    // A change of which the page may show something in its prompt row alone.
    fn setting(change: Change) -> Outcome
        ensures change { result.change ≡ change }
        ensures moves_to { result.moves_to ≡ None }
        ensures row_only { result.row_only ≡ true }
        ensures copied { result.copied ≡ None }
        ensures exits { result.exits ≡ false }
    {
        Outcome {
            change,
            moves_to: None,
            row_only: true,
            copied: None,
            exits: false,
        }
    }

    // A change, and the row that the mark is moved to, if it is moved.
    fn moving(change: Change, to: Option<usize>) -> Outcome
        ensures change { result.change ≡ change }
        ensures moves_to { result.moves_to ≡ to }
        ensures row_only { result.row_only ≡ false }
        ensures copied { result.copied ≡ None }
        ensures exits { result.exits ≡ false }
    {
        Outcome {
            change,
            moves_to: to,
            row_only: false,
            copied: None,
            exits: false,
        }
    }

    // An append, which moves the mark to the last page where the page goes on with it, but not while help is open.
    fn appending(state: &PagerState, change: Change) -> Outcome
        ensures change { result.change ≡ change }
        ensures moves_to { Belongs state.now.screen.document change.text →
            result.moves_to ≡ followed_by state.now change }
        ensures row_only { result.row_only ≡ false }
        ensures copied { result.copied ≡ None }
        ensures exits { result.exits ≡ false }
    {
        let goes_on = !state.help_open() && state.follow_output();
        let to = goes_on.then_some(change.top(&state.screen));
        Outcome::moving(change, to)
    }

    // A page that goes on with its text, or does not, from the last page on.
    fn following(state: &PagerState, follow: bool) -> Outcome
        ensures next { Leads state.now result.change (with_follow (control_of state.now) follow) }
        ensures redraw { result.change.redraw ≡ Redraw.Moved }
        ensures moves_to { IsFormed state.now → result.moves_to ≡ Some (top (control_of state.now)) }
        ensures row_only { result.row_only ≡ false }
        ensures copied { result.copied ≡ None }
        ensures exits { result.exits ≡ false }
    {
        Outcome::moving(state.with_follow(follow), Some(state.top()))
    }

    // A jump on, to the match that the prompt row then reports.
    fn jumping_on(state: &PagerState, jump: usize) -> Outcome
        ensures next { Leads state.now result.change (telling_next (control_of state.now) jump) }
        ensures redraw { result.change.redraw ≡ Redraw.Moved }
        ensures moves_to { IsFormed state.now → result.moves_to ≡ next_match_row (control_of state.now) jump }
        ensures row_only { result.row_only ≡ false }
        ensures copied { result.copied ≡ None }
        ensures exits { result.exits ≡ false }
    {
        Outcome::moving(state.telling_next(jump), state.next_match_row(jump))
    }

    // A jump back, to the match that the prompt row then reports.
    fn jumping_back(state: &PagerState, jump: usize) -> Outcome
        ensures next { Leads state.now result.change (telling_prev (control_of state.now) jump) }
        ensures redraw { result.change.redraw ≡ Redraw.Moved }
        ensures moves_to { IsFormed state.now → result.moves_to ≡ prev_match_row (control_of state.now) jump }
        ensures row_only { result.row_only ≡ false }
        ensures copied { result.copied ≡ None }
        ensures exits { result.exits ≡ false }
    {
        Outcome::moving(state.telling_prev(jump), state.prev_match_row(jump))
    }

    // An exit, which leaves help where it is open.
    fn leaving(state: &PagerState, alloc: Global) -> Result<Outcome, MinusError>
        ensures next { IfOk result (λ o. Leads state.now o.change
            (left_help (control_of state.now) (control_of state.now).help)) }
        ensures redraw { IfOk result (λ o. o.change.redraw ≡ whole_where (help_open (control_of state.now))) }
        ensures moves_to { IfOk result (λ o. o.moves_to ≡ None) }
        ensures row_only { IfOk result (λ o. o.row_only ≡ false) }
        ensures copied { IfOk result (λ o. o.copied ≡ None) }
        ensures exits { IfOk result (λ o. o.exits ≡ not (help_open (control_of state.now))) }
        ensures memory { IfErr result (λ e. e ≡ MinusError.Memory) }
    {
        let mut outcome = Outcome::of(state.left_help(alloc)?);
        outcome.exits = !state.help_open();
        Ok(outcome)
    }

    // What leaves help where it is open, and else lets the message go, which the prompt row alone shows.
    fn restoring(state: &PagerState, alloc: Global) -> Result<Outcome, MinusError>
        ensures next { IfOk result (λ o. Leads state.now o.change
            (prompt_restored (control_of state.now) (control_of state.now).help)) }
        ensures redraw { IfOk result (λ o. o.change.redraw ≡ whole_where (help_open (control_of state.now))) }
        ensures moves_to { IfOk result (λ o. o.moves_to ≡ None) }
        ensures row_only { IfOk result (λ o. o.row_only ≡ not (help_open (control_of state.now))) }
        ensures copied { IfOk result (λ o. o.copied ≡ None) }
        ensures exits { IfOk result (λ o. o.exits ≡ false) }
        ensures memory { IfErr result (λ e. e ≡ MinusError.Memory) }
    {
        let mut outcome = Outcome::of(state.prompt_restored(alloc)?);
        outcome.row_only = !state.help_open();
        Ok(outcome)
    }

    // What is selected, to be copied, and no longer selected.
    fn copying(state: &PagerState, alloc: Global) -> Result<Outcome, MinusError>
        ensures next { IfOk result (λ o. Leads state.now o.change (record (control_of state.now) { ends = no_ends })) }
        ensures redraw { IfOk result (λ o. o.change.redraw ≡ whole_where (has_ends (ends_of state.now))) }
        ensures moves_to { IfOk result (λ o. o.moves_to ≡ None) }
        ensures row_only { IfOk result (λ o. o.row_only ≡ false) }
        ensures copied { IfOk result (λ o. option_map string_bytes o.copied
            ≡ copied state.now.screen.document (ends_in_order (ends_of state.now))) }
        ensures exits { IfOk result (λ o. o.exits ≡ false) }
        ensures memory { IfErr result (λ e. e ≡ MinusError.Memory) }
    {
        let copied = extract_selection(alloc, &state.screen, state.ends())?;
        let mut outcome = Outcome::of(state.unselected());
        outcome.copied = copied;
        Ok(outcome)
    }

    /// The change alone.
    pub fn into_change(self) -> Change
        ensures { result ≡ self.change }
    {
        let Outcome {
            change,
            moves_to: _,
            row_only: _,
            copied: _,
            exits: _,
        } = self;
        change
    }
}

// The result of a request, as `form` says it, where it is a rare one. It stands apart: whenever a function is called it
// pays for the room of each change that it may make.
#[inline(never)]
fn form_any<P: Parts>(
    state: &PagerState,
    alloc: Global,
    request: Request<P>,
) -> Result<Outcome, MinusError>
    ensures formed { IfOk result (IsFormedFor state.now (wanted_by request)) }
    ensures unformed { IfErr result (λ e. IsUnformed (refusal_of e) (wanted_by request)) }
{
    match request {
        // `form`, `form_text` and `form_page` have these three, so they are not reached here
        Request::MoveMark(mark) => Ok(Outcome::moving(state.redrawn(Redraw::Moved), Some(mark))),
        Request::AppendText(text) => Ok(Outcome::appending(state, state.added(alloc, text)?)),
        Request::RedrawPage => Ok(Outcome::of(state.redrawn(Redraw::Whole))),

        Request::SetText(text) => Ok(Outcome::of(state.replaced(alloc, text)?)),
        Request::Resize(cols, rows) => Ok(Outcome::of(state.resized(alloc, cols, rows)?)),
        Request::Exit => Outcome::leaving(state, alloc),
        Request::Ignore => Ok(Outcome::of(state.redrawn(Redraw::Stays))),
        Request::SetPrompt(text) => Ok(Outcome::setting(state.prompted(text)?)),
        Request::SendMessage(text) => Ok(Outcome::setting(state.messaged(text)?)),
        Request::ShowPrompt(is_shown) => Ok(Outcome::setting(state.with_prompt_shown(is_shown))),
        Request::Follow(follow) => Ok(Outcome::following(state, follow)),
        Request::Type(character) => Ok(Outcome::setting(state.typed(alloc, character)?)),
        Request::RestorePrompt => Outcome::restoring(state, alloc),
        Request::RedrawPrompt => Ok(Outcome::of(state.redrawn(Redraw::PromptRow))),
        Request::HandOver(_) => Ok(Outcome::of(state.redrawn(Redraw::Stays))),
        Request::SetNumbers(numbers) => Ok(Outcome::of(state.renumbered(alloc, numbers)?)),
        Request::SetWrapping(wrapping) => Ok(Outcome::of(state.rewrapped(alloc, wrapping)?)),
        Request::SetMatchLines(on) => Ok(Outcome::of(state.rematched(alloc, on)?)),
        Request::SetCarryStyle(carry_style) => Ok(Outcome::of(state.restyled(alloc, carry_style)?)),
        Request::ShiftLeft(left) => Ok(Outcome::of(state.shifted(left))),
        Request::StartSelection { x, y } => Ok(Outcome::of(state.selected(x, y))),
        Request::UpdateSelection { x, y } => Ok(Outcome::of(state.dragged(x, y))),
        Request::ClearSelection => Ok(Outcome::of(state.unselected())),
        Request::CopySelection => Outcome::copying(state, alloc),
        Request::ShowHelp(text) => Ok(Outcome::of(state.help_toggled(alloc, text)?)),
        Request::MoveToNextMatch(jump) => Ok(Outcome::jumping_on(state, jump)),
        Request::MoveToPrevMatch(jump) => Ok(Outcome::jumping_back(state, jump)),
        Request::Search(mode) => Ok(Outcome::of(state.opened(alloc, mode)?)),
        Request::FetchSearchQuery => {
            let mode = state.search_state.search_mode;
            Ok(Outcome::of(state.opened(alloc, mode)?))
        }
    }
}

// The result of a request, as `form` says it, where it draws the page or is a rare one. It stands apart, as `form_any`.
#[inline(never)]
fn form_page<P: Parts>(
    state: &PagerState,
    alloc: Global,
    request: Request<P>,
) -> Result<Outcome, MinusError>
    ensures formed { IfOk result (IsFormedFor state.now (wanted_by request)) }
    ensures unformed { IfErr result (λ e. IsUnformed (refusal_of e) (wanted_by request)) }
{
    match request {
        Request::RedrawPage => Ok(Outcome::of(state.redrawn(Redraw::Whole))),
        request => form_any(state, alloc, request),
    }
}

// The result of a request, as `form` says it, where it moves no mark. It stands apart, as `form_any`.
#[inline(never)]
fn form_text<P: Parts>(
    state: &PagerState,
    alloc: Global,
    request: Request<P>,
) -> Result<Outcome, MinusError>
    ensures formed { IfOk result (IsFormedFor state.now (wanted_by request)) }
    ensures unformed { IfErr result (λ e. IsUnformed (refusal_of e) (wanted_by request)) }
{
    match request {
        Request::AppendText(text) => Ok(Outcome::appending(state, state.added(alloc, text)?)),
        request => form_page(state, alloc, request),
    }
}

// The result of a request by the table, before its move, the clamp, and before the typed prefix goes. It forms only a
// move of the mark itself, which takes little room.
fn form<P: Parts>(
    state: &PagerState,
    alloc: Global,
    request: Request<P>,
) -> Result<Outcome, MinusError>
    ensures formed { IfOk result (IsFormedFor state.now (wanted_by request)) }
    ensures unformed { IfErr result (λ e. IsUnformed (refusal_of e) (wanted_by request)) }
{
    match request {
        Request::MoveMark(mark) => Ok(Outcome::moving(state.redrawn(Redraw::Moved), Some(mark))),
        request => form_text(state, alloc, request),
    }
}

/// The result of a request, formed beside the state: the mark is moved and clamped last, and the typed prefix goes, or
/// stays. What is registered is kept apart from this.
pub fn outcome_of<P: Parts>(
    state: &PagerState,
    alloc: Global,
    request: Request<P>,
    clears_prefix: bool,
) -> Result<Outcome, MinusError>
    requires { IsFormed state.now }
    ensures ok { IfOk result (IsOutcome clears_prefix (control_of state.now) (wanted_by request)) }
    ensures unformed { IfErr result (λ e. IsUnformed (refusal_of e) (wanted_by request)) }
{
    let mut outcome = form(state, alloc, request)?;
    outcome.change.mark = outcome.moves_to.unwrap_or(outcome.change.mark);
    outcome.change.clamp(&state.screen);
    if !clears_prefix {
        return Ok(outcome);
    }
    outcome.change.prefix = Some(String::new(alloc));
    Ok(outcome)
}

/// The result of a request, formed beside the state, without its move and the opening of a search prompt; the mark is
/// clamped.
pub fn unmoved<P: Parts>(
    state: &PagerState,
    alloc: Global,
    request: Request<P>,
) -> Result<Outcome, MinusError>
    ensures ok { IfOk result (λ o. IsFormed state.now → IsUnmoved (control_of state.now) (wanted_by request) o) }
    ensures exits { IfOk result (λ o. o.exits ≡ (effect_of (control_of state.now) (wanted_by request)).is_exit) }
    ensures unformed { IfErr result (λ e. IsUnformed (refusal_of e) (wanted_by request)) }
{
    let mut outcome = form(state, alloc, request)?;
    outcome.change.search = SearchChange::Stays;
    outcome.change.clamp(&state.screen);
    Ok(outcome)
}
