//! What a session begins with: the state once the commands that wait in its pager were read in, and the drawings of its
//! first page.
ghost use Rattle.std.specs.Prelude.{◌≡◌, ◌<◌, [], false, None, Some, is_some, map, vec_len, string_bytes, OnOk, IfOk, IfErr};
ghost use Rattle.minus_term.specs.Refusals.{refusal_of, for_memory};
ghost use Rattle.minus_term.specs.Written.{written_all};
ghost use Rattle.minus_state.specs.Changes.{IsUnformedState};
ghost use Rattle.minus_state.specs.ClampedMark.{IsClamped};
ghost use Rattle.minus_state.specs.Hooks.{held_by};
ghost use Rattle.minus_state.specs.ShownPrompt.{prompt_row as row_shown};
ghost use Rattle.minus_state.specs.States.{IsFormed, control_of};
ghost use Rattle.minus_commands.specs.Callbacks.{callbacks_of, no_callbacks};
ghost use Rattle.minus_draw.specs.Drawings.{whole_page};
ghost use Rattle.minus_commands.specs.Registration.{kept_at_first, ids_after, IsFreeFor};
ghost use Rattle.minus_commands.specs.Queued.{waiting_of};
ghost use Rattle.minus_commands.specs.Reads.{kept_of, wanted_of};
ghost use Rattle.minus_commands.specs.Room.{HasRoomFor};
ghost use Rattle.minus_commands.specs.WaitingRegistrations.{CanTakeAll};
ghost use Rattle.minus.specs.Starts.{taken_all, first_control, first_mark, first_move, move_ops};
ghost use Rattle.minus.specs.Starts.{CanStart, CanBegin, CannotStart};
ghost use Rattle.minus.specs.Starts.{IsUnchecked, IsUntaken, IsFormRefused};
ghost use Rattle.minus_commands.specs.Table.{handed, IsPossible};

use crate::hooks::HookList;
use crate::input::Classifier;
use crate::joined::next_taken;
use crate::state::{PagerState, RunMode};
use minus_commands::commands::CommandOf;
use minus_commands::outcome::unmoved;
use minus_commands::pager::{PagerOf, alloc_of};
use minus_commands::parts::{Parts, PartsOf};
use minus_commands::registration::reserve;
use minus_commands::request::{check_command, check_size};
use minus_draw::drawings::{Drawing, WholePage, draw_page, push_step};
use minus_state::change::Redraw;
use minus_term::MinusError;
use std::alloc::{AllocError, Global};

// Whether a session can be started so: in a mode in which one runs, and for a size of a terminal.
pub(crate) fn check_start(mode: RunMode, cols: usize, rows: usize) -> Result<(), MinusError>
    ensures can { OnOk result (CanStart mode cols rows) }
    ensures refused { IfErr result (λ e. CannotStart (refusal_of e) mode cols rows) }
{
    match mode {
        RunMode::Uninitialized => Err(MinusError::BadMode),
        RunMode::Static | RunMode::Dynamic => check_size(cols, rows),
    }
}

// Whether a command that waits can be read in beside these ids of hooks, which are those after it then.
fn check_next<P: Parts>(ids: &mut HookList<()>, command: &CommandOf<P>) -> Result<(), MinusError>
    ensures possible { OnOk result (IsPossible (wanted_of command.now)) }
    ensures free { OnOk result (IsFreeFor (held_by ids.old).ids (handed (wanted_of command.now))) }
    ensures ids { OnOk result ((held_by ids.new).ids
        ≡ ids_after (held_by ids.old).ids (handed (wanted_of command.now))) }
    ensures refused { IfErr result (λ e. IsUnchecked (refusal_of e) (held_by ids.old).ids (wanted_of command.now)) }
{
    match command {
        CommandOf::AddHook(hook, id, _) => ids.add_callback(*hook, *id, ()),
        CommandOf::RemoveHook(hook, id) => {
            ids.remove_callback(*hook, *id);
            Ok(())
        }
        _ => check_command(command),
    }
}

// Whether the commands that wait can be read in.
fn check_waiting<P: Parts>(alloc: Global, queue: &[CommandOf<P>]) -> Result<(), MinusError>
    ensures can { OnOk result (CanTakeAll [] (map wanted_of queue.now)) }
    ensures refused { IfErr result (λ e. IsUntaken (refusal_of e) [] (map wanted_of queue.now)) }
{
    let mut ids = HookList::new(alloc);
    for command in queue {
        check_next(&mut ids, command)?;
    }
    Ok(())
}

// Reads in the commands that wait in a pager, but for what they register: neighbouring appends in one go, where they
// may be.
fn take_waiting<P: Parts>(
    alloc: Global,
    state: &mut PagerState,
    queue: &[CommandOf<P>],
) -> Result<(), MinusError>
    requires formed { IsFormed state.old }
    requires can { CanTakeAll [] (map wanted_of queue.now) }
    ensures control { OnOk result (control_of state.new
        ≡ taken_all (control_of state.old) (map wanted_of queue.now)) }
    ensures formed { OnOk result (IsFormed state.new) }
    ensures memory { IfErr result (λ e. refusal_of e ≡ for_memory) }
{
    let mut rest = queue;
    while let Some((command, behind)) = rest.split_first() {
        let (request, left) = next_taken(alloc, state, command, behind)?;
        let outcome = unmoved(state, alloc, request)?;
        state.place(alloc, outcome.into_change())?;
        rest = left;
    }
    Ok(())
}

// What a session begins with: its parts, the prompt row, the drawings of the first page and of the first move over it,
// and the mark after that.
#[derive(Drop)]
pub(crate) struct First<P: Parts> {
    pub(crate) parts: PartsOf<P>,
    pub(crate) prompt_row: String,
    pub(crate) page: Vec<u8>,
    pub(crate) movement: Vec<u8>,
    pub(crate) mark: usize,
    ghost formed: { IsFormed parts.state },
    ghost clamped: { IsClamped (control_of parts.state) },
    ghost prompted: { string_bytes prompt_row ≡ row_shown (control_of parts.state) },
    ghost drawn: { page.items ≡ written_all (whole_page (control_of parts.state)) },
    ghost closed: { is_some (control_of parts.state).search ≡ false },
    ghost moved: { movement.items ≡ written_all (move_ops (control_of parts.state)) },
    ghost marked: { mark ≡ (first_move (control_of parts.state)).left.mark },
}

// The first state of a pager.
fn first_state<P: Parts>(
    pager: &PagerOf<P>,
    cols: usize,
    rows: usize,
) -> Result<PagerState, MinusError>
    requires can { CanTakeAll [] (map wanted_of (waiting_of pager.now)) }
    ensures control { IfOk result (λ s. control_of s
        ≡ first_control cols rows (map wanted_of (waiting_of pager.now))) }
    ensures formed { IfOk result IsFormed }
    ensures refused { IfErr result (λ e. IsUnformedState (refusal_of e) cols rows) }
{
    let mut state = PagerState::new(alloc_of(pager), cols, rows)?;
    take_waiting(alloc_of(pager), &mut state, pager.waiting())?;
    Ok(state)
}

// The mark once the first page is drawn.
fn first_mark(state: &PagerState) -> usize
    ensures { IsFormed state.now → result ≡ first_mark (control_of state.now) }
{
    if state.follow_output() {
        return state.top();
    }
    state.upper_mark
}

// The drawing of the first move over the first page, and the mark after it.
fn draw_move(
    alloc: Global,
    state: &PagerState,
    prompt: &str,
) -> Result<(Vec<u8>, usize), AllocError>
    requires formed { IsFormed state.now }
    requires closed { (control_of state.now).search ≡ None }
    requires prompt { prompt.now ≡ row_shown (control_of state.now) }
    ensures drawn { IfOk result (λ m. m.0.items ≡ written_all (move_ops (control_of state.now))) }
    ensures mark { IfOk result (λ m. m.1 ≡ (first_move (control_of state.now)).left.mark) }
{
    let change = state.moved_to(first_mark(state));
    let drawing = Drawing::of(state, &change);
    let mut bytes = Vec::new(alloc);
    push_step(state, alloc, &mut bytes, drawing, &change, prompt, prompt)?;
    Ok((bytes, change.mark))
}

// What the session of a pager begins with, but for what was registered with it, for which there is room.
pub(crate) fn first_of<P: Parts>(
    pager: &PagerOf<P>,
    mode: RunMode,
    cols: usize,
    rows: usize,
    classifier: P::Classifier,
) -> Result<First<P>, MinusError>
    ensures begins { OnOk result (CanBegin mode cols rows (map wanted_of (waiting_of pager.now))) }
    ensures control { IfOk result (λ f. control_of f.parts.state
        ≡ first_control cols rows (map wanted_of (waiting_of pager.now))) }
    ensures kept { IfOk result (λ f. kept_of f.parts ≡ kept_at_first) }
    ensures callbacks { IfOk result (λ f. callbacks_of f.parts ≡ no_callbacks) }
    ensures classifier { IfOk result (λ f. f.parts.classifier ≡ classifier) }
    ensures condition { IfOk result (λ f. f.parts.condition ≡ None) }
    ensures room { IfOk result (λ f. HasRoomFor f.parts (vec_len pager.now.queue)) }
    ensures refused { IfErr result (λ e.
        IsFormRefused (refusal_of e) mode cols rows (map wanted_of (waiting_of pager.now))) }
{
    let alloc = alloc_of(pager);
    check_start(mode, cols, rows)?;
    check_waiting(alloc, pager.waiting())?;
    let state = first_state(pager, cols, rows)?;
    let change = state.redrawn(Redraw::Whole);
    let (prompt_row, page) = draw_page(alloc, &state, Drawing::Page(WholePage::Plain), &change)?;
    let (movement, mark) = draw_move(alloc, &state, &prompt_row)?;
    let mut parts = PartsOf::keeping(alloc, state, classifier, None);
    reserve(&mut parts, pager.waiting().len())?;
    Ok(First {
        parts,
        prompt_row,
        page,
        movement,
        mark,
    })
}
