//! The start of a session.
ghost use Rattle.std.specs.Prelude.{◌≡◌, ◌<◌, ◌==◌, ◌++◌, if◌then◌else◌, [], true, None, Some, length, map, vec_len, OnOk, OnErr, IfOk, IfErr};
ghost use Rattle.std.specs.Io.KnownBytes.{Appends};
ghost use Rattle.minus_term.specs.Counts.{Stays, Rises, RisesBy};
ghost use Rattle.minus_term.specs.Refusals.{refusal_of, at_drawing};
ghost use Rattle.minus_term.specs.Terminal.{setup_bytes};
ghost use Rattle.minus_input.specs.DefaultBindings.{default_register};
ghost use Rattle.minus_input.specs.DefaultClassifier.{IsDefault};
ghost use Rattle.minus_input.specs.EventTables.{register_of};
ghost use Rattle.minus_commands.specs.Callbacks.{callbacks_of, no_callbacks, with_commands, CallsHook, CallsStart};
ghost use Rattle.minus_commands.specs.Registration.{kept_at_first};
ghost use Rattle.minus_commands.specs.Queued.{waiting_of};
ghost use Rattle.minus_commands.specs.Reads.{kept_of, wanted_of};
ghost use Rattle.minus_commands.specs.Room.{HasRoomFor};
ghost use Rattle.minus.specs.SessionStarts.{IsStart, IsBegun, IsUnbegun, IsFirstStart, IsRefusedStart, IsOpened, IsUnopened};
ghost use Rattle.minus_commands.specs.WaitingRegistrations.{kept_taken, classifier_taken, condition_taken, CanTakeAll};
ghost use Rattle.minus.specs.Starts.{IsUnregistered};
ghost use Rattle.minus.specs.Starts.{IsShowRefused, IsStartFault};
ghost use Rattle.minus.specs.Starts.{DrawsOff, ShowBreaks, StartLeavesItsPage};
ghost use Rattle.minus_commands.specs.Table.{handed};

use crate::hooks::{ExitCall, Hook, HookCall};
use crate::input::{ActionCall, Classifier, EventTable, FixedSeed};
use crate::search::ConditionCall;
use crate::session::Core;
use crate::starts::{First, check_start, first_of};
use crate::state::RunMode;
use crate::status::Status;
use minus_commands::callbacks::call_hook;
use minus_commands::pager::{PagerOf, alloc_of, keep_waiting};
use minus_commands::parts::{Boxes, Calls, Keyed, Parts};
use minus_term::{MinusError, OutputSink, cleanup, draw_bytes, setup};
use std::alloc::Global;
use std::collections::VecDeque;

/// A start that was refused, over the kinds of what the session would keep.
#[derive(Drop)]
#[derive_where(Debug; S)]
pub struct StartErrorOf<S, P: Parts> {
    /// The sink that was handed in.
    pub sink: S,
    /// The pager that was handed in, unchanged, where the cause was found before the sink was asked for anything.
    pub pager: Option<PagerOf<P>>,
    /// Why.
    pub cause: MinusError,
}

/// A refused start of a session that keeps what its caller boxes, or a register of bindings.
pub type StartError<S> = StartErrorOf<S, Boxes>;

impl<S, P: Parts> StartErrorOf<S, P> {
    // A start that was refused before a callback was called and a byte written.
    pub(crate) fn early(pager: PagerOf<P>, sink: S, cause: MinusError) -> StartErrorOf<S, P>
        ensures sink { result.sink ≡ sink }
        ensures pager { result.pager ≡ Some pager }
        ensures cause { result.cause ≡ cause }
    {
        StartErrorOf {
            sink,
            pager: Some(pager),
            cause,
        }
    }
}

/// Why a start was refused; the sink and the pager are let go.
impl<S: Drop, P: Parts> From<StartErrorOf<S, P>> for MinusError {
    ghost from_gives = { λ start e. e ≡ start.cause };

    fn from(refused: StartErrorOf<S, P>) -> MinusError {
        refused.cause
    }
}

// Draws on a terminal that was set up. Where it is not drawn on, it is cleaned up as far as the sink takes it.
fn draw<S: OutputSink>(sink: &mut S, drawing: &[u8]) -> Result<(), MinusError>
    ensures ok { OnOk result (Appends (S.seen sink.old).bytes (S.seen sink.new).bytes drawing.now) }
    ensures stays { OnOk result (Stays (S.seen sink.old).refusals (S.seen sink.new).refusals) }
    ensures settled { OnOk result (RisesBy (S.seen sink.old).settles (S.seen sink.new).settles
        (if length drawing.now == 0 then 0 else 1)) }
    ensures cause { IfErr result (λ e. refusal_of e ≡ at_drawing) }
    ensures broken { OnErr result (DrawsOff (S.seen sink.old).bytes (S.seen sink.new).bytes
        (S.seen sink.old).refusals (S.seen sink.new).refusals drawing.now) }
    ensures some { OnErr result (0 < length drawing.now) }
    ensures rises { OnErr result (Rises (S.seen sink.old).refusals (S.seen sink.new).refusals) }
{
    if drawing.is_empty() {
        return Ok(());
    }
    if let Err(cause) = draw_bytes(sink, drawing) {
        let _ = cleanup(sink, true);
        return Err(MinusError::Draw(cause));
    }
    Ok(())
}

// Sets the terminal up and draws on it. Where it is not drawn on, it is cleaned up as far as the sink takes it.
fn show<S: OutputSink>(sink: &mut S, drawing: &[u8]) -> Result<(), MinusError>
    ensures ok { OnOk result (Appends (S.seen sink.old).bytes (S.seen sink.new).bytes (setup_bytes ++ drawing.now)) }
    ensures stays { OnOk result (Stays (S.seen sink.old).refusals (S.seen sink.new).refusals) }
    ensures terminal { OnOk result ((S.seen sink.old).terminal ≡ true) }
    ensures refused { IfErr result (λ e. IsShowRefused (refusal_of e) (S.seen sink.old).terminal) }
    ensures broken { IfErr result (λ e. ShowBreaks (refusal_of e) (S.seen sink.old) (S.seen sink.new) drawing.now) }
    ensures rises { IfErr result (λ e. IsStartFault (refusal_of e) →
        Rises (S.seen sink.old).refusals (S.seen sink.new).refusals) }
    ensures untouched { IfErr result (λ e. (IsStartFault (refusal_of e) → ⊥) → sink.new ≡ sink.old) }
{
    setup(sink)?;
    draw(sink, drawing)?;
    Ok(())
}

// What a session begins with, once what was registered with its pager is kept, for which there is room, and the
// callbacks before the start were called.
pub(crate) fn prepare<P: Calls>(first: First<P>, pager: PagerOf<P>) -> First<P>
    requires room { HasRoomFor first.parts (vec_len pager.queue) }
    requires can { CanTakeAll (kept_of first.parts).ids (map wanted_of (waiting_of pager)) }
    ensures state { result.parts.state ≡ first.parts.state }
    ensures kept { kept_of result.parts ≡ kept_taken (kept_of first.parts) (map wanted_of (waiting_of pager)) }
    ensures classifier { result.parts.classifier
        ≡ classifier_taken first.parts.classifier (map wanted_of (waiting_of pager)) }
    ensures condition { result.parts.condition
        ≡ condition_taken first.parts.condition (map wanted_of (waiting_of pager)) }
    ensures called { CallsHook (Some Hook.PrePagerStart)
        (with_commands (callbacks_of first.parts) (waiting_of pager)) (callbacks_of result.parts) }
{
    let First {
        mut parts,
        prompt_row,
        page,
        movement,
        mark,
    } = first;
    keep_waiting(&mut parts, pager);
    call_hook(&mut parts, Hook::PrePagerStart);
    First {
        parts,
        prompt_row,
        page,
        movement,
        mark,
    }
}

// Shows what a session begins with on a terminal.
pub(crate) fn open<S: OutputSink + Drop, P: Calls>(
    alloc: Global,
    mode: RunMode,
    sink: S,
    first: First<P>,
) -> Result<Core<S, P>, StartErrorOf<S, P>>
    ensures opened { IfOk result (λ s. IsOpened S.seen mode first.parts sink s) }
    ensures called { IfOk result (λ s. CallsHook (Some Hook.PostPagerStart)
        (callbacks_of first.parts) (callbacks_of s.parts)) }
    ensures refused { IfErr result (λ e. IsUnopened S.seen first.parts sink e) }
{
    let First {
        mut parts,
        prompt_row,
        page,
        movement,
        mark,
    } = first;
    let mut sink = sink;
    if let Err(cause) = show(&mut sink, &page) {
        return Err(StartErrorOf {
            sink,
            pager: None,
            cause,
        });
    }
    call_hook(&mut parts, Hook::PostPagerStart);
    if let Err(cause) = draw(&mut sink, &movement) {
        return Err(StartErrorOf {
            sink,
            pager: None,
            cause,
        });
    }
    parts.state.upper_mark = mark;
    Ok(Core {
        alloc,
        sink,
        parts,
        prompt_row,
        drawing: page,
        waiting: VecDeque::new(alloc),
        mode,
        status: Status::Running,
    })
}

// The session of a pager.
fn begin<S: OutputSink + Drop, P: Calls>(
    pager: PagerOf<P>,
    mode: RunMode,
    sink: S,
    first: First<P>,
) -> Result<Core<S, P>, StartErrorOf<S, P>>
    requires kept { kept_of first.parts ≡ kept_at_first }
    requires condition { first.parts.condition ≡ None }
    requires room { HasRoomFor first.parts (vec_len pager.queue) }
    requires can { CanTakeAll [] (map wanted_of (waiting_of pager)) }
    requires callbacks { callbacks_of first.parts ≡ no_callbacks }
    ensures called { IfOk result (λ s. CallsStart (with_commands no_callbacks (waiting_of pager))
        (callbacks_of s.parts)) }
    ensures started { IfOk result (λ s. IsBegun S.seen pager mode first.parts sink s) }
    ensures refused { IfErr result (λ e. IsUnbegun S.seen pager mode first.parts sink e) }
{
    let alloc = alloc_of(&pager);
    let ready = prepare(first, pager);
    open(alloc, mode, sink, ready)
}

/// Starts a pager over a sink, for a terminal of this many columns and rows, with a classifier of the caller's: takes
/// over the commands that wait in it, each without its move, its drawing and its hook, calls the callbacks of
/// [`Hook::PrePagerStart`], sets the terminal up, draws the first page, and calls those of [`Hook::PostPagerStart`].
/// Where the text is followed, the mark is then moved to the last page, as a scroll does, but no callback is called. A
/// classifier that was set takes the place of the caller's.
///
/// # Errors
///
/// The sink comes back in each. The pager too, unchanged, and nothing was written and no callback called, with
/// [`MinusError::BadMode`] where the mode is `Uninitialized`, [`MinusError::BadSize`] where the columns or the rows are
/// not from 1 to 65,535, with that of the first command that waits and cannot be read in
/// ([`MinusError::NewlineInPrompt`], [`MinusError::HookIdTaken`], [`MinusError::NoFreeHookId`],
/// [`MinusError::BadSize`]), [`MinusError::SearchExpError`] where `regex` builds no matcher of a fixed pattern, and
/// [`MinusError::Memory`] where there is no memory. [`MinusError::Setup`] where the sink is no terminal, or refused to
/// set it up: a beginning of the setup was written. [`MinusError::Draw`] where the sink refused what is drawn: a
/// beginning of it was written after the setup, and the cleanup as far as the sink took it.
pub fn init_core_with<S: OutputSink + Drop, P: Calls>(
    pager: PagerOf<P>,
    mode: RunMode,
    sink: S,
    cols: usize,
    rows: usize,
    classifier: P::Classifier,
) -> Result<Core<S, P>, StartErrorOf<S, P>>
    ensures started { IfOk result (λ s. IsStart S.seen pager mode cols rows classifier sink s) }
    ensures called { IfOk result (λ s. CallsStart (with_commands no_callbacks (waiting_of pager))
        (callbacks_of s.parts)) }
    ensures refused { IfErr result (λ e. IsRefusedStart S.seen pager mode cols rows sink e) }
{
    match first_of(&pager, mode, cols, rows, classifier) {
        Ok(first) => begin(pager, mode, sink, first),
        Err(cause) => Err(StartErrorOf::early(pager, sink, cause)),
    }
}

// The register of the default bindings, for a session that can be started so.
pub(crate) fn first_register<C: Drop>(
    alloc: Global,
    mode: RunMode,
    cols: usize,
    rows: usize,
) -> Result<EventTable<FixedSeed, C>, MinusError>
    ensures default { IfOk result (λ register. register_of register ≡ default_register) }
    ensures refused { IfErr result (λ e. IsUnregistered (refusal_of e) mode cols rows) }
{
    check_start(mode, cols, rows)?;
    let register = EventTable::default_bindings(alloc)?;
    Ok(register)
}

/// Starts a pager over a sink: [`init_core_with`], whose errors it has, with a register of the default bindings where
/// the pager was given no classifier. A [`Pager`](crate::Pager) leads to a [`Session`](crate::Session).
pub fn init_core<
    S: OutputSink + Drop,
    H: HookCall + Drop,
    E: ExitCall + Drop,
    Q: ConditionCall + Drop,
    C: ActionCall + Drop,
>(
    pager: PagerOf<Keyed<H, E, Q, C>>,
    mode: RunMode,
    sink: S,
    cols: usize,
    rows: usize,
) -> Result<Core<S, Keyed<H, E, Q, C>>, StartErrorOf<S, Keyed<H, E, Q, C>>>
    ensures started { IfOk result (λ s. IsFirstStart IsDefault S.seen pager mode cols rows sink s) }
    ensures called { IfOk result (λ s. CallsStart (with_commands no_callbacks (waiting_of pager))
        (callbacks_of s.parts)) }
    ensures refused { IfErr result (λ e. IsRefusedStart S.seen pager mode cols rows sink e) }
{
    match first_register(alloc_of(&pager), mode, cols, rows) {
        Ok(register) => {
            let classifier = Classifier::Register(register);
            init_core_with(pager, mode, sink, cols, rows, classifier)
        }
        Err(cause) => Err(StartErrorOf::early(pager, sink, cause)),
    }
}

/// Starts a pager in the mode for a text that grows: [`init_core`] with `Dynamic`, whose errors it has but for the
/// mode.
pub fn dynamic_paging<
    S: OutputSink + Drop,
    H: HookCall + Drop,
    E: ExitCall + Drop,
    Q: ConditionCall + Drop,
    C: ActionCall + Drop,
>(
    pager: PagerOf<Keyed<H, E, Q, C>>,
    sink: S,
    cols: usize,
    rows: usize,
) -> Result<Core<S, Keyed<H, E, Q, C>>, StartErrorOf<S, Keyed<H, E, Q, C>>>
    ensures started { IfOk result (λ s. IsFirstStart IsDefault S.seen pager RunMode.Dynamic cols rows sink s) }
    ensures called { IfOk result (λ s. CallsStart (with_commands no_callbacks (waiting_of pager))
        (callbacks_of s.parts)) }
    ensures refused { IfErr result (λ e. IsRefusedStart S.seen pager RunMode.Dynamic cols rows sink e) }
{
    init_core(pager, RunMode::Dynamic, sink, cols, rows)
}

/// A law: where a sink told its bytes before a start, they end with the drawing of the first page after it.
pub fn a_start_leaves_its_page()
    ensures { StartLeavesItsPage }
{}
