//! The stages of a pager: it waits, it runs, or it is over.
ghost use Rattle.std.specs.Prelude.{◌≡◌, ◌<◌, ◌≤◌, [], length, take, drop, Err, OnOk, OnErr, IfErr, IfOk};
ghost use Rattle.minus_commands.specs.Pager.{WaitsBehind};
ghost use Rattle.minus_commands.specs.Queued.{waiting_of};
ghost use Rattle.minus_commands.specs.Reads.{wanted_of, told_of};
ghost use Rattle.minus.specs.SessionStarts.{IsStart, IsRefusedStart};
ghost use Rattle.minus.specs.Starts.{IsEarly};
ghost use Rattle.minus.specs.StaticPager.{IsPaged, IsUnpaged};
ghost use Rattle.minus_term.specs.Refusals.{refusal_of};
ghost use Rattle.minus_c.specs.Sessions.{sink_seen, RefusesStep, Steps};
ghost use Rattle.minus_c.specs.Stages.{IsEmptied, Runs, Shows, Leaves, left_with, IsSame};

use crate::room::put_bytes;
use crate::session::{Bytes, OwnKeys, OwnKinds, Session, Unstarted};
use minus::{
    Answer, CommandOf, InputOf, MinusError, PagedOf, PagerOf, PagerState, RunMode, StartErrorOf,
    WithTty, init_core_with, page_all_with,
};
use std::alloc::Global;

/// What a pager is.
#[derive(Drop)]
pub enum Stage {
    /// It waits for its start, and what it is told waits with it.
    Waiting(Unstarted),
    /// It was started: the session runs, or has exited or failed.
    Running(Session),
    /// It pages no more, and these bytes are left of it.
    Written(Bytes),
    /// It pages no more.
    Over,
}

// A sink that has nothing yet.
pub fn no_bytes(alloc: Global, is_tty: bool) -> Bytes
    ensures bytes { result.inner.items ≡ [] }
    ensures tty { result.tty ≡ is_tty }
{
    WithTty::new(Vec::new(alloc), is_tty)
}

// What a start that was refused leaves.
fn after_refusal(refused: StartErrorOf<Bytes, OwnKinds>) -> (Stage, Result<(), MinusError>)
    ensures cause { result.1 ≡ Err refused.cause }
    ensures left { result.0 ≡ left_with refused.pager refused.sink }
{
    let StartErrorOf { sink, pager, cause } = refused;
    match pager {
        Some(pager) => (Stage::Waiting(Unstarted { pager }), Err(cause)),
        None => (Stage::Written(sink), Err(cause)),
    }
}

// Starts a pager with these bindings.
fn begin(
    waits: Unstarted,
    sink: Bytes,
    mode: RunMode,
    cols: usize,
    rows: usize,
    keys: OwnKeys,
) -> (Stage, Result<(), MinusError>)
    ensures started { OnOk result.1 (Runs (λ session.
        IsStart sink_seen waits.pager mode cols rows keys sink session.core) result.0) }
    ensures refused { IfErr result.1 (λ e.
        Leaves (IsRefusedStart sink_seen waits.pager mode cols rows sink) e result.0) }
    ensures early { IfErr result.1 (λ e. IsEarly (refusal_of e) → result.0 ≡ Stage.Waiting waits) }
{
    let Unstarted { pager } = waits;
    match init_core_with(pager, mode, sink, cols, rows, keys) {
        Ok(core) => (Stage::Running(Session { core }), Ok(())),
        Err(refused) => after_refusal(refused),
    }
}

// Pages the text of a pager with these bindings, where it does not fit.
fn page(
    waits: Unstarted,
    sink: Bytes,
    cols: usize,
    rows: usize,
    keys: OwnKeys,
) -> (Stage, Result<(), MinusError>)
    ensures paged { OnOk result.1 (Shows (IsPaged sink_seen waits.pager cols rows keys sink) result.0) }
    ensures refused { IfErr result.1 (λ e. Leaves (IsUnpaged sink_seen waits.pager cols rows sink) e result.0) }
    ensures early { IfErr result.1 (λ e. IsEarly (refusal_of e) → result.0 ≡ Stage.Waiting waits) }
{
    let Unstarted { pager } = waits;
    match page_all_with(pager, sink, cols, rows, keys) {
        Ok(PagedOf::Written(sink)) => (Stage::Written(sink), Ok(())),
        Ok(PagedOf::Started(core)) => (Stage::Running(Session { core }), Ok(())),
        Err(refused) => after_refusal(refused),
    }
}

/// Lets a command wait in a pager, but for what an event asks for and for a drawing, which only a session does.
pub fn queue(pager: &mut PagerOf<OwnKinds>, command: CommandOf<OwnKinds>) -> Result<(), MinusError>
    ensures ok { OnOk result (WaitsBehind (waiting_of pager.old) (waiting_of pager.new) (wanted_of command)) }
    ensures err { OnErr result (waiting_of pager.new ≡ waiting_of pager.old) }
{
    if matches!(command, CommandOf::UserInput(_) | CommandOf::Io(_)) {
        return Err(MinusError::BadMode);
    }
    pager.tell(command)?;
    Ok(())
}

impl Session {
    ghost use Rattle.minus_c.specs.Stages.{IsTakenFrom};

    // Hands an input in, and answers too how many bytes wait then.
    fn step(
        &mut self,
        alloc: Global,
        input: InputOf<OwnKinds>,
    ) -> (Result<Answer, MinusError>, usize)
        ensures step { IfOk result.0 (λ answer. Steps (told_of input) answer self.old self.new) }
        ensures refused { IfErr result.0 (λ e. RefusesStep (told_of input) e self.old self.new) }
        ensures written { result.1 ≡ length self.new.core.sink.inner.items }
    {
        let answer = self.core.step(input);
        let written = self.unread(alloc);
        (answer, written)
    }

    // How many bytes wait to be taken.
    fn unread(&mut self, alloc: Global) -> usize
        ensures count { result ≡ length self.old.core.sink.inner.items }
        ensures same { IsSame self.old self.new }
    {
        let sink = self.core.replace_sink(no_bytes(alloc, true));
        let count = sink.inner.len();
        self.core.replace_sink(sink);
        count
    }

    // Takes the bytes that wait, where there is room for them, and answers how many they are.
    fn take(&mut self, alloc: Global, room: &mut [u8]) -> usize
        ensures count { result ≡ length self.old.core.sink.inner.items }
        ensures put { result ≤ length room.old → take result room.new ≡ self.old.core.sink.inner.items }
        ensures taken { result ≤ length room.old → IsTakenFrom self.old self.new }
        ensures behind { drop result room.new ≡ drop result room.old }
        ensures full { length room.old < result → (room.new ≡ room.old) × IsSame self.old self.new }
    {
        let mut sink = self.core.replace_sink(no_bytes(alloc, true));
        let count = take_bytes(&mut sink, room);
        self.core.replace_sink(sink);
        count
    }
}

// Takes the bytes of a sink, where there is room for them, and answers how many they are.
fn take_bytes(sink: &mut Bytes, room: &mut [u8]) -> usize
    ensures count { result ≡ length sink.old.inner.items }
    ensures put { result ≤ length room.old → take result room.new ≡ sink.old.inner.items }
    ensures taken { result ≤ length room.old → IsEmptied sink.old sink.new }
    ensures behind { drop result room.new ≡ drop result room.old }
    ensures full { length room.old < result → (room.new ≡ room.old) × (sink.new ≡ sink.old) }
{
    let count = put_bytes(room, &sink.inner);
    if count <= room.len() {
        sink.inner.clear();
    }
    count
}

impl Stage {
    ghost use Rattle.std.specs.Prelude.{IfSome};
    ghost use Rattle.minus_c.specs.Pieces.{InState};
    ghost use Rattle.minus_c.specs.Sessions.{StartsAs, RefusesStart, PagesAs, RefusesPaging};
    ghost use Rattle.minus_c.specs.Stages.{unread, IsAsBefore, IsTaken, Between, Refuses, Starts, Pages};
    ghost use Rattle.minus_c.specs.Stages.{RefusesBegin, Finishes, FinishesUnclean, FindsNoRoom};
    ghost use Rattle.minus_c.specs.Stages.{is_written, runs, start_fault};

    /// Starts a pager that waits.
    pub fn started(
        self,
        alloc: Global,
        mode: RunMode,
        cols: usize,
        rows: usize,
    ) -> (Stage, Result<(), MinusError>)
        ensures started { OnOk result.1 (Starts (StartsAs mode cols rows) self result.0) }
        ensures refused { IfErr result.1 (λ e. RefusesBegin (RefusesStart mode cols rows) e self result.0) }
        ensures early { IfErr result.1 (λ e. IsEarly (refusal_of e) → result.0 ≡ self) }
    {
        match self {
            Stage::Waiting(waits) => match OwnKeys::default_bindings(alloc) {
                Ok(keys) => begin(waits, no_bytes(alloc, true), mode, cols, rows, keys),
                Err(_) => (Stage::Waiting(waits), Err(MinusError::Memory)),
            },
            stage => stage.unstarted(),
        }
    }

    /// Writes the text of a pager that waits, where it fits or goes to no terminal, and pages it else.
    pub fn paged(
        self,
        alloc: Global,
        cols: usize,
        rows: usize,
        is_tty: bool,
    ) -> (Stage, Result<(), MinusError>)
        ensures paged { OnOk result.1 (Pages (PagesAs is_tty cols rows) self result.0) }
        ensures refused { IfErr result.1 (λ e. RefusesBegin (RefusesPaging is_tty cols rows) e self result.0) }
        ensures early { IfErr result.1 (λ e. IsEarly (refusal_of e) → result.0 ≡ self) }
    {
        match self {
            Stage::Waiting(waits) => match OwnKeys::default_bindings(alloc) {
                Ok(keys) => page(waits, no_bytes(alloc, is_tty), cols, rows, keys),
                Err(_) => (Stage::Waiting(waits), Err(MinusError::Memory)),
            },
            stage => stage.unstarted(),
        }
    }

    // It was started before.
    fn unstarted(self) -> (Stage, Result<(), MinusError>)
        ensures same { result.0 ≡ self }
        ensures refused { result.1 ≡ Err (start_fault self) }
    {
        if self.runs() {
            return (self, Err(MinusError::BadMode));
        }
        (self, Err(MinusError::Ended))
    }

    /// Ends the session.
    pub fn finished(self) -> (Stage, Result<(), MinusError>)
        ensures finished { OnOk result.1 (Finishes self result.0) }
        ensures refused { IfErr result.1 (λ e. FinishesUnclean e self result.0) }
    {
        match self {
            Stage::Running(session) => {
                let (sink, cleaned) = session.core.finish();
                match cleaned {
                    Ok(()) => (Stage::Written(sink), Ok(())),
                    Err(cause) => (Stage::Written(sink), Err(MinusError::Cleanup(cause))),
                }
            }
            Stage::Waiting(_) | Stage::Over => (Stage::Over, Ok(())),
            Stage::Written(sink) => (Stage::Written(sink), Ok(())),
        }
    }

    /// Whether a session runs.
    pub fn runs(&self) -> bool
        ensures { result ≡ runs self.now }
    {
        match self {
            Stage::Running(session) => !session.core.mode().is_uninitialized(),
            Stage::Waiting(_) | Stage::Written(_) | Stage::Over => false,
        }
    }

    /// Whether the pager is over, with what it wrote last.
    pub fn is_written(&self) -> bool
        ensures { result ≡ is_written self.now }
    {
        matches!(self, Stage::Written(_))
    }

    /// The state of the session, if one was started.
    pub fn state(&self) -> Option<&PagerState>
        ensures { IfSome result (λ state. InState (λ s. s ≡ state.now) self.now) }
    {
        match self {
            Stage::Running(session) => Some(session.core.state()),
            Stage::Waiting(_) | Stage::Written(_) | Stage::Over => None,
        }
    }

    /// Hands an input to the session that was started, and answers too how many bytes wait then.
    ///
    /// # Errors
    ///
    /// Those of the session's step; [`MinusError::BadMode`] where none was started yet, and [`MinusError::Ended`] where
    /// the pager is over.
    pub fn step(
        &mut self,
        alloc: Global,
        input: InputOf<OwnKinds>,
    ) -> (Result<Answer, MinusError>, usize)
        ensures step { IfOk result.0 (λ answer. Between (Steps (told_of input) answer) self.old self.new) }
        ensures refused { IfErr result.0 (λ e. Refuses (RefusesStep (told_of input) e) e self.old self.new) }
        ensures written { result.1 ≡ length (unread self.new) }
    {
        match self {
            Stage::Running(session) => session.step(alloc, input),
            Stage::Waiting(_) => (Err(MinusError::BadMode), 0),
            Stage::Written(sink) => (Err(MinusError::Ended), sink.inner.len()),
            Stage::Over => (Err(MinusError::Ended), 0),
        }
    }

    /// Makes room for this many bytes of text more.
    pub fn reserve(&mut self, bytes: usize) -> Result<(), MinusError>
        ensures reserved { OnOk result (Between IsSame self.old self.new) }
        ensures refused { IfErr result (λ e. Refuses (FindsNoRoom e) e self.old self.new) }
    {
        match self {
            Stage::Running(session) => session.core.reserve(bytes),
            Stage::Waiting(_) => Err(MinusError::BadMode),
            Stage::Written(_) | Stage::Over => Err(MinusError::Ended),
        }
    }

    /// How many bytes wait to be taken.
    pub fn unread(&mut self, alloc: Global) -> usize
        ensures count { result ≡ length (unread self.old) }
        ensures left { unread self.new ≡ unread self.old }
        ensures same { IsAsBefore self.old self.new }
    {
        match self {
            Stage::Running(session) => session.unread(alloc),
            Stage::Written(sink) => sink.inner.len(),
            Stage::Waiting(_) | Stage::Over => 0,
        }
    }

    /// Takes the bytes that wait, where there is room for all of them, and answers how many they are.
    pub fn take(&mut self, alloc: Global, room: &mut [u8]) -> usize
        ensures count { result ≡ length (unread self.old) }
        ensures put { result ≤ length room.old → take result room.new ≡ unread self.old }
        ensures taken { result ≤ length room.old → IsTaken self.old self.new }
        ensures behind { drop result room.new ≡ drop result room.old }
        ensures full { length room.old < result → (room.new ≡ room.old) × IsAsBefore self.old self.new }
    {
        match self {
            Stage::Running(session) => session.take(alloc, room),
            Stage::Written(sink) => take_bytes(sink, room),
            Stage::Waiting(_) | Stage::Over => 0,
        }
    }
}
