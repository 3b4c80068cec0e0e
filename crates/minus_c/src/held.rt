//! What stands behind a caller's pointer.
ghost use Rattle.std.specs.Prelude.{◌≡◌, ◌<◌, ◌≤◌, length, take, drop, map};
ghost use Rattle.minus_c.specs.Refused.{refusal_number};

use crate::found::Found;
use crate::input_events::AskedNumbers;
use crate::session::{AsTold, NotesHook, OwnKinds, Unstarted, bit_of};
use crate::stage::{Stage, queue};
use crate::told::{NOT_UTF8, Told, refusal_number};
use minus::{
    Answer, CommandOf, Event, Hook, InputClassifier, InputOf, MinusError, PagerOf, RunMode,
};
use std::alloc::Global;
use std::cell::Cell;
use std::mem;
use std::rc::Rc;

/// A pager, with what it keeps for its caller.
#[derive(Drop)]
pub struct Held {
    pub(crate) alloc: Global,
    /// Where it stands.
    pub(crate) stage: Stage,
    /// What the last step answered.
    pub(crate) answer: Option<Answer>,
    /// The bits of the hooks that were due.
    pub(crate) due: Rc<Cell<u8>>,
    /// Whether the page shows where a query leads, as the caller said last.
    pub(crate) shows: Rc<Cell<bool>>,
}

// The hooks that are noted.
const HOOKS: [Hook; 5] = [
    Hook::PrePagerStart,
    Hook::PostPagerStart,
    Hook::EofReached,
    Hook::PrePagerExit,
    Hook::PostPagerExit,
];

// A pager whose hooks are noted.
fn noting(alloc: Global, due: &Rc<Cell<u8>>) -> Result<PagerOf<OwnKinds>, MinusError> {
    let mut pager = PagerOf::new(alloc);
    for hook in HOOKS {
        let noted = NotesHook {
            bit: bit_of(hook),
            due: due.clone()?,
        };
        pager.add_hook(hook, 0, noted)?;
    }
    Ok(pager)
}

// Puts the numbers of refusals into room for them, where they fit, and answers how many they are. What is behind them
// stays; where they do not fit, all does.
fn put_numbers(room: &mut [u8], refusals: &[MinusError]) -> usize
    ensures count { result ≡ length refusals.now }
    ensures put { result ≤ length room.old → take result room.new ≡ map refusal_number refusals.now }
    ensures behind { drop result room.new ≡ drop result room.old }
    ensures full { length room.old < result → room.new ≡ room.old }
{
    let count = refusals.len();
    if count <= room.len() {
        for i in 0..count {
            room[i] = refusal_number(&refusals[i]);
        }
    }
    count
}

impl Held {
    ghost use Rattle.std.specs.Prelude.{[], string_bytes, false, IsUtf8};
    ghost use Rattle.std.specs.Prelude.{OnOk, IfOk, IfErr};
    ghost use Rattle.minus_commands.specs.Reads.{a_command, told_of, wanted_of};
    ghost use Rattle.minus_c.specs.HeldSteps.{IsStepTold, IsRefusalTold, IsDoneTold, IsConditionRefused};
    ghost use Rattle.minus_c.specs.HeldSteps.{refusing, copied_in, refused_in};
    ghost use Rattle.minus_c.specs.Refused.{IsUncopied};
    ghost use Rattle.minus_c.specs.Rooms.{IsPutIf};
    ghost use Rattle.minus_c.specs.declared.session.AsTold.{AsTold};
    ghost use Rattle.minus_c.specs.Sessions.{Queues, sets_condition, Steps, RefusesStep};
    ghost use Rattle.minus_c.specs.Sessions.{StartsAs, RefusesStart, PagesAs, RefusesPaging};
    ghost use Rattle.minus_c.specs.Stages.{unread, Waits, Keeps, IsAsBefore, IsSame, IsTaken, Between, Refuses};
    ghost use Rattle.minus_c.specs.Stages.{Starts, Pages, RefusesBegin, Finishes, FinishesUnclean, FindsNoRoom};
    ghost use Rattle.minus_c.specs.Stages.{is_written, RefusesCommand};

    /// A pager that waits.
    pub fn new(alloc: Global) -> Result<Held, MinusError> {
        let due = Rc::new(alloc, Cell::new(0))?;
        let shows = Rc::new(alloc, Cell::new(false))?;
        let pager = noting(alloc, &due)?;
        Ok(Held {
            alloc,
            stage: Stage::Waiting(Unstarted { pager }),
            answer: None,
            due,
            shows,
        })
    }

    // What a call tells that went through, or was refused so.
    fn told(&mut self, done: Result<(), MinusError>) -> Told
        ensures done { OnOk done (result ≡ refusing 0 (length (unread self.new.stage))) }
        ensures refused { IfErr done (λ e. result ≡ refusing (refusal_number e) (length (unread self.new.stage))) }
        ensures same { IsAsBefore self.old.stage self.new.stage }
        ensures left { unread self.new.stage ≡ unread self.old.stage }
        ensures kept { self.new.answer ≡ self.old.answer }
    {
        let written = self.stage.unread(self.alloc);
        match done {
            Ok(()) => Told::done(written),
            Err(refusal) => Told::refusing(refusal_number(&refusal), written),
        }
    }

    /// What a call tells that was refused for what it was handed.
    pub fn refuse(&mut self, refusal: u8) -> Told
        ensures tells { result ≡ refusing refusal (length (unread self.new.stage)) }
        ensures same { IsAsBefore self.old.stage self.new.stage }
        ensures left { unread self.new.stage ≡ unread self.old.stage }
        ensures kept { self.new.answer ≡ self.old.answer }
    {
        let written = self.stage.unread(self.alloc);
        Told::refusing(refusal, written)
    }

    /// Starts the session, for a terminal of this many columns and rows.
    pub fn start(&mut self, mode: RunMode, cols: usize, rows: usize) -> Told
        ensures started { result.refusal ≡ 0 →
            IsDoneTold (Starts (StartsAs mode cols rows)) false self.old self.new result }
        ensures refused { 0 < result.refusal →
            IsRefusalTold (RefusesBegin (RefusesStart mode cols rows)) self.old self.new result }
    {
        let stage = mem::replace(&mut self.stage, Stage::Over);
        let (stage, done) = stage.started(self.alloc, mode, cols, rows);
        self.stage = stage;
        self.told(done)
    }

    /// Writes the text where it fits or goes to no terminal, and pages it else.
    pub fn page_all(&mut self, cols: usize, rows: usize, is_tty: bool) -> Told
        ensures paged { result.refusal ≡ 0 →
            IsDoneTold (Pages (PagesAs is_tty cols rows)) (is_written self.new.stage) self.old self.new result }
        ensures refused { 0 < result.refusal →
            IsRefusalTold (RefusesBegin (RefusesPaging is_tty cols rows)) self.old self.new result }
    {
        let stage = mem::replace(&mut self.stage, Stage::Over);
        let (stage, done) = stage.paged(self.alloc, cols, rows, is_tty);
        self.stage = stage;
        let is_written = self.stage.is_written();
        let told = self.told(done);
        if told.refusal > 0 {
            return told;
        }
        Told {
            exited: is_written,
            ..told
        }
    }

    /// Ends the session.
    pub fn finish(&mut self) -> Told
        ensures finished { result.refusal ≡ 0 → IsDoneTold Finishes false self.old self.new result }
        ensures refused { 0 < result.refusal → IsRefusalTold FinishesUnclean self.old self.new result }
    {
        let stage = mem::replace(&mut self.stage, Stage::Over);
        let (stage, done) = stage.finished();
        self.stage = stage;
        self.told(done)
    }

    /// Hands an input to the session.
    pub fn step(&mut self, input: InputOf<OwnKinds>) -> Told
        ensures step { result.refusal ≡ 0 → IsStepTold (Steps (told_of input)) self.old self.new result }
        ensures refused { 0 < result.refusal →
            IsRefusalTold (λ e. Refuses (RefusesStep (told_of input) e) e) self.old self.new result }
    {
        let (answer, written) = self.stage.step(self.alloc, input);
        match answer {
            Ok(answer) => {
                let told = Told::of_answer(&answer, written);
                self.answer = Some(answer);
                told
            }
            Err(refusal) => Told::refusing(refusal_number(&refusal), written),
        }
    }

    /// Tells a command: it waits where the pager waits, and is done where a session was started.
    pub fn tell(&mut self, command: CommandOf<OwnKinds>) -> Told
        ensures kept { result.refusal ≡ 0 → Waits self.old.stage →
            IsDoneTold (Keeps (Queues (wanted_of command))) false self.old self.new result }
        ensures step { result.refusal ≡ 0 → (Waits self.old.stage → ⊥) →
            IsStepTold (Steps (a_command (wanted_of command))) self.old self.new result }
        ensures refused { 0 < result.refusal →
            IsRefusalTold (RefusesCommand (RefusesStep (a_command (wanted_of command)))) self.old self.new result }
    {
        if let Stage::Waiting(waits) = &mut self.stage {
            return match queue(&mut waits.pager, command) {
                Ok(()) => Told::done(0),
                Err(refusal) => Told::refusing(refusal_number(&refusal), 0),
            };
        }
        self.step(InputOf::Command(command))
    }

    /// Makes room for this many bytes of text more.
    pub fn reserve(&mut self, bytes: usize) -> Told
        ensures reserved { result.refusal ≡ 0 →
            IsDoneTold (Between IsSame) false self.old self.new result }
        ensures refused { 0 < result.refusal →
            IsRefusalTold (λ e. Refuses (FindsNoRoom e) e) self.old self.new result }
    {
        let reserved = self.stage.reserve(bytes);
        self.told(reserved)
    }

    /// A copy of a caller's text, or the number of the refusal.
    pub fn copied(&self, text: &[u8]) -> Result<String, u8>
        ensures text { IfOk result (λ copy. (string_bytes copy ≡ text.now) × IsUtf8 text.now) }
        ensures refused { IfErr result (IsUncopied text.now) }
    {
        match std::str::from_utf8(text) {
            Ok(text) => match String::from_str(self.alloc, text) {
                Ok(text) => Ok(text),
                Err(_) => Err(MinusError::Memory.number()),
            },
            Err(_) => Err(NOT_UTF8),
        }
    }

    /// Lets the caller say whether the page shows where a query leads.
    pub fn show_search(&mut self, is_shown: bool) -> Told
        ensures kept { result.refusal ≡ 0 → Waits self.old.stage →
            ((c : AsTold) × IsDoneTold (Keeps (Queues (sets_condition c))) false self.old self.new result) }
        ensures step { result.refusal ≡ 0 → (Waits self.old.stage → ⊥) →
            ((c : AsTold) × IsStepTold (Steps (a_command (sets_condition c))) self.old self.new result) }
        ensures refused { 0 < result.refusal → IsConditionRefused self.old self.new result }
    {
        self.shows.set(is_shown);
        match self.shows.clone() {
            Ok(is_shown) => self.tell(CommandOf::IncrementalSearchCondition(AsTold { is_shown })),
            Err(_) => self.refuse(MinusError::Memory.number()),
        }
    }

    /// Takes the bytes that wait, where there is room for all of them, and answers how many they are.
    pub fn take(&mut self, room: &mut [u8]) -> usize
        ensures count { result ≡ length (unread self.old.stage) }
        ensures put { result ≤ length room.old → take result room.new ≡ unread self.old.stage }
        ensures taken { result ≤ length room.old → IsTaken self.old.stage self.new.stage }
        ensures behind { drop result room.new ≡ drop result room.old }
        ensures full { length room.old < result
            → (room.new ≡ room.old) × IsAsBefore self.old.stage self.new.stage }
    {
        self.stage.take(self.alloc, room)
    }

    /// Takes the text that was copied in the last step, where there is room for it.
    pub fn take_copied(&mut self, room: &mut [u8]) -> Found
        ensures found { IsPutIf (copied_in self.old.answer) room.old room.new result }
        ensures taken { result.value ≤ length room.old → copied_in self.new.answer ≡ None }
        ensures full { length room.old < result.value → self.new ≡ self.old }
        ensures kept { refused_in self.new.answer ≡ refused_in self.old.answer }
        ensures same { self.new.stage ≡ self.old.stage }
    {
        match &mut self.answer {
            Some(answer) => {
                let found = Found::put(answer.copied.as_deref(), room);
                if found.value <= room.len() {
                    answer.copied = None;
                }
                found
            }
            None => Found::nothing(),
        }
    }

    /// Takes the numbers of the inputs that were refused in the last step, where there is room for them, and answers
    /// how many they are.
    pub fn take_refused(&mut self, room: &mut [u8]) -> usize
        ensures count { result ≡ length (refused_in self.old.answer) }
        ensures put { result ≤ length room.old →
            take result room.new ≡ map refusal_number (refused_in self.old.answer) }
        ensures behind { drop result room.new ≡ drop result room.old }
        ensures taken { result ≤ length room.old → refused_in self.new.answer ≡ [] }
        ensures full { length room.old < result → (room.new ≡ room.old) × (self.new ≡ self.old) }
        ensures kept { copied_in self.new.answer ≡ copied_in self.old.answer }
        ensures same { self.new.stage ≡ self.old.stage }
    {
        match &mut self.answer {
            Some(answer) => {
                let count = put_numbers(room, &answer.refused);
                if count <= room.len() {
                    answer.refused.clear();
                }
                count
            }
            None => 0,
        }
    }

    /// Takes the bits of the hooks that were due.
    pub fn take_hooks(&mut self) -> u8
        ensures { self.new ≡ self.old }
    {
        self.due.replace(0)
    }

    /// What an event asks for in the state of the session.
    pub fn classify(&self, event: Event) -> AskedNumbers {
        match &self.stage {
            Stage::Running(session) => {
                let asked = session
                    .core
                    .classifier()
                    .classify_input(event, session.core.state());
                AskedNumbers::of(asked)
            }
            Stage::Waiting(_) | Stage::Written(_) | Stage::Over => {
                AskedNumbers::refusing(MinusError::BadMode.number())
            }
        }
    }
}
