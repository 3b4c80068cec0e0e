//! Neighbouring appends that are read in, or performed, in one go.
ghost use Rattle.std.specs.Prelude.{◌≡◌, ◌≤◌, ◌∷◌, None, length, map, string_bytes, IsTrue, IfOk, IfSome};
ghost use Rattle.minus_state.specs.States.{control_of};
ghost use Rattle.minus.specs.Joined.{MayJoin, MayWorkJoined, MayGoWith, AreJoined, TakesFirst, CanTakeRest, append_told};
ghost use Rattle.minus_commands.specs.Reads.{told_of, wanted_by, wanted_of};
ghost use Rattle.minus_commands.specs.Table.{appends_data, IsPossible};

use crate::state::PagerState;
use minus_commands::commands::{CommandOf, InputOf};
use minus_commands::parts::Parts;
use minus_commands::request::Request;
use std::alloc::{AllocError, Global};

// Whether neighbouring appends may be read in one go.
fn may_join(state: &PagerState) -> bool
    ensures { IsTrue result → MayJoin (control_of state.now) }
{
    state.help_open() || (state.upper_mark == 0 && state.term().is_none())
}

// Whether neighbouring appends may be performed in one go, with no search prompt open.
fn may_work_joined(state: &PagerState) -> bool
    requires { (control_of state.now).search ≡ None }
    ensures { IsTrue result → MayWorkJoined (control_of state.now) }
{
    state.help_open() || (may_join(state) && !state.follow_output())
}

// The text that a command adds, if it adds one.
fn appended<P: Parts>(command: &CommandOf<P>) -> Option<&str>
    ensures { IfSome result (λ text. wanted_of command.now ≡ appends_data text.now) }
{
    match command {
        CommandOf::AppendData(text) => Some(text.as_str()),
        _ => None,
    }
}

// The text that an input adds, if it adds one.
fn appended_by<P: Parts>(input: &InputOf<P>) -> Option<&str>
    ensures { IfSome result (λ text. told_of input.now ≡ append_told text.now) }
{
    match input {
        InputOf::Command(command) => appended(command),
        InputOf::Event(_) => None,
    }
}

// The texts of the appends that some commands begin with, joined behind a first one, and the commands behind these.
fn join_appends<'q, P: Parts>(
    alloc: Global,
    first: &str,
    commands: &'q [CommandOf<P>],
) -> Result<(String, &'q [CommandOf<P>]), AllocError>
    ensures joined { IfOk result (λ r.
        AreJoined appends_data first.now (map wanted_of commands.now) (string_bytes r.0) (map wanted_of r.1.now)) }
    ensures less { IfOk result (λ r. length r.1.now ≤ length commands.now) }
{
    let mut text = String::from_str(alloc, first)?;
    let mut rest = commands;
    while let Some((command, behind)) = rest.split_first() {
        let Some(next) = appended(command) else {
            return Ok((text, rest));
        };
        text.push_str(next)?;
        rest = behind;
    }
    Ok((text, rest))
}

// What is read in next where a command waits and others behind it, and what is left of these: the command, or all
// the appends that the commands begin with, where they may be read in one go.
pub(crate) fn next_taken<'q, P: Parts>(
    alloc: Global,
    state: &PagerState,
    command: &CommandOf<P>,
    behind: &'q [CommandOf<P>],
) -> Result<(Request<P>, &'q [CommandOf<P>]), AllocError>
    ensures next { IfOk result (λ r. TakesFirst (control_of state.now)
        (wanted_of command.now ∷ map wanted_of behind.now) (wanted_by r.0) (map wanted_of r.1.now)) }
    ensures possible { IfOk result (λ r. IsPossible (wanted_of command.now) → IsPossible (wanted_by r.0)) }
    ensures can { IfOk result (λ r. CanTakeRest (wanted_of command.now ∷ map wanted_of behind.now)
        (map wanted_of r.1.now)) }
    ensures less { IfOk result (λ r. length r.1.now ≤ length behind.now) }
{
    match appended(command) {
        Some(first) if may_join(state) => {
            let (text, left) = join_appends(alloc, first, behind)?;
            Ok((Request::AppendText(text), left))
        }
        _ => Ok((Request::copied(alloc, command)?, behind)),
    }
}

// The texts of the appends that some inputs begin with, joined behind a first one, and the inputs behind these.
fn join_waiting<'q, P: Parts>(
    alloc: Global,
    first: &str,
    inputs: &'q [InputOf<P>],
) -> Result<(String, &'q [InputOf<P>]), AllocError>
    ensures joined { IfOk result (λ r.
        AreJoined append_told first.now (map told_of inputs.now) (string_bytes r.0) (map told_of r.1.now)) }
    ensures less { IfOk result (λ r. length r.1.now ≤ length inputs.now) }
{
    let mut text = String::from_str(alloc, first)?;
    let mut rest = inputs;
    while let Some((input, behind)) = rest.split_first() {
        let Some(next) = appended_by(input) else {
            return Ok((text, rest));
        };
        text.push_str(next)?;
        rest = behind;
    }
    Ok((text, rest))
}

// Appends that are performed in one go: their texts, joined, and how many wait behind the first.
pub(crate) struct JoinedAppends {
    pub(crate) text: String,
    pub(crate) count: usize,
}

// An input that is taken and the appends that wait behind it, where it is one too and they may be performed in one go.
// Where there is no memory to join them, they are performed one after another.
pub(crate) fn joined_behind<P: Parts>(
    alloc: Global,
    state: &PagerState,
    input: &InputOf<P>,
    waiting: &[InputOf<P>],
) -> Option<JoinedAppends>
    requires { (control_of state.now).search ≡ None }
    ensures { IfSome result (λ j. MayGoWith (control_of state.now) (told_of input.now) (map told_of waiting.now)
        (string_bytes j.text) j.count) }
{
    let first = appended_by(input)?;
    appended_by(waiting.first()?)?;
    if !may_work_joined(state) {
        return None;
    }
    let Ok((text, rest)) = join_waiting(alloc, first, waiting) else {
        return None;
    };
    // (this many lines can be counted)
    state.screen.line_count().checked_add(text.len())?;
    Some(JoinedAppends {
        text,
        count: waiting.len() - rest.len(),
    })
}
