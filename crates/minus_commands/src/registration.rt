//! What a command registers, which is kept beside the state, and what it sets for the exit.
ghost use Rattle.std.specs.Prelude.{ℕ, ◌≡◌, ◌+◌, IsErrOf, OnOk, OnErr, IfErr, map, vec_len};
ghost use Rattle.minus_term.specs.Refusals.{refusal_of};
ghost use Rattle.minus_commands.specs.Callbacks.{callbacks_of, with_handed, with_command, with_commands};
ghost use Rattle.minus_commands.specs.Registration.{exit_by, kept_with, classifier_with, condition_with, IsFree, IsUnhanded};
ghost use Rattle.minus_commands.specs.Registration.{kept_after, classifier_after, condition_after, IsFreeFor};
ghost use Rattle.minus_commands.specs.Reads.{kept_of, handing_of, wanted_of};
ghost use Rattle.minus_commands.specs.Room.{HasRoomFor};
ghost use Rattle.minus_commands.specs.WaitingRegistrations.{kept_taken, classifier_taken, condition_taken, CanTakeAll};
ghost use Rattle.minus_commands.specs.Table.{handed as handed_by};

use crate::commands::CommandOf;
use crate::parts::{Parts, PartsOf};
use crate::request::Request;
use minus_state::hooks::is_reserved;
use minus_state::state::ExitStrategy;
use minus_term::MinusError;
use minus_term::hooks::Hook;
use std::alloc::AllocError;

/// What is registered.
#[derive(Drop)]
pub enum Handed<P: Parts> {
    Classifier(P::Classifier),
    Condition(P::Condition),
    ExitCallback(P::Exit),
    Callback(Hook, u64, P::Hook),
    NoCallback(Hook, u64),
    Strategy(ExitStrategy),
    RunNoOverflow(bool),
}

// Lets an exit be by a strategy.
fn exit_by<P: Parts>(parts: &mut PartsOf<P>, strategy: ExitStrategy)
    ensures kept { kept_of parts.new ≡ record (kept_of parts.old) { exit = exit_by strategy } }
    ensures rest { parts.new ≡ record parts.old {
      exit_strategy = parts.new.exit_strategy;
      exit_code = parts.new.exit_code;
    } }
{
    parts.exit_code = match strategy {
        ExitStrategy::ProcessQuit => 1,
        ExitStrategy::PagerQuit => 0,
    };
    parts.exit_strategy = strategy;
}

/// How the program is to go on after an exit, and the code that it ends with if it is to end.
pub fn exit_of<P: Parts>(parts: &PartsOf<P>) -> (ExitStrategy, u8)
    ensures { result ≡ (kept_of parts.now).exit }
{
    (parts.exit_strategy, parts.exit_code)
}

/// Keeps what is registered. An `Err` changes nothing.
pub fn keep_handed<P: Parts>(parts: &mut PartsOf<P>, handed: Handed<P>) -> Result<(), MinusError>
    ensures kept { OnOk result (kept_of parts.new ≡ kept_with (kept_of parts.old) (handing_of handed)) }
    ensures classifier { OnOk result (parts.new.classifier
        ≡ classifier_with parts.old.classifier (handing_of handed)) }
    ensures condition { OnOk result (parts.new.condition ≡ condition_with parts.old.condition (handing_of handed)) }
    ensures free { OnOk result (IsFree (kept_of parts.old).ids (handing_of handed)) }
    ensures state { parts.new.state ≡ parts.old.state }
    ensures err { OnErr result (kept_of parts.new ≡ kept_of parts.old) }
    ensures same { OnErr result ((parts.new.classifier ≡ parts.old.classifier)
        × (parts.new.condition ≡ parts.old.condition)) }
    ensures callbacks { OnOk result (callbacks_of parts.new ≡ with_handed (callbacks_of parts.old) handed) }
    ensures uncalled { OnErr result (callbacks_of parts.new ≡ callbacks_of parts.old) }
    ensures refused { IfErr result (λ e. IsUnhanded (refusal_of e) (kept_of parts.old).ids (handing_of handed)) }
    ensures room { OnOk result ((more : ℕ) → HasRoomFor parts.old (more + 1) → HasRoomFor parts.new more) }
    ensures enough { IsErrOf result MinusError.Memory → (more : ℕ) → HasRoomFor parts.old (more + 1) → ⊥ }
{
    match handed {
        Handed::Classifier(classifier) => parts.classifier = classifier,
        Handed::Condition(condition) => parts.condition = Some(condition),
        Handed::ExitCallback(callback) => parts.exit_callbacks.push(callback)?,
        Handed::Callback(hook, id, callback) => {
            return parts.hooks.add_callback(hook, id, callback);
        }
        Handed::NoCallback(hook, id) => {
            parts.hooks.remove_callback(hook, id);
            if is_reserved(hook, id) {
                exit_by(parts, ExitStrategy::PagerQuit);
            }
        }
        Handed::Strategy(strategy) => exit_by(parts, strategy),
        Handed::RunNoOverflow(on) => parts.run_no_overflow = on,
    }
    Ok(())
}

/// Makes room for this number of callbacks more, of each kind. All stays as it is, whether there is room or not.
pub fn reserve<P: Parts>(parts: &mut PartsOf<P>, callbacks: usize) -> Result<(), AllocError>
    ensures kept { kept_of parts.new ≡ kept_of parts.old }
    ensures callbacks { callbacks_of parts.new ≡ callbacks_of parts.old }
    ensures rest { parts.new ≡ record parts.old {
      hooks = parts.new.hooks;
      exit_callbacks = parts.new.exit_callbacks;
    } }
    ensures room { OnOk result (HasRoomFor parts.new callbacks) }
{
    parts.hooks.reserve(callbacks)?;
    parts.exit_callbacks.reserve(callbacks)?;
    Ok(())
}

// Keeps what a command registers, if it does, for which there is room.
fn keep_command<P: Parts>(parts: &mut PartsOf<P>, command: CommandOf<P>)
    requires room { HasRoomFor parts.old 1 }
    requires free { IsFreeFor (kept_of parts.old).ids (handed_by (wanted_of command)) }
    ensures kept { kept_of parts.new ≡ kept_after (kept_of parts.old) (handed_by (wanted_of command)) }
    ensures callbacks { callbacks_of parts.new ≡ with_command (callbacks_of parts.old) command }
    ensures classifier { parts.new.classifier
        ≡ classifier_after parts.old.classifier (handed_by (wanted_of command)) }
    ensures condition { parts.new.condition ≡ condition_after parts.old.condition (handed_by (wanted_of command)) }
    ensures state { parts.new.state ≡ parts.old.state }
    ensures less { (more : ℕ) → HasRoomFor parts.old (more + 1) → HasRoomFor parts.new more }
{
    if let Request::HandOver(handed) = Request::of_command(command) {
        keep_handed(parts, handed).unwrap();
    }
}

// Keeps what commands register, for all of which there is room.
pub(crate) fn keep_all<P: Parts>(parts: &mut PartsOf<P>, commands: Vec<CommandOf<P>>)
    requires room { HasRoomFor parts.old (vec_len commands) }
    requires can { CanTakeAll (kept_of parts.old).ids (map wanted_of commands.items) }
    ensures kept { kept_of parts.new ≡ kept_taken (kept_of parts.old) (map wanted_of commands.items) }
    ensures callbacks { callbacks_of parts.new ≡ with_commands (callbacks_of parts.old) commands.items }
    ensures classifier { parts.new.classifier
        ≡ classifier_taken parts.old.classifier (map wanted_of commands.items) }
    ensures condition { parts.new.condition ≡ condition_taken parts.old.condition (map wanted_of commands.items) }
    ensures state { parts.new.state ≡ parts.old.state }
{
    for command in commands {
        keep_command(parts, command);
    }
}
