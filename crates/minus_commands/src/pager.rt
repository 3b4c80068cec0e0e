//! A pager that is not yet displayed.
ghost use Rattle.std.specs.Prelude.{◌≡◌, ◌++◌, ◌∷◌, [], not, false, map, vec_len, OnOk, OnErr, IfErr};
ghost use Rattle.minus_term.specs.Refusals.{refusal_of};
ghost use Rattle.minus_state.specs.ShownPrompt.{has_newline};
ghost use Rattle.minus_commands.specs.Callbacks.{callbacks_of, with_commands};
ghost use Rattle.minus_commands.specs.WaitingRegistrations.{kept_taken, classifier_taken, condition_taken, CanTakeAll};
ghost use Rattle.minus_commands.specs.Outcomes.{IsUnformed};
ghost use Rattle.minus_commands.specs.Pager.{IsUnsaid, WaitsBehind};
ghost use Rattle.minus_commands.specs.Queued.{waiting_of};
ghost use Rattle.minus_commands.specs.Reads.{kept_of, wanted_of};
ghost use Rattle.minus_commands.specs.Room.{HasRoomFor};
ghost use Rattle.minus_commands.specs.Table.{sets_data, appends_data, sets_prompt, sends_message, IsPossible};

use crate::commands::CommandOf;
use crate::parts::{Boxes, Parts, PartsOf};
use crate::registration::keep_all;
use crate::request::{check_command, check_line};
use minus_state::state::ExitStrategy;
use minus_term::MinusError;
use minus_term::hooks::Hook;
use minus_text::LineNumbers;
use std::alloc::Global;
use std::convert::AsStr;
use std::fmt;

/// A pager that is not yet displayed: what it is told waits for its start.
#[derive(Drop)]
#[derive_where(Debug)]
pub struct PagerOf<P: Parts> {
    pub(crate) alloc: Global,
    pub(crate) queue: Vec<CommandOf<P>>,
}

/// A pager whose session keeps what its caller boxes, or a register of bindings.
pub type Pager = PagerOf<Boxes>;

impl<P: Parts> PagerOf<P> {
    /// A pager that was told nothing.
    pub fn new(alloc: Global) -> PagerOf<P>
        ensures { waiting_of result ≡ [] }
    {
        PagerOf {
            alloc,
            queue: Vec::new(alloc),
        }
    }

    /// The commands that wait for the start, in their order.
    pub fn waiting(&self) -> &[CommandOf<P>]
        ensures { result.now ≡ waiting_of self.now }
    {
        self.queue.as_slice()
    }

    // Adds a command after those that wait.
    fn queue(&mut self, command: CommandOf<P>) -> Result<(), MinusError>
        ensures ok { OnOk result (waiting_of self.new ≡ waiting_of self.old ++ command ∷ []) }
        ensures err { OnErr result (waiting_of self.new ≡ waiting_of self.old) }
        ensures memory { IfErr result (λ e. e ≡ MinusError.Memory) }
    {
        self.queue.push(command)?;
        Ok(())
    }

    /// Lets a command wait behind those that wait.
    ///
    /// # Errors
    ///
    /// [`MinusError::NewlineInPrompt`] where a prompt or a message has a newline, [`MinusError::BadSize`] where a size
    /// is none of a terminal, and [`MinusError::Memory`] where there is no memory; nothing has changed, and the command
    /// is dropped.
    pub fn tell(&mut self, command: CommandOf<P>) -> Result<(), MinusError>
        ensures ok { OnOk result (waiting_of self.new ≡ waiting_of self.old ++ command ∷ []) }
        ensures possible { OnOk result (IsPossible (wanted_of command)) }
        ensures err { OnErr result (waiting_of self.new ≡ waiting_of self.old) }
        ensures refused { IfErr result (λ e. IsUnformed (refusal_of e) (wanted_of command)) }
    {
        check_command(&command)?;
        self.queue(command)?;
        Ok(())
    }

    /// Puts this text in the place of all text before it.
    ///
    /// # Errors
    ///
    /// [`MinusError::Memory`] where there is no memory, and nothing has changed.
    pub fn set_text(&mut self, text: &str) -> Result<(), MinusError>
        ensures ok { OnOk result (WaitsBehind (waiting_of self.old) (waiting_of self.new) (sets_data text.now)) }
        ensures err { OnErr result (waiting_of self.new ≡ waiting_of self.old) }
        ensures memory { IfErr result (λ e. e ≡ MinusError.Memory) }
    {
        self.queue(CommandOf::SetData(String::from_str(self.alloc, text)?))?;
        Ok(())
    }

    /// Adds this text after the text before it.
    ///
    /// # Errors
    ///
    /// [`MinusError::Memory`] where there is no memory, and nothing has changed.
    pub fn push_str(&mut self, text: &str) -> Result<(), MinusError>
        ensures ok { OnOk result (WaitsBehind (waiting_of self.old) (waiting_of self.new) (appends_data text.now)) }
        ensures err { OnErr result (waiting_of self.new ≡ waiting_of self.old) }
        ensures memory { IfErr result (λ e. e ≡ MinusError.Memory) }
    {
        self.queue(CommandOf::AppendData(String::from_str(self.alloc, text)?))?;
        Ok(())
    }

    /// Lets the prompt row say this, of which a copy is kept.
    ///
    /// # Errors
    ///
    /// [`MinusError::NewlineInPrompt`] where the text has a newline, and [`MinusError::Memory`] where there is no
    /// memory; nothing has changed.
    pub fn set_prompt<T: AsStr + Drop>(&mut self, text: T) -> Result<(), MinusError>
        ensures ok { OnOk result (WaitsBehind (waiting_of self.old) (waiting_of self.new) (sets_prompt (T.text text))) }
        ensures one_line { OnOk result (has_newline (T.text text) ≡ false) }
        ensures err { OnErr result (waiting_of self.new ≡ waiting_of self.old) }
        ensures refused { IfErr result (λ e. IsUnsaid (refusal_of e) (T.text text)) }
    {
        let text = text.as_str();
        check_line(text)?;
        self.queue(CommandOf::SetPrompt(String::from_str(self.alloc, text)?))?;
        Ok(())
    }

    /// Lets the prompt row say this in the prompt's place, until the message goes. A copy is kept.
    ///
    /// # Errors
    ///
    /// [`MinusError::NewlineInPrompt`] where the text has a newline, and [`MinusError::Memory`] where there is no
    /// memory; nothing has changed.
    pub fn send_message<T: AsStr + Drop>(&mut self, text: T) -> Result<(), MinusError>
        ensures ok { OnOk result
            (WaitsBehind (waiting_of self.old) (waiting_of self.new) (sends_message (T.text text))) }
        ensures one_line { OnOk result (has_newline (T.text text) ≡ false) }
        ensures err { OnErr result (waiting_of self.new ≡ waiting_of self.old) }
        ensures refused { IfErr result (λ e. IsUnsaid (refusal_of e) (T.text text)) }
    {
        let text = text.as_str();
        check_line(text)?;
        self.queue(CommandOf::SendMessage(String::from_str(self.alloc, text)?))?;
        Ok(())
    }

    /// Shows the prompt row, or hides it.
    ///
    /// # Errors
    ///
    /// [`MinusError::Memory`] where there is no memory, and nothing has changed.
    pub fn show_prompt(&mut self, is_shown: bool) -> Result<(), MinusError>
        ensures ok { OnOk result (waiting_of self.new
            ≡ waiting_of self.old ++ CommandOf.ShowPrompt is_shown ∷ []) }
        ensures err { OnErr result (waiting_of self.new ≡ waiting_of self.old) }
        ensures memory { IfErr result (λ e. e ≡ MinusError.Memory) }
    {
        self.queue(CommandOf::ShowPrompt(is_shown))?;
        Ok(())
    }

    /// Lets rows begin with the numbers of their lines, or not.
    ///
    /// # Errors
    ///
    /// [`MinusError::Memory`] where there is no memory, and nothing has changed.
    pub fn set_line_numbers(&mut self, numbers: LineNumbers) -> Result<(), MinusError>
        ensures ok { OnOk result (waiting_of self.new
            ≡ waiting_of self.old ++ CommandOf.SetLineNumbers numbers ∷ []) }
        ensures err { OnErr result (waiting_of self.new ≡ waiting_of self.old) }
        ensures memory { IfErr result (λ e. e ≡ MinusError.Memory) }
    {
        self.queue(CommandOf::SetLineNumbers(numbers))?;
        Ok(())
    }

    /// Lets each line be one row, which is scrolled sideways where it is too long, or wraps such lines.
    ///
    /// # Errors
    ///
    /// [`MinusError::Memory`] where there is no memory, and nothing has changed.
    pub fn horizontal_scroll(&mut self, on: bool) -> Result<(), MinusError>
        ensures ok { OnOk result (waiting_of self.new
            ≡ waiting_of self.old ++ CommandOf.LineWrapping (not on) ∷ []) }
        ensures err { OnErr result (waiting_of self.new ≡ waiting_of self.old) }
        ensures memory { IfErr result (λ e. e ≡ MinusError.Memory) }
    {
        self.queue(CommandOf::LineWrapping(!on))?;
        Ok(())
    }

    /// Searches for a term in each line, so that a match goes over the ends of rows, or in each row by itself, as the
    /// original does. Jumps go to the rows in which a match begins, and the prompt row counts the matches.
    ///
    /// # Errors
    ///
    /// [`MinusError::Memory`] where there is no memory, and nothing has changed.
    pub fn set_match_lines(&mut self, on: bool) -> Result<(), MinusError>
        ensures ok { OnOk result (waiting_of self.new
            ≡ waiting_of self.old ++ CommandOf.SetMatchLines on ∷ []) }
        ensures err { OnErr result (waiting_of self.new ≡ waiting_of self.old) }
        ensures memory { IfErr result (λ e. e ≡ MinusError.Memory) }
    {
        self.queue(CommandOf::SetMatchLines(on))?;
        Ok(())
    }

    /// Puts each row with the style that its line carries to it, and ends it with a reset where it leaves a style open,
    /// or puts rows as their texts are, as the original does. A style does not go on from line to line.
    ///
    /// # Errors
    ///
    /// [`MinusError::Memory`] where there is no memory, and nothing has changed.
    pub fn set_carry_style(&mut self, on: bool) -> Result<(), MinusError>
        ensures ok { OnOk result (waiting_of self.new
            ≡ waiting_of self.old ++ CommandOf.SetCarryStyle on ∷ []) }
        ensures err { OnErr result (waiting_of self.new ≡ waiting_of self.old) }
        ensures memory { IfErr result (λ e. e ≡ MinusError.Memory) }
    {
        self.queue(CommandOf::SetCarryStyle(on))?;
        Ok(())
    }

    /// Begins on the last page, and goes on with what is appended, or no longer.
    ///
    /// # Errors
    ///
    /// [`MinusError::Memory`] where there is no memory, and nothing has changed.
    pub fn follow_output(&mut self, follow: bool) -> Result<(), MinusError>
        ensures ok { OnOk result (waiting_of self.new
            ≡ waiting_of self.old ++ CommandOf.FollowOutput follow ∷ []) }
        ensures err { OnErr result (waiting_of self.new ≡ waiting_of self.old) }
        ensures memory { IfErr result (λ e. e ≡ MinusError.Memory) }
    {
        self.queue(CommandOf::FollowOutput(follow))?;
        Ok(())
    }

    /// Lets an exit be by this strategy, with the code 1 where the process is to end, and 0 where it is to go on.
    ///
    /// # Errors
    ///
    /// [`MinusError::Memory`] where there is no memory, and nothing has changed.
    pub fn set_exit_strategy(&mut self, strategy: ExitStrategy) -> Result<(), MinusError>
        ensures ok { OnOk result (waiting_of self.new
            ≡ waiting_of self.old ++ CommandOf.SetExitStrategy strategy ∷ []) }
        ensures err { OnErr result (waiting_of self.new ≡ waiting_of self.old) }
        ensures memory { IfErr result (λ e. e ≡ MinusError.Memory) }
    {
        self.queue(CommandOf::SetExitStrategy(strategy))?;
        Ok(())
    }

    /// Pages even a text that fits the page, or prints it.
    ///
    /// # Errors
    ///
    /// [`MinusError::Memory`] where there is no memory, and nothing has changed.
    pub fn set_run_no_overflow(&mut self, on: bool) -> Result<(), MinusError>
        ensures ok { OnOk result (waiting_of self.new
            ≡ waiting_of self.old ++ CommandOf.SetRunNoOverflow on ∷ []) }
        ensures err { OnErr result (waiting_of self.new ≡ waiting_of self.old) }
        ensures memory { IfErr result (λ e. e ≡ MinusError.Memory) }
    {
        self.queue(CommandOf::SetRunNoOverflow(on))?;
        Ok(())
    }

    /// Calls this at an exit, behind all that is called then.
    ///
    /// # Errors
    ///
    /// [`MinusError::Memory`] where there is no memory, and nothing has changed.
    pub fn add_exit_callback(&mut self, callback: P::Exit) -> Result<(), MinusError>
        ensures ok { OnOk result (waiting_of self.new
            ≡ waiting_of self.old ++ CommandOf.AddExitCallback callback ∷ []) }
        ensures err { OnErr result (waiting_of self.new ≡ waiting_of self.old) }
        ensures memory { IfErr result (λ e. e ≡ MinusError.Memory) }
    {
        self.queue(CommandOf::AddExitCallback(callback))?;
        Ok(())
    }

    /// Calls this at a hook, behind all that is called there, and holds it under this id; 0 asks for the next free one.
    /// A start refuses an id that the hook holds then.
    ///
    /// # Errors
    ///
    /// [`MinusError::Memory`] where there is no memory, and nothing has changed.
    pub fn add_hook(&mut self, hook: Hook, id: u64, callback: P::Hook) -> Result<(), MinusError>
        ensures ok { OnOk result (waiting_of self.new
            ≡ waiting_of self.old ++ CommandOf.AddHook hook id callback ∷ []) }
        ensures err { OnErr result (waiting_of self.new ≡ waiting_of self.old) }
        ensures memory { IfErr result (λ e. e ≡ MinusError.Memory) }
    {
        self.queue(CommandOf::AddHook(hook, id, callback))?;
        Ok(())
    }

    /// Calls no longer what a hook holds under this id. Without the id 1 of [`Hook::PostPagerExit`], which the pager
    /// keeps for itself, the process goes on after an exit.
    ///
    /// # Errors
    ///
    /// [`MinusError::Memory`] where there is no memory, and nothing has changed.
    pub fn remove_hook(&mut self, hook: Hook, id: u64) -> Result<(), MinusError>
        ensures ok { OnOk result (waiting_of self.new
            ≡ waiting_of self.old ++ CommandOf.RemoveHook hook id ∷ []) }
        ensures err { OnErr result (waiting_of self.new ≡ waiting_of self.old) }
        ensures memory { IfErr result (λ e. e ≡ MinusError.Memory) }
    {
        self.queue(CommandOf::RemoveHook(hook, id))?;
        Ok(())
    }

    /// Lets this classifier decide about the events of the session.
    ///
    /// # Errors
    ///
    /// [`MinusError::Memory`] where memory ran out, nothing has changed, and the classifier is dropped.
    pub fn set_input_classifier(&mut self, classifier: P::Classifier) -> Result<(), MinusError>
        ensures ok { OnOk result (waiting_of self.new
            ≡ waiting_of self.old ++ CommandOf.SetInputClassifier classifier ∷ []) }
        ensures err { OnErr result (waiting_of self.new ≡ waiting_of self.old) }
        ensures memory { IfErr result (λ e. e ≡ MinusError.Memory) }
    {
        self.queue(CommandOf::SetInputClassifier(classifier))?;
        Ok(())
    }

    /// Lets this condition say whether the page of the session shows where a query leads.
    ///
    /// # Errors
    ///
    /// [`MinusError::Memory`] where memory ran out, nothing has changed, and the condition is dropped.
    pub fn set_incremental_search_condition(
        &mut self,
        condition: P::Condition,
    ) -> Result<(), MinusError>
        ensures ok { OnOk result (waiting_of self.new
            ≡ waiting_of self.old ++ CommandOf.IncrementalSearchCondition condition ∷ []) }
        ensures err { OnErr result (waiting_of self.new ≡ waiting_of self.old) }
        ensures memory { IfErr result (λ e. e ≡ MinusError.Memory) }
    {
        self.queue(CommandOf::IncrementalSearchCondition(condition))?;
        Ok(())
    }
}

/// The allocator that a pager takes its memory from.
pub fn alloc_of<P: Parts>(pager: &PagerOf<P>) -> Global
    ensures { result ≡ pager.now.alloc }
{
    pager.alloc
}

/// Keeps what the commands that wait in a pager register, for all of which there is room.
pub fn keep_waiting<P: Parts>(parts: &mut PartsOf<P>, pager: PagerOf<P>)
    requires room { HasRoomFor parts.old (vec_len pager.queue) }
    requires can { CanTakeAll (kept_of parts.old).ids (map wanted_of (waiting_of pager)) }
    ensures kept { kept_of parts.new ≡ kept_taken (kept_of parts.old) (map wanted_of (waiting_of pager)) }
    ensures callbacks { callbacks_of parts.new ≡ with_commands (callbacks_of parts.old) (waiting_of pager) }
    ensures classifier { parts.new.classifier
        ≡ classifier_taken parts.old.classifier (map wanted_of (waiting_of pager)) }
    ensures condition { parts.new.condition ≡ condition_taken parts.old.condition (map wanted_of (waiting_of pager)) }
    ensures state { parts.new.state ≡ parts.old.state }
{
    keep_all(parts, pager.queue);
}

impl<P: Parts> fmt::Write for PagerOf<P> {
    fn write_str(&mut self, text: &str) -> fmt::Result
        ensures ok { OnOk result (WaitsBehind (waiting_of self.old) (waiting_of self.new) (appends_data text.now)) }
        ensures err { OnErr result (waiting_of self.new ≡ waiting_of self.old) }
    {
        match self.push_str(text) {
            Ok(()) => Ok(()),
            Err(_) => Err(fmt::Error),
        }
    }
}
