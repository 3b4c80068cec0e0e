//! Commands that wait for a program that runs them manually.
use crate::commands::{CommandOf, IoCommand};
use crate::parts::{Boxes, Parts};
use minus_term::MinusError;
use std::alloc::{AllocError, Global};
use std::collections::VecDeque;

// The number of commands that a new queue has room for, as in the Rust crate.
const ROOM: usize = 10;

/// Commands that wait, over the kinds of what a session keeps: the first that came is the first that goes.
#[derive(Drop)]
#[derive_where(Debug)]
pub struct CommandQueueOf<P: Parts> {
    pub(crate) commands: VecDeque<CommandOf<P>>,
}

/// Commands that wait, to parts that keep what their caller boxes, or a register of bindings.
pub type CommandQueue = CommandQueueOf<Boxes>;

impl<P: Parts> CommandQueueOf<P> {
    ghost use Rattle.std.specs.Prelude.{◌≡◌, ◌<◌, ◌+◌, ◌≤◌, ◌∷◌, ◌++◌, [], ◌==◌, length, map, OnOk, OnErr, IfOk, IfErr, IfSome, IfNone};
    ghost use Rattle.std.specs.VecDeque.{deque_len, deque_capacity};
    ghost use Rattle.minus_commands.specs.Queued.{listed, waiting_in};
    ghost use Rattle.minus_commands.specs.Reads.{as_command};

    /// A queue in which none waits, with room for ten commands.
    ///
    /// # Errors
    ///
    /// [`MinusError::Memory`] where there is no memory for them.
    pub fn new(alloc: Global) -> Result<CommandQueueOf<P>, MinusError>
        ensures none { IfOk result (λ queue. waiting_in queue ≡ []) }
        ensures memory { IfErr result (λ e. e ≡ MinusError.Memory) }
    {
        let mut queue = CommandQueueOf::new_zero(alloc);
        queue.reserve(ROOM)?;
        Ok(queue)
    }

    /// A queue in which none waits, which takes no memory yet.
    pub fn new_zero(alloc: Global) -> CommandQueueOf<P>
        ensures { waiting_in result ≡ [] }
    {
        CommandQueueOf {
            commands: VecDeque::new(alloc),
        }
    }

    /// Whether none waits.
    pub fn is_empty(&self) -> bool
        ensures { result ≡ (length (waiting_in self.now) == 0) }
    {
        self.commands.is_empty()
    }

    /// Lets a command wait behind all others.
    ///
    /// # Errors
    ///
    /// [`MinusError::Memory`] where there is no memory, and nothing has changed.
    pub fn push_back(&mut self, command: CommandOf<P>) -> Result<(), MinusError>
        ensures ok { OnOk result (waiting_in self.new ≡ waiting_in self.old ++ command ∷ []) }
        ensures err { OnErr result (waiting_in self.new ≡ waiting_in self.old) }
        ensures memory { IfErr result (λ e. e ≡ MinusError.Memory) }
    {
        if self.commands.push_back(command).is_err() {
            return Err(MinusError::Memory);
        }
        Ok(())
    }

    /// Takes the command that came first, if one waits.
    pub fn pop_front(&mut self) -> Option<CommandOf<P>>
        ensures first { IfSome result (λ command. waiting_in self.old ≡ command ∷ waiting_in self.new) }
        ensures none { IfNone result ((waiting_in self.old ≡ []) × (waiting_in self.new ≡ [])) }
    {
        self.commands.pop_front()
    }

    // Makes room for this number of commands more.
    pub(crate) fn reserve(&mut self, commands: usize) -> Result<(), AllocError>
        ensures same { waiting_in self.new ≡ waiting_in self.old }
        ensures room { OnOk result (deque_len self.new.commands + commands ≤ deque_capacity self.new.commands) }
    {
        self.commands.reserve(commands)
    }

    // Lets a command that asks for a drawing wait behind all others, if one is given.
    pub(crate) fn push_reserved(&mut self, command: Option<IoCommand>)
        requires { deque_len self.old.commands < deque_capacity self.old.commands }
        ensures pushed { waiting_in self.new ≡ waiting_in self.old ++ map as_command (listed command) }
        ensures room { deque_len self.new.commands ≤ deque_len self.old.commands + 1 }
        ensures capacity { deque_capacity self.new.commands ≡ deque_capacity self.old.commands }
    {
        if let Some(command) = command {
            self.commands.push_back_reserved(CommandOf::Io(command));
        }
    }
}
