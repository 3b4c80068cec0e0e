//! What is set in a state, one thing by itself, at once or formed beside it.
use crate::change::{Change, MessageChange, Redraw};
use crate::state::{PagerState, has_newline};
use minus_term::MinusError;

impl PagerState {
    ghost use Rattle.std.specs.Prelude.{◌≡◌, true, false, string_bytes, OnOk, OnErr, IfOk, IfErr};
    ghost use Rattle.minus_state.specs.Changes.{Leads};
    ghost use Rattle.minus_state.specs.Control.{with_message, with_prompt_shown, without_message, with_follow};
    ghost use Rattle.minus_state.specs.Help.{with_prompt};
    ghost use Rattle.minus_state.specs.States.{control_of};
    ghost use Rattle.minus_state.specs.ShownPrompt.{has_newline, IsNewlineRefused};

    /// Lets the prompt say this.
    ///
    /// # Errors
    ///
    /// [`MinusError::NewlineInPrompt`] where it has a newline: the prompt stays then.
    pub fn set_prompt(&mut self, prompt: String) -> Result<(), MinusError>
        ensures ok { OnOk result (self.new ≡ record self.old { prompt = prompt }) }
        ensures one_line { OnOk result (has_newline (string_bytes prompt) ≡ false) }
        ensures err { OnErr result (self.new ≡ self.old) }
        ensures refused { IfErr result (λ e. (e ≡ MinusError.NewlineInPrompt) × (has_newline (string_bytes prompt)
            ≡ true)) }
    {
        if has_newline(&prompt) {
            return Err(MinusError::NewlineInPrompt);
        }
        self.prompt = prompt;
        Ok(())
    }

    /// Lets the page go on with what is appended from now on, or no longer. The mark stays where it is.
    pub fn set_follow_output(&mut self, follow: bool)
        ensures { self.new ≡ record self.old { follow = follow } }
    {
        self.follow = follow;
    }

    /// The state with its prompt row shown, or hidden.
    pub fn with_prompt_shown(&self, is_shown: bool) -> Change
        ensures next { Leads self.now result (with_prompt_shown (control_of self.now) is_shown) }
        ensures redraw { result.redraw ≡ Redraw.Stays }
    {
        let mut change = self.redrawn(Redraw::Stays);
        change.is_shown = is_shown;
        change
    }

    /// The state with another prompt; while help is open, with that of help.
    ///
    /// # Errors
    ///
    /// [`MinusError::NewlineInPrompt`] where it has a newline.
    pub fn prompted(&self, text: String) -> Result<Change, MinusError>
        ensures next { IfOk result (λ c. Leads self.now c
            (with_prompt (control_of self.now) (string_bytes text))) }
        ensures redraw { IfOk result (λ c. c.redraw ≡ Redraw.Stays) }
        ensures one_line { OnOk result (has_newline (string_bytes text) ≡ false) }
        ensures refused { IfErr result (λ e. IsNewlineRefused e (string_bytes text)) }
    {
        if has_newline(&text) {
            return Err(MinusError::NewlineInPrompt);
        }
        if self.help_open() {
            return Ok(self.redrawn(Redraw::Stays));
        }
        let mut change = self.redrawn(Redraw::Stays);
        change.prompt = Some(text);
        Ok(change)
    }

    // The state without a message.
    pub(crate) fn unmessaged(&self) -> Change
        ensures next { Leads self.now result (without_message (control_of self.now)) }
        ensures redraw { result.redraw ≡ Redraw.Stays }
    {
        let mut change = self.redrawn(Redraw::Stays);
        change.message = MessageChange::Goes;
        change
    }

    /// The state with a message in the prompt's place.
    ///
    /// # Errors
    ///
    /// [`MinusError::NewlineInPrompt`] where it has a newline.
    pub fn messaged(&self, message: String) -> Result<Change, MinusError>
        ensures next { IfOk result (λ c. Leads self.now c
            (with_message (control_of self.now) (string_bytes message))) }
        ensures redraw { IfOk result (λ c. c.redraw ≡ Redraw.Stays) }
        ensures one_line { OnOk result (has_newline (string_bytes message) ≡ false) }
        ensures refused { IfErr result (λ e. IsNewlineRefused e (string_bytes message)) }
    {
        if has_newline(&message) {
            return Err(MinusError::NewlineInPrompt);
        }
        let mut change = self.redrawn(Redraw::Stays);
        change.message = MessageChange::Says(message);
        Ok(change)
    }

    /// The state that goes on with what is appended from now on, or no longer. Its mark stays.
    pub fn with_follow(&self, follow: bool) -> Change
        ensures next { Leads self.now result (with_follow (control_of self.now) follow) }
        ensures redraw { result.redraw ≡ Redraw.Moved }
    {
        let mut change = self.redrawn(Redraw::Moved);
        change.follow = follow;
        change
    }
}
