//! The term of a session, set manually.
ghost use Rattle.std.specs.Prelude.{◌≡◌, option_map, IfOk};
ghost use Rattle.regex.specs.Strings.{regex_pattern};

use crate::session::Core;
use minus_commands::outcome::Outcome;
use minus_commands::parts::Parts;
use minus_term::{MinusError, OutputSink};
use regex::Regex;
use std::alloc::{AllocError, Global};
use std::rc::Rc;

// A pattern behind a pointer, if there is one.
fn share(alloc: Global, pattern: Option<Regex>) -> Result<Option<Rc<Regex>>, AllocError>
    ensures { IfOk result (λ shared.
        option_map (λ p. regex_pattern p.value) shared ≡ option_map regex_pattern pattern) }
{
    match pattern {
        Some(pattern) => Ok(Some(Rc::new(alloc, pattern)?)),
        None => Ok(None),
    }
}

impl<S: OutputSink + Drop, P: Parts> Core<S, P> {
    ghost use Rattle.std.specs.Prelude.{OnOk, OnErr, IfErr};
    ghost use Rattle.minus_term.specs.Refusals.{refusal_of};
    ghost use Rattle.minus_term.specs.Written.{written_all};
    ghost use Rattle.minus_commands.specs.Callbacks.{callbacks_of};
    ghost use Rattle.minus.specs.Core.{seen_of};
    ghost use Rattle.minus_draw.specs.Drawings.{whole_page};
    ghost use Rattle.minus.specs.Exchanges.{CanExchange};
    ghost use Rattle.minus.specs.TermChanges.{with_term, IsTermChange, RefusesTerm};

    // Takes another term over, or none, and draws the page whole into the buffer. An `Err` changes nothing.
    fn take_term(&mut self, term: Option<Regex>) -> Result<(), MinusError>
        requires can { CanExchange (seen_of self.old) }
        ensures seen { OnOk result (seen_of self.new
            ≡ with_term (seen_of self.old) (option_map regex_pattern term)) }
        ensures drawn { OnOk result (self.new.drawing.items ≡ written_all (whole_page (seen_of self.new).control)) }
        ensures sink { self.new.sink ≡ self.old.sink }
        ensures err { OnErr result (seen_of self.new ≡ seen_of self.old) }
        ensures memory { IfErr result (λ e. e ≡ MinusError.Memory) }
        ensures callbacks { callbacks_of self.new.parts ≡ callbacks_of self.old.parts }
    {
        let term = share(self.alloc, term)?;
        let change = self.parts.state.searched(self.alloc, term)?;
        let _ = self.apply(Outcome::of(change))?;
        Ok(())
    }

    /// Searches for a pattern from now on, or for none, and draws the page, whole. It stays where it is, and the prompt
    /// row reports the first match at the page's first row or behind it.
    ///
    /// # Errors
    ///
    /// [`MinusError::Failed`] and [`MinusError::Ended`] as of a step, [`MinusError::BadMode`] where a search prompt is
    /// open, and [`MinusError::Memory`] where there is no memory: nothing has changed. [`MinusError::Draw`] where the
    /// sink refuses the page, of which a beginning was written: the session has failed.
    pub fn set_term(&mut self, term: Option<Regex>) -> Result<(), MinusError>
        ensures set { OnOk result (IsTermChange S.seen self.old (option_map regex_pattern term) self.new) }
        ensures refused { IfErr result (λ e.
            RefusesTerm (refusal_of e) S.seen self.old (option_map regex_pattern term) self.new) }
        ensures callbacks { callbacks_of self.new.parts ≡ callbacks_of self.old.parts }
    {
        self.check_exchange()?;
        self.take_term(term)?;
        self.write_drawing()?;
        Ok(())
    }
}
