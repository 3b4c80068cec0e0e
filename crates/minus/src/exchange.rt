//! The exchange of a session's sink.
ghost use Rattle.minus_draw.specs.Drawn.{ExchangeLeavesItsPage};

use crate::session::Core;
use crate::status::Status;
use minus_commands::outcome::outcome_of;
use minus_commands::parts::Parts;
use minus_commands::request::Request;
use minus_term::{MinusError, OutputSink};
use std::mem;

/// An exchange of a sink that was refused.
#[derive(Debug, Drop)]
pub struct SinkError<S> {
    /// The sink that the session does not have: the one that was handed in, or, where that refused the page, the one
    /// before it.
    pub sink: S,
    /// Why.
    pub cause: MinusError,
}

impl<S, P: Parts> Core<S, P> {
    ghost use Rattle.std.specs.Prelude.{◌≡◌};
    ghost use Rattle.minus.specs.Core.{seen_of};

    /// Puts a sink in the place of the session's, which comes back with all that was written on it. Nothing is written:
    /// the new sink is to lead to the screen that the old one led to. For another terminal there is
    /// [`set_output_sink`](Core::set_output_sink).
    pub fn replace_sink(&mut self, sink: S) -> S
        ensures seen { seen_of self.new ≡ seen_of self.old }
        ensures sink { self.new.sink ≡ sink }
        ensures old { result ≡ self.old.sink }
    {
        mem::replace(&mut self.sink, sink)
    }
}

impl<S: OutputSink + Drop, P: Parts> Core<S, P> {
    ghost use Rattle.std.specs.Prelude.{◌≡◌, OnOk, OnErr, IfOk, IfErr};
    ghost use Rattle.minus_term.specs.Refusals.{refusal_of};
    ghost use Rattle.minus_term.specs.Written.{written_all};
    ghost use Rattle.minus_state.specs.Sizes.{IsSize};
    ghost use Rattle.minus_commands.specs.Callbacks.{callbacks_of};
    ghost use Rattle.minus.specs.Core.{seen_of};
    ghost use Rattle.minus_draw.specs.Drawings.{whole_page};
    ghost use Rattle.minus_commands.specs.Outcomes.{IsUnformed};
    ghost use Rattle.minus_commands.specs.Table.{resizes};
    ghost use Rattle.minus.specs.Exchanges.{CanExchange, IsExchange, IsExchangeEarly, RefusesExchange, resized};

    // Takes another size over, and draws the page whole into the buffer. An `Err` changes nothing.
    fn resize(&mut self, cols: usize, rows: usize) -> Result<(), MinusError>
        requires can { CanExchange (seen_of self.old) }
        ensures seen { OnOk result (seen_of self.new ≡ resized (seen_of self.old) cols rows) }
        ensures drawn { OnOk result (self.new.drawing.items ≡ written_all (whole_page (seen_of self.new).control)) }
        ensures size { OnOk result (IsSize cols rows) }
        ensures sink { self.new.sink ≡ self.old.sink }
        ensures err { OnErr result (seen_of self.new ≡ seen_of self.old) }
        ensures refused { IfErr result (λ e.
            IsUnformed {Q = P.Condition} {K = P.Classifier} (refusal_of e) (resizes cols rows)) }
        ensures callbacks { callbacks_of self.new.parts ≡ callbacks_of self.old.parts }
    {
        let resizes: Request<P> = Request::Resize(cols, rows);
        let outcome = outcome_of(&self.parts.state, self.alloc, resizes, false)?;
        let _ = self.apply(outcome)?;
        Ok(())
    }

    // Whether the sink can be exchanged now, or the term set.
    pub(crate) fn check_exchange(&self) -> Result<(), MinusError>
        ensures can { OnOk result (CanExchange (seen_of self.now)) }
        ensures refused { IfErr result (λ e. IsExchangeEarly (refusal_of e) (seen_of self.now)) }
    {
        match self.status {
            Status::Running => {}
            Status::Ended => return Err(MinusError::Ended),
            Status::Failed => return Err(MinusError::Failed),
        }
        if self.is_searching() {
            return Err(MinusError::BadMode);
        }
        Ok(())
    }

    /// Puts another sink in the place of the session's, for a terminal of this many columns and rows, draws the page on
    /// it, whole, and hands the old one back. Nothing else is written on either: the new terminal is set up by its
    /// owner, and the old one cleaned up.
    ///
    /// # Errors
    ///
    /// [`MinusError::Failed`] and [`MinusError::Ended`] as of a step, [`MinusError::BadMode`] where a search prompt is
    /// open, [`MinusError::BadSize`] where the columns or the rows are not from 1 to 65,535, and [`MinusError::Memory`]
    /// where there is no memory: the sink that was handed in comes back, and nothing has changed.
    /// [`MinusError::Draw`] where the new sink refuses the page, of which a beginning was written: the old one comes
    /// back, and the session has failed.
    pub fn set_output_sink(&mut self, sink: S, cols: usize, rows: usize) -> Result<S, SinkError<S>>
        ensures exchanged { IfOk result (λ back. IsExchange S.seen self.old sink cols rows self.new back) }
        ensures refused { IfErr result (λ e.
            RefusesExchange (refusal_of e.cause) S.seen self.old sink cols rows self.new e.sink) }
        ensures callbacks { callbacks_of self.new.parts ≡ callbacks_of self.old.parts }
    {
        if let Err(cause) = self.check_exchange() {
            return Err(SinkError { sink, cause });
        }
        if let Err(cause) = self.resize(cols, rows) {
            return Err(SinkError { sink, cause });
        }
        let old = mem::replace(&mut self.sink, sink);
        if let Err(cause) = self.write_drawing() {
            return Err(SinkError { sink: old, cause });
        }
        Ok(old)
    }
}

/// A law: where a sink that was put in the place of another one told its bytes, they end with the drawing of the page.
pub fn an_exchange_leaves_its_page()
    ensures { ExchangeLeavesItsPage }
{}
