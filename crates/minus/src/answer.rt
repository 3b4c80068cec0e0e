//! What a step answers.
use crate::state::ExitStrategy;
use minus_term::MinusError;

/// What a step answers.
#[derive(Debug, Drop)]
pub struct Answer {
    /// After an exit, how the program is to go on, and the code that it ends with if it is to end.
    pub exited: Option<(ExitStrategy, u8)>,
    /// The text that was copied.
    pub copied: Option<String>,
    /// The items that were refused in the step, which went on.
    pub refused: Vec<MinusError>,
}

impl Answer {
    ghost use Rattle.std.specs.Prelude.{◌≡◌, map, option_map, string_bytes};
    ghost use Rattle.minus_term.specs.Refusals.{refusal_of};
    ghost use Rattle.minus.specs.Answers.{IsAnswer, ends_run};

    // The answer of a step that exits so, or goes on, has copied a text last, or none, and passed these items over.
    pub(crate) fn of_step(
        exited: Option<(ExitStrategy, u8)>,
        copied: Option<String>,
        refused: Vec<MinusError>,
    ) -> Answer
        ensures { IsAnswer exited (option_map string_bytes copied) (map refusal_of refused.items) result }
    {
        Answer {
            exited,
            copied,
            refused,
        }
    }

    // Whether a run stops after the step: it has exited, copied a text, or refused items.
    pub(crate) fn ends_a_run(&self) -> bool
        ensures { result ≡ ends_run self.now }
    {
        self.exited.is_some() || self.copied.is_some() || !self.refused.is_empty()
    }
}
