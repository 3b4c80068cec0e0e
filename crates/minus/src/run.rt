//! Lists of inputs that are performed.
use crate::answer::Answer;
use crate::session::Core;
use minus_commands::commands::InputOf;
use minus_commands::parts::{Boxes, Calls, Parts};
use minus_term::{MinusError, OutputSink};

/// The result of a list of inputs, over the kinds of what the session keeps.
#[derive(Drop)]
#[derive_where(Debug)]
pub struct RanOf<P: Parts> {
    /// How many steps ended well.
    pub done: usize,
    /// The answer of the last of them.
    pub last: Option<Answer>,
    /// The refusal after them, whose input is dropped.
    pub stopped: Option<MinusError>,
    /// The inputs that were not taken.
    pub rest: Vec<InputOf<P>>,
}

/// The result of a list of inputs to a session that keeps a register of bindings, or a classifier in a box.
pub type Ran = RanOf<Boxes>;

// How far a list of inputs was performed.
#[derive(Drop)]
struct Progress {
    done: usize,
    last: Option<Answer>,
    stopped: Option<MinusError>,
}

impl<S: OutputSink + Drop, P: Calls> Core<S, P> {
    ghost use Rattle.minus.specs.Says.{says_of};
    ghost use Rattle.minus.specs.SessionSteps.{RunsTo, RunsFromEndTo};

    // Performs inputs from the end of a list, until one is refused, or after a step that exits, copies a text or
    // refuses items.
    fn run_from_end(&mut self, left: &mut Vec<InputOf<P>>) -> Progress
        ensures { RunsFromEndTo S.seen (says_of P.Condition.judges P.Classifier.says) self.old self.new
            left.old.items left.new.items result }
    {
        let mut done = 0;
        let mut last = None;
        while let Some(input) = left.pop() {
            match self.step(input) {
                Ok(answer) => {
                    done += 1;
                    if answer.ends_a_run() {
                        return Progress {
                            done,
                            last: Some(answer),
                            stopped: None,
                        };
                    }
                    last = Some(answer);
                }
                Err(refusal) => {
                    return Progress {
                        done,
                        last,
                        stopped: Some(refusal),
                    };
                }
            }
        }
        Progress {
            done,
            last,
            stopped: None,
        }
    }

    /// Performs inputs in order, until one is refused, or after a step that exits, copies a text or refuses items; the
    /// answer of the last step that ended well says which. An input that is refused is dropped, and those after it, or
    /// after such a step, are handed back.
    pub fn run(&mut self, inputs: Vec<InputOf<P>>) -> RanOf<P>
        ensures { RunsTo S.seen (says_of P.Condition.judges P.Classifier.says) self.old self.new inputs.items result }
    {
        let mut left = inputs;
        left.reverse();
        let progress = self.run_from_end(&mut left);
        left.reverse();
        RanOf {
            done: progress.done,
            last: progress.last,
            stopped: progress.stopped,
            rest: left,
        }
    }
}
