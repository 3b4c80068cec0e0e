//! What decides about the events of a session: a register of bindings, or a classifier of its caller's.
use crate::bound::ActionOf;
use crate::callback::{ActionCall, KeptAction};
use crate::register::EventTable;
use minus_state::{InputClassifier, InputEvent, PagerState};
use minus_term::Event;
use std::alloc::{AllocError, Global};
use std::hash::{BuildHasher, BuildHasherDefault, FoldHasher, RandomState};
use std::io;
use std::random::RandomSource;

/// The hasher of a fixed seed.
pub type FixedSeed = BuildHasherDefault<FoldHasher>;

/// The register of bindings over boxed callbacks, whose keys are hashed by `S`.
pub type HashedEventRegister<S> = EventTable<S, KeptAction>;

impl<S: BuildHasher + Drop, C: ActionCall + Drop> InputClassifier for EventTable<S, C> {
    ghost use Rattle.minus_input.specs.Classifiers.{register_says};

    ghost says = { register_says C.answers };

    fn classify_input(&self, event: Event, state: &PagerState) -> Option<InputEvent> {
        match self.find(&event) {
            None => None,
            Some(ActionOf::Default(action)) => Some(action.answer(&event, state)),
            Some(ActionOf::Callback(callback)) => Some(callback.ask(&event, state)),
        }
    }

    fn format_help(&self, alloc: Global) -> Result<Option<String>, AllocError> {
        EventTable::format_help(self, alloc)
    }
}

impl<C: Drop> EventTable<RandomState, C> {
    ghost use Rattle.std.specs.Prelude.{◌≡◌, IfOk};
    ghost use Rattle.minus_input.specs.Register.{nothing_bound};
    ghost use Rattle.minus_input.specs.EventTables.{register_of};

    /// A register in which nothing is bound, whose keys are hashed by a random seed.
    ///
    /// # Errors
    ///
    /// What the source of randomness answers.
    pub fn with_default_hasher<R: RandomSource + AllocGlobal>(
        rt: &R,
    ) -> io::Result<EventTable<RandomState, C>>
        ensures { IfOk result (λ table. register_of table ≡ nothing_bound) }
    {
        Ok(EventTable::new(rt.alloc(), RandomState::new(rt)?))
    }
}

/// What a session keeps to decide about events.
#[derive(Drop)]
pub enum Classifier<C> {
    /// A register that hashes its keys by the fixed seed.
    Register(EventTable<FixedSeed, C>),
    /// A register that hashes its keys by a random seed.
    Random(EventTable<RandomState, C>),
    /// Any other classifier, in a box.
    Boxed(Box<dyn InputClassifier>),
}

impl<C: ActionCall + Drop> InputClassifier for Classifier<C> {
    ghost use Rattle.minus_input.specs.declared.classifier.Classifier.TheVariants.{Register, Random, Boxed};

    ghost says = { record {
      allows = λ classifier event state answer. elim classifier [
        | Register r ↦ ⟦<EventTable<FixedSeed, C> as InputClassifier>⟧.says.allows r event state answer
        | Random r ↦ ⟦<EventTable<RandomState, C> as InputClassifier>⟧.says.allows r event state answer
        | Boxed b ↦ (InputClassifier-box b).says.allows b.value event state answer
      ];
      helps = λ classifier text. elim classifier [
        | Register r ↦ ⟦<EventTable<FixedSeed, C> as InputClassifier>⟧.says.helps r text
        | Random r ↦ ⟦<EventTable<RandomState, C> as InputClassifier>⟧.says.helps r text
        | Boxed b ↦ (InputClassifier-box b).says.helps b.value text
      ];
    } };

    fn classify_input(&self, event: Event, state: &PagerState) -> Option<InputEvent> {
        match self {
            Classifier::Register(register) => register.classify_input(event, state),
            Classifier::Random(register) => register.classify_input(event, state),
            Classifier::Boxed(classifier) => classifier.classify_input(event, state),
        }
    }

    fn format_help(&self, alloc: Global) -> Result<Option<String>, AllocError> {
        match self {
            Classifier::Register(register) => register.format_help(alloc),
            Classifier::Random(register) => register.format_help(alloc),
            Classifier::Boxed(classifier) => classifier.format_help(alloc),
        }
    }
}
