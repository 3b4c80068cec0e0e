//! What a session works on beside its terminal, and keeps of its caller's.
//!
//! A function of your own on a session is written over the kinds: `<P: Calls>(session: &mut Core<S, P>)`.
ghost use Rattle.std.specs.Prelude.{◌≡◌, option_map, string_bytes, IfOk, IfErr, OnOk};
ghost use Rattle.minus_state.specs.States.{control_of};
ghost use Rattle.minus_commands.specs.Reads.{IsRequest, IsHelpText, wanted_by};
ghost use Rattle.minus_commands.specs.Callbacks.{KeepsAs};

use crate::request::Request;
use minus_input::callback::{ActionCall, KeptAction};
use minus_input::classifier::Classifier;
use minus_input::register::EventTable;
use minus_state::exits::{ExitCall, ExitCallbacks};
use minus_state::hooks::{HookCall, HookList};
use minus_state::input::InputClassifier;
use minus_state::kept::{KeptExit, KeptHook};
use minus_state::search::condition::{ConditionCall, KeptCondition};
use minus_state::state::{ExitStrategy, PagerState};
use minus_term::MinusError;
use std::alloc::{AllocError, Global};
use std::marker::PhantomData;

/// The kinds of what a session keeps of its caller's.
pub trait Parts {
    /// What is called at a hook.
    type Hook: Drop;
    /// What is called at an exit.
    type Exit: Drop;
    /// What decides whether the page shows where a query leads.
    type Condition: Drop;
    /// What decides about events.
    type Classifier: Drop;
}

/// Kinds that a session can step with: callbacks can be called, the condition and the classifier can be asked.
pub trait Calls: Parts<
    Hook: HookCall,
    Exit: ExitCall,
    Condition: ConditionCall,
    Classifier: InputClassifier,
> {}

/// The kinds, named by their types: callbacks of hooks of the kind `H` and of exits of the kind `E`, a condition of the
/// kind `Q` and a classifier of the kind `K`.
pub struct Kinds<H, E, Q, K> {
    kinds: PhantomData<(H, E, Q, K)>,
}

impl<H: Drop, E: Drop, Q: Drop, K: Drop> Parts for Kinds<H, E, Q, K> {
    type Hook = H;

    type Exit = E;

    type Condition = Q;

    type Classifier = K;
}

impl<H: HookCall + Drop, E: ExitCall + Drop, Q: ConditionCall + Drop, K: InputClassifier> Calls
    for Kinds<H, E, Q, K> {}

/// The kinds of a session that keeps a register of bindings to actions of the kind `C`, or a classifier in a box.
pub type Keyed<H, E, Q, C> = Kinds<H, E, Q, Classifier<C>>;

/// The kinds of a session that keeps callbacks and a condition in boxes, and a register of bindings, or a classifier in
/// a box.
pub type Boxes = Keyed<KeptHook, KeptExit, KeptCondition, KeptAction>;

/// What a session works on beside its terminal, over the kinds of what it keeps.
pub struct PartsOf<P: Parts> {
    /// The displayed text and what is set beside it, with the search prompt while one is open.
    pub state: PagerState,
    /// The callbacks of hooks.
    pub hooks: HookList<P::Hook>,
    /// The callbacks of an exit.
    pub exit_callbacks: ExitCallbacks<P::Exit>,
    /// What decides about events.
    pub classifier: P::Classifier,
    /// What decides whether the page shows where a query leads; without one the default does.
    pub condition: Option<P::Condition>,
    /// How the program is to go on after an exit.
    pub exit_strategy: ExitStrategy,
    /// The code that the program ends with after an exit, if it is to end.
    pub exit_code: u8,
    /// Whether a text that fits the page is paged anyway.
    pub run_no_overflow: bool,
}

// Hand-written: a derived drop would stand again in the proof of each function that lets one go.
impl<P: Parts> Drop for PartsOf<P> {
    fn drop(self) {
        let PartsOf {
            state: _,
            hooks: _,
            exit_callbacks: _,
            classifier: _,
            condition: _,
            exit_strategy: _,
            exit_code: _,
            run_no_overflow: _,
        } = self;
    }
}

impl<P: Parts> PartsOf<P> {
    ghost use Rattle.minus_commands.specs.Callbacks.{callbacks_of, no_callbacks};
    ghost use Rattle.minus_commands.specs.Registration.{kept_at_first};
    ghost use Rattle.minus_commands.specs.Reads.{kept_of};

    /// Parts with a state, and a classifier and a condition that are kept, or no condition. No callback is kept, an
    /// exit ends the process with the code 0, and a text that fits the page is printed.
    pub fn keeping(
        alloc: Global,
        state: PagerState,
        classifier: P::Classifier,
        condition: Option<P::Condition>,
    ) -> PartsOf<P>
        ensures state { result.state ≡ state }
        ensures classifier { result.classifier ≡ classifier }
        ensures condition { result.condition ≡ condition }
        ensures kept { kept_of result ≡ kept_at_first }
        ensures callbacks { callbacks_of result ≡ no_callbacks }
    {
        PartsOf {
            state,
            hooks: HookList::new(alloc),
            exit_callbacks: ExitCallbacks::new(alloc),
            classifier,
            condition,
            exit_strategy: ExitStrategy::ProcessQuit,
            exit_code: 0,
            run_no_overflow: false,
        }
    }
}

impl<H: Drop, E: Drop, Q: Drop, C: Drop> PartsOf<Keyed<H, E, Q, C>> {
    ghost use Rattle.std.specs.Prelude.{None};
    ghost use Rattle.minus_input.specs.DefaultClassifier.{IsDefault};
    ghost use Rattle.minus_commands.specs.Callbacks.{callbacks_of, no_callbacks};
    ghost use Rattle.minus_commands.specs.Registration.{kept_at_first};
    ghost use Rattle.minus_commands.specs.Reads.{kept_of};

    /// Parts with a state and a register of the default bindings, as a session has them that was handed nothing.
    ///
    /// # Errors
    ///
    /// [`AllocError`] where there is no memory for the register.
    pub fn new(alloc: Global, state: PagerState) -> Result<PartsOf<Keyed<H, E, Q, C>>, AllocError>
        ensures state { IfOk result (λ parts. parts.state ≡ state) }
        ensures classifier { IfOk result (λ parts. IsDefault parts.classifier) }
        ensures condition { IfOk result (λ parts. parts.condition ≡ None) }
        ensures kept { IfOk result (λ parts. kept_of parts ≡ kept_at_first) }
        ensures callbacks { IfOk result (λ parts. callbacks_of parts ≡ no_callbacks) }
    {
        let classifier = Classifier::Register(EventTable::default_bindings(alloc)?);
        Ok(PartsOf::keeping(alloc, state, classifier, None))
    }
}

// The text that help is opened with, if there is one: the classifier's; while help is open, the classifier is not
// asked.
fn help_text<P: Calls>(parts: &PartsOf<P>, alloc: Global) -> Result<Option<String>, MinusError>
    ensures text { IfOk result (λ text. IsHelpText P.Classifier.says parts.now.classifier
        (control_of parts.now.state).help (option_map string_bytes text)) }
    ensures memory { IfErr result (λ e. e ≡ MinusError.Memory) }
{
    if parts.state.help_open() {
        return Ok(None);
    }
    let text = parts.classifier.format_help(alloc)?;
    Ok(text)
}

// A request as it is performed: help has its text. (The borrow checker does not cover a caller that matches by value
// what it lent to `set_help`.)
pub(crate) fn with_help<P: Calls>(
    parts: &PartsOf<P>,
    alloc: Global,
    request: Request<P>,
) -> Result<Request<P>, MinusError>
    ensures ok { IfOk result (λ r. IsRequest P.Classifier.says parts.now.classifier
        (control_of parts.now.state).help (wanted_by request) (wanted_by r)) }
    ensures keeps { IfOk result (λ r. KeepsAs r request) }
    ensures memory { IfErr result (λ e. e ≡ MinusError.Memory) }
{
    match request {
        Request::ShowHelp(_) => Ok(Request::ShowHelp(help_text(parts, alloc)?)),
        request => Ok(request),
    }
}

/// Makes a request what is performed: help gets its text.
pub fn set_help<P: Calls>(
    parts: &PartsOf<P>,
    alloc: Global,
    request: &mut Request<P>,
) -> Result<(), MinusError>
    ensures ok { OnOk result (IsRequest P.Classifier.says parts.now.classifier
        (control_of parts.now.state).help (wanted_by request.old) (wanted_by request.new)) }
    ensures keeps { OnOk result (KeepsAs request.new request.old) }
    ensures memory { IfErr result (λ e. e ≡ MinusError.Memory) }
{
    if let Request::ShowHelp(text) = request {
        *text = help_text(parts, alloc)?;
    }
    Ok(())
}

/// What a session works on that keeps what its caller boxes, or a register of bindings.
pub type PagerParts = PartsOf<Boxes>;
