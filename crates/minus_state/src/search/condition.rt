//! The condition of an incremental search: whether the page shows where a query leads.
ghost use Rattle.std.specs.Prelude.{◌≡◌};

use crate::search::opts::SearchOpts;

/// What can be asked whether the page shows where a query leads.
pub trait ConditionCall {
    ghost use Rattle.minus_state.specs.Conditions.{Judges};

    // What it may answer to what it sees.
    ghost judges: { Judges Self };

    /// Whether the page shows where the query leads that is seen here.
    fn ask(&self, opts: &SearchOpts<'_>) -> bool
        ensures { judges self.now opts.now result };
}

/// A condition as its caller boxes it: it says whether the page shows where the query leads that it sees.
pub type SearchCondition = Box<dyn Fn(&SearchOpts<'_>) -> bool>;

/// A condition that may be asked about every query.
#[derive(Drop)]
pub struct KeptCondition {
    condition: SearchCondition,
    ghost callable: { SearchCondition.IsAlwaysCallable condition },
}

impl KeptCondition {
    /// Keeps a condition.
    pub fn new(condition: SearchCondition) -> KeptCondition
        requires { SearchCondition.IsAlwaysCallable condition }
        ensures { result.condition ≡ condition }
    {
        KeptCondition { condition }
    }
}

// Asks a condition.
fn ask<F: Fn(&SearchOpts<'_>) -> bool>(condition: &F, opts: &SearchOpts<'_>) -> bool
    requires { F.IsAlwaysCallable condition.now }
    ensures { F.post condition.now opts.entry result }
{
    condition(opts)
}

impl ConditionCall for KeptCondition {
    ghost use Rattle.std.specs.Borrow.{Bor};
    ghost use Rattle.minus_state.specs.declared.search.opts.SearchOpts.{SearchOpts};

    ghost judges = { λ kept o answer. (opts : Bor SearchOpts) × (opts.now ≡ o)
        × SearchCondition.post kept.condition opts answer };

    fn ask(&self, opts: &SearchOpts<'_>) -> bool {
        ask(&self.condition, opts)
    }
}

/// A condition that says no to every query, so that the page never shows where one leads. As the kind of the condition
/// it stands where a session keeps nothing in a box.
#[derive(Clone, Copy, Drop)]
pub struct NeverShows;

impl ConditionCall for NeverShows {
    ghost use Rattle.std.specs.Prelude.{false};

    ghost judges = { λ condition opts answer. answer ≡ false };

    fn ask(&self, _opts: &SearchOpts<'_>) -> bool {
        false
    }
}
