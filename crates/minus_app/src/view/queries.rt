//! What is kept from one query to the next: the queries that were taken, and whether their capitals count.
use minus_view::{Case, History};
use std::alloc::Global;

/// What is kept from one query to the next.
#[derive(Drop)]
pub struct Queries {
    // Those that were taken.
    pub(super) history: History,
    // The one that was taken last.
    pub(super) last: Option<String>,
    // Whether their capitals count.
    pub(super) case: Case,
    // The pattern whose matches are not shown any more.
    pub(super) hidden: Option<String>,
    // The match that the prompt row reported as the search prompt opened.
    pub(super) told_before: usize,
    // Where the page was then, if the text was followed.
    pub(super) rests_from: Option<usize>,
}

impl Queries {
    /// None was taken yet.
    pub(super) fn new(alloc: Global, case: Case) -> Queries {
        Queries {
            history: History::new(alloc),
            last: None,
            case,
            hidden: None,
            told_before: 0,
            rests_from: None,
        }
    }

    /// Whether the capitals of a query do not count.
    pub(super) fn leave_out_case(&self, query: &str) -> bool {
        match self.case {
            Case::Exact => false,
            Case::Smart => !query.chars().any(|c| c.is_uppercase()),
            Case::Ignored => true,
        }
    }
}
