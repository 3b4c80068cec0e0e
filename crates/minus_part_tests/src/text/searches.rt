//! Terms for tests.
use minus_text::{Patterns, Term};
use regex::Regex;
use std::alloc::Global;

// A pattern with the fixed ones that its search needs.
#[derive(Drop)]
pub(crate) struct Search {
    pub(crate) patterns: Patterns,
    pub(crate) pattern: Regex,
}

impl Search {
    // A search for what a text says; none where memory runs out or the text is no pattern.
    pub(crate) fn of(alloc: Global, text: &str) -> Option<Search> {
        match (Patterns::new(alloc), Regex::new(alloc, text)) {
            (Ok(patterns), Ok(pattern)) => Some(Search { patterns, pattern }),
            _ => None,
        }
    }

    // Its term.
    pub(crate) fn term(&self) -> Option<Term<'_>> {
        Some(Term {
            patterns: &self.patterns,
            pattern: &self.pattern,
        })
    }
}
