//! What rows are searched for.
use crate::search::patterns::Patterns;
use regex::Regex;

/// A term: the pattern that rows are searched for, and the fixed patterns that the search needs.
#[derive(Clone, Copy)]
pub struct Term<'a> {
    /// The fixed patterns.
    pub patterns: &'a Patterns,
    /// The pattern of the user's.
    pub pattern: &'a Regex,
}
