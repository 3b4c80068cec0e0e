//! Layouts, terms and numbers as calls write them.
use minus::{Layout, LineNumbers, Patterns, Term, parse_usize};
use regex::Regex;
use std::alloc::Global;

/// A term with the fixed patterns of its search.
#[derive(Drop)]
pub struct Search {
    pub patterns: Patterns,
    pub pattern: Regex,
}

impl Search {
    /// A search for a pattern; none where a text is no pattern.
    pub(crate) fn of(alloc: Global, text: &str) -> Option<Search> {
        match (Patterns::new(alloc), Regex::new(alloc, text)) {
            (Ok(patterns), Ok(pattern)) => Some(Search { patterns, pattern }),
            _ => None,
        }
    }

    pub(crate) fn term(&self) -> Term<'_> {
        Term {
            patterns: &self.patterns,
            pattern: &self.pattern,
        }
    }
}

/// The layout that words say: the columns, and what is on.
pub(crate) fn parse_layout(words: &str) -> Layout {
    let mut layout = Layout::plain(0);
    for word in words.split(' ') {
        match word {
            "numbers" => layout.numbers = LineNumbers::Enabled,
            "always" => layout.numbers = LineNumbers::AlwaysOn,
            "unwrapped" => layout.wrapping = false,
            "lines" => layout.match_lines = true,
            "styles" => layout.carry_style = true,
            _ => layout.cols = parse_usize(word).unwrap_or(0),
        }
    }
    layout
}

/// The number that a text begins with, and what stands behind the blank after it.
pub(crate) fn split_number(text: &str) -> Option<(usize, &str)> {
    let (number, rest) = text.split_once(' ')?;
    Some((parse_usize(number)?, rest))
}

/// Three numbers that a text begins with, and the rest.
pub(crate) fn split_counts(text: &str) -> Option<((usize, usize, usize), &str)> {
    let (lines, rest) = split_number(text)?;
    let (rows, rest) = split_number(rest)?;
    let (unfinished, rest) = split_number(rest)?;
    Some(((lines, rows, unfinished), rest))
}
