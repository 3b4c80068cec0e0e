//! The patterns that a pager searches with beside its user's.
ghost use Rattle.std.specs.Prelude.{IfOk, IfErr};
ghost use Rattle.regex.specs.Strings.{regex_pattern};
ghost use Rattle.minus_text.specs.FixedPatterns.{escape_sequence, query_word, MatchesAs, IsBuiltOf, IsPatternText, IsPatternRefusal};

use minus_term::error::{MinusError, RegexError};
use regex::{Error, Regex};
use std::alloc::Global;

const ESCAPE: &str =
    "[\\u001b\\u009b]\\[[()#;?]*(?:[0-9]{1,4}(?:;[0-9]{0,4})*)?[0-9A-ORZcf-nqry=><]";

const WORD: &str = "([\\w_]+)|([-?~@#!$%^&*()-+={}\\[\\]:;\\\\|'/?<>.,\"]+)|\\W";

/// The pattern of escape sequences and that of the words of a query, built once for all searches.
#[derive(Debug)]
pub struct Patterns {
    pub(crate) escape: Regex,
    pub(crate) word: Regex,
    ghost escape_matches: { MatchesAs (regex_pattern escape) escape_sequence },
    ghost word_matches: { MatchesAs (regex_pattern word) query_word },
}

// Hand-written: a derived drop would stand again in the proof of each function that lets one go.
impl Drop for Patterns {
    fn drop(self) {
        let Patterns { escape: _, word: _ } = self;
    }
}

// A pattern built of its text.
fn built(alloc: Global, source: &str) -> Result<Regex, MinusError>
    requires { IsPatternText source.now }
    ensures built { IfOk result (IsBuiltOf source.now) }
    ensures refused { IfErr result IsPatternRefusal }
{
    match Regex::new(alloc, source) {
        Ok(pattern) => Ok(pattern),
        Err(Error::OutOfMemory) => Err(MinusError::Memory),
        Err(cause) => Err(MinusError::SearchExpError(RegexError(cause))),
    }
}

impl Patterns {
    /// Builds both patterns.
    ///
    /// # Errors
    ///
    /// [`MinusError::Memory`] where there is no memory for them, and
    /// [`MinusError::SearchExpError`] where a built pattern would pass `regex`' limit of size.
    pub fn new(alloc: Global) -> Result<Patterns, MinusError>
        ensures { IfErr result IsPatternRefusal }
    {
        let escape = built(alloc, ESCAPE)?;
        let word = built(alloc, WORD)?;
        Ok(Patterns { escape, word })
    }
}
