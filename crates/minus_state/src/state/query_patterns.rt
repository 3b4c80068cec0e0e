//! The pattern of a query, if `regex` builds one of it.
ghost use Rattle.std.specs.Prelude.{◌≡◌, ◌≢◌, chars, OnOk, IfOk, IfErr, IfSome, IfNone};
ghost use Rattle.std.specs.Str.{encode_utf8_all};
ghost use Rattle.regex.specs.Strings.{regex_pattern};
ghost use Rattle.minus_state.specs.QueryPatterns.{IsPatternOf, HasNoPattern};

use minus_term::MinusError;
use regex::{Error, Regex};
use std::alloc::Global;
use std::rc::Rc;

// Whether `regex` builds no pattern though there is memory.
fn check_cause(cause: Error) -> Result<(), MinusError>
    ensures other { OnOk result (cause ≢ Error.OutOfMemory) }
    ensures memory { IfErr result (λ e. e ≡ MinusError.Memory) }
{
    match cause {
        Error::OutOfMemory => Err(MinusError::Memory),
        _ => Ok(()),
    }
}

// The pattern of a query; `None` where `regex` builds none for another cause than memory.
pub(crate) fn pattern_of(alloc: Global, query: &str) -> Result<Option<Regex>, MinusError>
    ensures found { IfOk result (λ found. IfSome found (λ r.
        IsPatternOf (encode_utf8_all (chars query.now)) (regex_pattern r))) }
    ensures none { IfOk result (λ found. IfNone found (HasNoPattern (encode_utf8_all (chars query.now)))) }
    ensures memory { IfErr result (λ e. e ≡ MinusError.Memory) }
{
    match Regex::new(alloc, query) {
        Ok(pattern) => Ok(Some(pattern)),
        Err(cause) => {
            check_cause(cause)?;
            Ok(None)
        }
    }
}

// The pattern that is built of a query, where it may stay with others who have it.
pub(crate) fn built(alloc: Global, query: &str) -> Result<Option<Rc<Regex>>, MinusError>
    ensures found { IfOk result (λ found. IfSome found (λ r.
        IsPatternOf (encode_utf8_all (chars query.now)) (regex_pattern r.value))) }
    ensures none { IfOk result (λ found. IfNone found (HasNoPattern (encode_utf8_all (chars query.now)))) }
    ensures memory { IfErr result (λ e. e ≡ MinusError.Memory) }
{
    match pattern_of(alloc, query)? {
        Some(pattern) => {
            let pattern = Rc::new(alloc, pattern)?;
            Ok(Some(pattern))
        }
        None => Ok(None),
    }
}
