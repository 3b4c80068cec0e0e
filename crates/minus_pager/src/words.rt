//! The words that the program is called with.
use crate::exit_status::Refusal;
use std::alloc::{AllocError, Global};
use std::env;

/// The words after the program's name.
///
/// # Errors
///
/// [`Refusal::Failed`] where they are no UTF-8, or there is no memory.
pub fn read_words(rt: &HostRuntime) -> Result<Vec<String>, Refusal> {
    let mut words = env::args(rt)?;
    let _ = words.next();
    Ok(Vec::from_iter(rt.alloc(), words)?)
}

/// Words as texts.
///
/// # Errors
///
/// [`AllocError`] where there is no memory.
pub fn texts<'a>(alloc: Global, words: &'a [String]) -> Result<Vec<&'a str>, AllocError> {
    let mut texts = Vec::new(alloc);
    for word in words {
        texts.push(word.as_str())?;
    }
    Ok(texts)
}

/// What the environment asks for: what `MINUS` says, or else `LESS`.
///
/// # Errors
///
/// [`AllocError`] where there is no memory.
pub fn set_words(rt: &HostRuntime) -> Result<String, AllocError> {
    for name in ["MINUS", "LESS"] {
        if let Ok(set) = env::var(rt, name) {
            return Ok(set);
        }
    }
    Ok(String::new(rt.alloc()))
}
