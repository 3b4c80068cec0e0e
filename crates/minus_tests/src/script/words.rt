//! Words as a shell hands them on.
use std::alloc::Global;

// Adds a word.
fn add_word(alloc: Global, words: &mut Vec<String>, word: &str) -> bool {
    match String::from_str(alloc, word) {
        Ok(word) => words.push(word).is_ok(),
        Err(_) => false,
    }
}

/// Adds these words, one after another; `false` where memory runs out.
pub fn add_words(alloc: Global, words: &mut Vec<String>, added: &[&str]) -> bool {
    for word in added {
        if !add_word(alloc, words, word) {
            return false;
        }
    }
    true
}
