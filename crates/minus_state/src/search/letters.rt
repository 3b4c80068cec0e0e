//! Texts by their characters.
ghost use Rattle.std.specs.Prelude.{ℕ, ◌≡◌, ◌++◌, ◌∷◌, ◌+◌, length, chars, take, drop, string_bytes};
ghost use Rattle.std.specs.Prelude.{IfOk, IsCharBoundary};

use std::alloc::{AllocError, Global};

// What follows the first character of a text, if there is one.
fn past_char(text: &str) -> &str
    ensures chars { chars result.now ≡ drop 1 (chars text.now) }
    ensures tail { (k : ℕ) × IsCharBoundary text.now k × (result.now ≡ drop k text.now) }
{
    let mut rest = text.chars();
    match rest.next() {
        Some(_) => rest.as_str(),
        None => text,
    }
}

// A text in two parts, the first of this many characters, or of all where there are fewer.
fn split_at_char(text: &str, n: usize) -> (&str, &str)
    ensures front { chars result.0.now ≡ take n (chars text.now) }
    ensures back { chars result.1.now ≡ drop n (chars text.now) }
{
    let mut rest = text;
    for _ in 0..n {
        rest = past_char(rest);
    }
    text.split_at(text.len() - rest.len())
}

// A text, a character and another text.
fn around(alloc: Global, front: &str, character: char, back: &str) -> Result<String, AllocError>
    ensures { IfOk result (λ s. chars (string_bytes s) ≡ chars front.now ++ character ∷ chars back.now) }
{
    format!(in alloc; "{front}{character}{back}")
}

// A text and another text.
fn joined(alloc: Global, front: &str, back: &str) -> Result<String, AllocError>
    ensures { IfOk result (λ s. chars (string_bytes s) ≡ chars front.now ++ chars back.now) }
{
    format!(in alloc; "{front}{back}")
}

// A text with one more character, put before the one with a number, counted from 0.
pub(crate) fn with_char(
    alloc: Global,
    text: &str,
    n: usize,
    character: char,
) -> Result<String, AllocError>
    ensures { IfOk result (λ s.
        chars (string_bytes s) ≡ take n (chars text.now) ++ character ∷ drop n (chars text.now)) }
{
    let (front, back) = split_at_char(text, n);
    around(alloc, front, character, back)
}

// A text without the character with a number, counted from 0.
pub(crate) fn without_char(alloc: Global, text: &str, n: usize) -> Result<String, AllocError>
    ensures { IfOk result (λ s. chars (string_bytes s) ≡ take n (chars text.now) ++ drop (n + 1) (chars text.now)) }
{
    let (front, rest) = split_at_char(text, n);
    joined(alloc, front, past_char(rest))
}

// How many characters a text has.
pub(crate) fn char_count(text: &str) -> usize
    ensures { result ≡ length (chars text.now) }
{
    text.chars().count()
}
