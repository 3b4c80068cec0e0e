//! Where the words of a query start.
ghost use Rattle.std.specs.Prelude.{◌≡◌, ◌≤◌, ◌+◌, length, take, chars, IfOk, IsCharBoundary};
ghost use Rattle.minus_text.specs.Escapes.{CutsText};
ghost use Rattle.minus_text.specs.WordStarts.{word_places, word_starts, AreWithin};

use crate::search::escapes::match_places;
use crate::search::patterns::Patterns;
use std::alloc::{AllocError, Global};

// The number of characters of a text.
fn char_count(text: &str) -> usize
    ensures { result ≡ length (chars text.now) }
{
    text.chars().count()
}

// Where the word pattern matches in a text.
fn word_places(
    alloc: Global,
    patterns: &Patterns,
    text: &str,
) -> Result<Vec<(usize, usize)>, AllocError>
    ensures found { IfOk result (λ places. places.items ≡ word_places text.now) }
    ensures cuts { IfOk result (λ places. CutsText text.now 0 places.items) }
{
    let mut matcher = patterns.word.matcher(alloc)?;
    let places = match_places(alloc, &mut matcher, text)?;
    Ok(places)
}

// The number of characters before a place of a text, where those before an earlier one were counted.
fn counted_on(text: &str, at: usize, count: usize, place: usize) -> usize
    requires order { at ≤ place }
    requires at { IsCharBoundary text.now at }
    requires place { IsCharBoundary text.now place }
    requires count { count ≡ length (chars (take at text.now)) }
    ensures count { result ≡ length (chars (take place text.now)) }
    ensures few { result ≤ length (chars text.now) }
    ensures small { result ≤ length text.now }
{
    count + char_count(&text[at..place])
}

/// Where the words of a text start, in characters counted from 1: at the matches of the word pattern of `Patterns`.
///
/// # Errors
///
/// [`AllocError`] where there is no memory for it.
pub fn word_starts(alloc: Global, patterns: &Patterns, text: &str) -> Result<Vec<usize>, AllocError>
    ensures starts { IfOk result (λ starts. starts.items ≡ word_starts text.now) }
    ensures within { IfOk result (λ starts. AreWithin (length (chars text.now) + 1) starts.items) }
{
    let places = word_places(alloc, patterns, text)?;
    let mut starts = Vec::new(alloc);
    let mut at = 0;
    let mut count = 0;
    for place in &places {
        let before = counted_on(text, at, count, place.0);
        starts.push(before + 1)?;
        count = counted_on(text, place.0, before, place.1);
        at = place.1;
    }
    Ok(starts)
}
