//! The escape sequences of a text, and the text without them.
ghost use Rattle.std.specs.Prelude.{◌≡◌, ◌↔◌, ◌≤◌, map, length, option_map, IfOk, IfSome, IsTrue, string_bytes};
ghost use Rattle.regex_hir.specs.Find.{find_after};
ghost use Rattle.regex.specs.Patterns.{find_str, span};
ghost use Rattle.regex.specs.Strings.{matcher_pattern, match_span, match_haystack};
ghost use Rattle.minus_text.specs.Escapes.{escape_places, outside, inside, stripped, escapes, insert_of, CutsText, HasEscapeStart};
ghost use Rattle.minus_text.specs.FixedPatterns.{match_places};
ghost use Rattle.minus_text.specs.Highlight.{StandIn};

use crate::search::patterns::Patterns;
use regex::{Match, Matcher};
use std::alloc::{AllocError, Global};

// Whether a text has a character that an escape sequence begins with. A text without one has no escape sequence.
pub(crate) fn has_escape_start(text: &str) -> bool
    ensures { IsTrue result ↔ HasEscapeStart text.now }
{
    text.contains("\u{1B}") || text.contains("\u{9B}")
}

// The match that follows one that ends at a place. An empty one right there is skipped.
fn following<'h>(matcher: &mut Matcher<'_>, text: &'h str, end: usize) -> Option<Match<'h>>
    requires { end ≤ length text.now }
    ensures found { option_map match_span result
        ≡ option_map span (find_after (find_str (matcher_pattern matcher.old) text.now) end) }
    ensures within { IfSome result (λ m. match_haystack m ≡ text.now) }
    ensures same { matcher_pattern matcher.new ≡ matcher_pattern matcher.old }
{
    match matcher.find_at(text, end) {
        Some(found) => {
            if found.end() == end {
                return matcher.find_at(text, end + 1);
            }
            Some(found)
        }
        None => None,
    }
}

// Where a pattern's matches begin and end in a text.
pub(crate) fn match_places(
    alloc: Global,
    matcher: &mut Matcher<'_>,
    text: &str,
) -> Result<Vec<(usize, usize)>, AllocError>
    ensures found { IfOk result (λ places. places.items ≡ match_places (matcher_pattern matcher.old) text.now) }
    ensures cuts { IfOk result (λ places. CutsText text.now 0 places.items) }
    ensures same { matcher_pattern matcher.new ≡ matcher_pattern matcher.old }
{
    let mut places = Vec::new(alloc);
    let mut next = matcher.find_at(text, 0);
    while let Some(found) = next {
        places.push((found.start(), found.end()))?;
        next = following(matcher, text, found.end());
    }
    Ok(places)
}

// Some text that stands at a place of another.
#[derive(Clone, Copy)]
pub(crate) struct Insert<'l> {
    pub(crate) place: usize,
    pub(crate) text: &'l str,
}

// A line without its escape sequences, and these with their places in it.
#[derive(Drop)]
pub(crate) struct Parted<'l> {
    pub(crate) text: String,
    pub(crate) escapes: Vec<Insert<'l>>,
}

// Parts a line into what stands between these places and what is outside of them.
pub(crate) fn part<'l>(
    alloc: Global,
    line: &'l str,
    places: &[(usize, usize)],
) -> Result<Parted<'l>, AllocError>
    requires { CutsText line.now 0 places.now }
    ensures text { IfOk result (λ p. string_bytes p.text ≡ outside line.now 0 places.now) }
    ensures stand { IfOk result (λ p. StandIn (string_bytes p.text) 0 (map insert_of p.escapes.items)) }
    ensures escapes { IfOk result (λ p. map insert_of p.escapes.items ≡ inside line.now 0 0 places.now) }
{
    let mut text = String::new(alloc);
    let mut escapes = Vec::new(alloc);
    let mut at = 0;
    for place in places {
        text.push_str(&line[at..place.0])?;
        escapes.push(Insert {
            place: text.len(),
            text: &line[place.0..place.1],
        })?;
        at = place.1;
    }
    text.push_str(&line[at..])?;
    Ok(Parted { text, escapes })
}

// Where a line's escape sequences begin and end.
fn escape_places(
    alloc: Global,
    patterns: &Patterns,
    line: &str,
) -> Result<Vec<(usize, usize)>, AllocError>
    ensures found { IfOk result (λ places. places.items ≡ escape_places line.now) }
    ensures cuts { IfOk result (λ places. CutsText line.now 0 places.items) }
{
    let mut matcher = patterns.escape.matcher(alloc)?;
    let places = match_places(alloc, &mut matcher, line)?;
    Ok(places)
}

// A line's escape sequences, and the line without them.
pub(crate) fn part_line<'l>(
    alloc: Global,
    patterns: &Patterns,
    line: &'l str,
) -> Result<Parted<'l>, AllocError>
    ensures text { IfOk result (λ p. string_bytes p.text ≡ stripped line.now) }
    ensures stand { IfOk result (λ p. StandIn (string_bytes p.text) 0 (map insert_of p.escapes.items)) }
    ensures escapes { IfOk result (λ p. map insert_of p.escapes.items ≡ escapes line.now) }
{
    let places = escape_places(alloc, patterns, line)?;
    let parted = part(alloc, line, &places)?;
    Ok(parted)
}

/// A text without its escape sequences, which the fixed pattern of `Patterns` finds.
///
/// # Errors
///
/// [`AllocError`] if memory runs out.
pub fn strip_escapes(alloc: Global, patterns: &Patterns, text: &str) -> Result<String, AllocError>
    ensures { IfOk result (λ s. string_bytes s ≡ stripped text.now) }
{
    Ok(part_line(alloc, patterns, text)?.text)
}
