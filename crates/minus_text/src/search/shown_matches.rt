//! Which matches of a text are shown in some columns of it.
ghost use Rattle.std.specs.Prelude.{◌≡◌, ◌+◌, ◌*◌, ◌^◌, ◌<◌, ◌≤◌, ℕ, List, [], ◌∷◌, ◌++◌, length, chars, IfOk, OnOk, IsCharBoundary, if◌then◌else◌};
ghost use Rattle.minus_text.specs.TextUnits.{text_units, bytes_left};
ghost use Rattle.minus_text.specs.Escapes.{CutsText};
ghost use Rattle.minus_text.specs.Crop.{cropped};
ghost use Rattle.minus_text.specs.ShownMatches.{columns_before, shown_matches, reversed_in, marked_stretch, AddsMatch, IsPlainTo};
ghost use Rattle.minus_text.specs.Walks.{Counts};

use crate::crop::Window;
use crate::push_text::PushText;
use crate::search::highlight::{REVERSE_OFF, REVERSE_ON};
use crate::units::Units;
use std::alloc::{AllocError, Global};

// How far the units of a text were counted: what is left of them, and the bytes and the columns before.
#[derive(Clone, Copy)]
pub(crate) struct Walk<'t> {
    rest: Units<'t>,
    at: usize,
    columns: usize,
}

// Nothing of a text is counted.
fn begin_walk(text: &str) -> Walk<'_>
    ensures counts { Counts result (text_units (chars text.now)) 0 }
    ensures bytes { result.at + length (bytes_left result.rest) ≤ length text.now }
    ensures columns { result.columns + 2 * length (bytes_left result.rest) ≤ 2 * length text.now }
{
    Walk {
        rest: Units::new(text),
        at: 0,
        columns: 0,
    }
}

// Counts on up to the first unit that does not begin before a place.
fn walk_to(from: Walk<'_>, place: usize) -> Walk<'_>
    requires bytes { from.at + length (bytes_left from.rest) < 2 ^ 64 }
    requires columns { from.columns + 2 * length (bytes_left from.rest) < 2 ^ 64 }
    ensures counts { (us : List (List ℕ)) (p : ℕ) → p ≤ place → Counts from.entry us p →
        Counts result us place }
    ensures columns { (us : List (List ℕ)) (p : ℕ) → p ≤ place → Counts from.entry us p →
        columns_before place us ≡ result.columns }
    ensures bytes { result.at + length (bytes_left result.rest)
        ≤ from.entry.at + length (bytes_left from.entry.rest) }
    ensures room { result.columns + 2 * length (bytes_left result.rest)
        ≤ from.entry.columns + 2 * length (bytes_left from.entry.rest) }
{
    let mut walk = from;
    while walk.at < place {
        let Some((unit, rest)) = walk.rest.split_first() else {
            return walk;
        };
        walk = Walk {
            rest,
            at: walk.at + unit.text.len(),
            columns: walk.columns + unit.columns,
        };
    }
    walk
}

// Adds a match if it is shown.
fn push_if(
    shown: &mut Vec<(usize, usize)>,
    is_shown: bool,
    place: (usize, usize),
) -> Result<(), AllocError>
    ensures { OnOk result (shown.new.items ≡ shown.old.items ++ (if is_shown then place ∷ [] else [])) }
{
    if is_shown {
        shown.push(place)?;
    }
    Ok(())
}

// The matches of a text that are shown in some columns. Nothing behind these is looked at.
pub(crate) fn shown_matches(
    alloc: Global,
    text: &str,
    window: Window,
    matches: &[(usize, usize)],
) -> Result<Vec<(usize, usize)>, AllocError>
    requires { CutsText text.now 0 matches.now }
    ensures shown { IfOk result (λ ms. ms.items ≡ shown_matches window.left window.width text.now matches.now) }
    ensures cuts { IfOk result (λ ms. CutsText text.now 0 ms.items) }
{
    let mut shown = Vec::new(alloc);
    let mut walk = begin_walk(text);
    for place in matches {
        let start = walk_to(walk, place.0);
        if window.is_behind(start.columns) {
            return Ok(shown);
        }
        walk = walk_to(start, place.1);
        push_if(
            &mut shown,
            window.meets(start.columns, walk.columns),
            *place,
        )?;
    }
    Ok(shown)
}

// Adds what stands of a match in a stretch of a text in reverse, behind what stands there before it, and answers where
// it ends; of another match nothing is added.
fn push_match<T: PushText>(
    out: &mut T,
    text: &str,
    at: usize,
    end: usize,
    place: (usize, usize),
) -> Result<usize, AllocError>
    requires order { at ≤ end }
    requires bytes { (n : ℕ) → n ≤ end → IsCharBoundary text.now n }
    ensures text { IfOk result (λ next. AddsMatch (T.bytes out.old) (T.bytes out.new) text.now at next end place) }
    ensures order { IfOk result (λ next. next ≤ end) }
{
    let start = place.0.max(at);
    let stop = place.1.min(end);
    if stop <= start {
        return Ok(at);
    }
    out.push_text(&text[at..start])?;
    out.push_text(REVERSE_ON)?;
    out.push_text(&text[start..stop])?;
    out.push_text(REVERSE_OFF)?;
    Ok(stop)
}

// The matches that may stand in a stretch: those that neither end before it nor begin behind it. They are searched by
// halves.
fn near(matches: &[(usize, usize)], at: usize, end: usize) -> &[(usize, usize)]
    ensures { (text : List ℕ) → CutsText text 0 matches.now →
        marked_stretch text at end result.now ≡ marked_stretch text at end matches.now }
{
    let first = matches.partition_point(|place| place.1 <= at);
    let rest = &matches[first..];
    let count = rest.partition_point(|place| place.0 < end);
    &rest[..count]
}

// Adds the columns of a text that are shown, where they are its bytes, with what of its matches stands there in
// reverse.
pub(crate) fn push_plain<T: PushText>(
    out: &mut T,
    text: &str,
    window: Window,
    matches: &[(usize, usize)],
) -> Result<(), AllocError>
    requires plain { IsPlainTo (window.left + window.width) text.now }
    requires cuts { CutsText text.now 0 matches.now }
    ensures { OnOk result (T.bytes out.new ≡ T.bytes out.old
        ++ cropped window.left window.width (reversed_in window.left window.width text.now matches.now [])) }
{
    let end = window.left.saturating_add(window.width).min(text.len());
    let mut at = window.left.min(end);
    let standing = near(matches, at, end);
    for place in standing {
        at = push_match(out, text, at, end, *place)?;
    }
    out.push_text(&text[at..end])?;
    Ok(())
}
