//! How the matches of a line are parted among its rows: walks over places, and the rows of a line without its escape
//! sequences.
ghost use Rattle.std.specs.Prelude.{◌≡◌, ◌+◌, ◌≤◌, ◌<◌, map, length, get_or, IfOk};
ghost use Rattle.minus_text.specs.LineFinds.{outside_before, between, is_before, lies_in, begins_in, part_in, parts_in, first_start, begin_count, stretch_in};
ghost use Rattle.minus_text.specs.LineSplits.{Ordered, RowsOrdered, IsWalk, ended_count, in_line, stretch_of, rows_end};

use crate::rows::Span;
use std::alloc::{AllocError, Global};

// How far a walk over places has come: this many are passed, the last of which ends at a place, and this many bytes
// outside of them stand before that.
#[derive(Clone, Copy)]
pub(crate) struct Walk {
    pub(crate) passed: usize,
    pub(crate) at: usize,
    pub(crate) outside: usize,
}

// A row in its line without the line's escape sequences: where it begins and ends, and where the next row begins, if
// one follows.
#[derive(Clone, Copy)]
pub(crate) struct RowStretch {
    pub(crate) start: usize,
    pub(crate) end: usize,
    pub(crate) next: Option<usize>,
}

impl Walk {
    // Nothing is passed.
    pub(crate) const START: Walk = Walk {
        passed: 0,
        at: 0,
        outside: 0,
    };

    // Passes all places that end at one or before it.
    pub(crate) fn go_to(self, places: &[(usize, usize)], x: usize) -> Walk
        requires walk { IsWalk places.now self }
        requires on { self.at ≤ x }
        ensures walk { IsWalk places.now result }
        ensures on { result.at ≤ x }
        ensures far { result.passed < length places.now → x < (get_or places.now result.passed (0, 0)).1 }
    {
        let mut walk = self;
        while walk.passed < places.len() && places[walk.passed].1 <= x {
            let place = places[walk.passed];
            walk = Walk {
                passed: walk.passed + 1,
                at: place.1,
                outside: walk.outside + (place.0 - walk.at),
            };
        }
        walk
    }

    // How many bytes outside of the places stand before one.
    fn outside_before(self, places: &[(usize, usize)], x: usize) -> usize
        requires walk { IsWalk places.now self }
        requires on { self.at ≤ x }
        requires far { self.passed < length places.now → x < (get_or places.now self.passed (0, 0)).1 }
        ensures { result ≡ outside_before 0 places.now x }
    {
        if self.passed >= places.len() {
            return self.outside + (x - self.at);
        }
        let end = places[self.passed].0.min(x);
        self.outside + (end - self.at)
    }
}

// Whether a place lies before another, if there is one.
fn is_before(next: Option<usize>, x: usize) -> bool
    ensures { result ≡ is_before next x }
{
    match next {
        Some(n) => x < n,
        None => true,
    }
}

impl RowStretch {
    // Whether a match begins in the row.
    fn begins_in(self, m: (usize, usize)) -> bool
        ensures { result ≡ begins_in (stretch_of self) m }
    {
        self.start <= m.0 && is_before(self.next, m.0)
    }

    // Whether the row shows some of it.
    fn lies_in(self, m: (usize, usize)) -> bool
        ensures { result ≡ lies_in (stretch_of self) m }
    {
        is_before(self.next, m.0) && (self.start <= m.0 || self.start < m.1)
    }

    // What the row shows of it, counted from the row's start.
    fn part_in(self, m: (usize, usize)) -> (usize, usize)
        ensures { result ≡ part_in (stretch_of self) m }
    {
        (
            m.0.min(self.end).saturating_sub(self.start),
            m.1.min(self.end).saturating_sub(self.start),
        )
    }

    // What the row shows of matches.
    pub(crate) fn parts_in(
        self,
        alloc: Global,
        matches: &[(usize, usize)],
    ) -> Result<Vec<(usize, usize)>, AllocError>
        requires { Ordered 0 matches.now }
        ensures { IfOk result (λ parts. parts.items ≡ parts_in (stretch_of self) matches.now) }
    {
        let mut parts = Vec::new(alloc);
        for m in matches {
            if !is_before(self.next, m.0) {
                return Ok(parts);
            }
            if self.lies_in(*m) {
                parts.push(self.part_in(*m))?;
            }
        }
        Ok(parts)
    }

    // How many matches begin in the row.
    pub(crate) fn begin_count(self, matches: &[(usize, usize)]) -> usize
        requires { Ordered 0 matches.now }
        ensures value { result ≡ begin_count (stretch_of self) matches.now }
        ensures few { result ≤ length matches.now }
    {
        let mut count = 0;
        for m in matches {
            if !is_before(self.next, m.0) {
                return count;
            }
            if self.begins_in(*m) {
                count += 1;
            }
        }
        count
    }
}

// The parts of places that lie between two others, counted from the first of the two.
pub(crate) fn between(
    alloc: Global,
    places: &[(usize, usize)],
    start: usize,
    end: usize,
) -> Result<Vec<(usize, usize)>, AllocError>
    requires { Ordered 0 places.now }
    ensures { IfOk result (λ parts. parts.items ≡ between start end places.now) }
{
    let mut parts = Vec::new(alloc);
    for place in places {
        if place.0 >= end {
            return Ok(parts);
        }
        if start < place.1 {
            parts.push((
                place.0.max(start) - start,
                place.1.min(end).saturating_sub(start),
            ))?;
        }
    }
    Ok(parts)
}

// How many matches at the front begin before a place and end at it or before it.
pub(crate) fn ended_count(matches: &[(usize, usize)], x: usize) -> usize
    ensures count { result ≡ ended_count x matches.now }
    ensures within { result ≤ length matches.now }
{
    matches
        .iter()
        .position(|m| m.0 >= x || m.1 > x)
        .unwrap_or(matches.len())
}

// A row of a text, as a row of the line that begins at a place of it.
pub(crate) fn place_in_line(row: Span, base: usize) -> Span
    requires start { base ≤ row.start }
    requires end { base ≤ row.end }
    ensures { result ≡ in_line base row }
{
    Span {
        start: row.start - base,
        end: row.end - base,
    }
}

// Where the first of these rows begins in the line without its escape sequences, if there is one.
fn first_start(walk: Walk, escapes: &[(usize, usize)], base: usize, rows: &[Span]) -> Option<usize>
    requires walk { IsWalk escapes.now walk }
    requires rows { RowsOrdered (base + walk.at) rows.now }
    ensures { result ≡ first_start escapes.now (map (in_line base) rows.now) }
{
    if rows.is_empty() {
        return None;
    }
    let x = rows[0].start - base;
    Some(walk.go_to(escapes, x).outside_before(escapes, x))
}

// A row in its line without the line's escape sequences, where others follow it.
pub(crate) fn stretch_at(
    walk: Walk,
    escapes: &[(usize, usize)],
    place: Span,
    base: usize,
    rest: &[Span],
) -> RowStretch
    requires walk { IsWalk escapes.now walk }
    requires on { walk.at ≤ place.start }
    requires far { walk.passed < length escapes.now → place.start < (get_or escapes.now walk.passed (0, 0)).1 }
    requires order { place.start ≤ place.end }
    requires rows { RowsOrdered (base + place.end) rest.now }
    ensures { stretch_of result ≡ stretch_in escapes.now place (map (in_line base) rest.now) }
{
    let end = walk.go_to(escapes, place.end);
    RowStretch {
        start: walk.outside_before(escapes, place.start),
        end: end.outside_before(escapes, place.end),
        next: first_start(end, escapes, base, rest),
    }
}

// Where the rows of a line end: where those of the next line begin, or with all of them.
pub(crate) fn rows_end(firsts: &[usize], next: usize, first: usize, count: usize) -> usize
    ensures { result ≡ rows_end firsts.now next first count }
{
    if next < firsts.len() {
        return firsts[next].saturating_sub(first);
    }
    count
}
