//! Lines with the matches of a pattern shown in reverse.
ghost use Rattle.std.specs.Prelude.{◌≡◌, [], false, ◌++◌, ◌≤◌, map, length, drop, IfOk, OnOk, string_bytes};
ghost use Rattle.minus_text.specs.Escapes.{insert_of, outside, inside, CutsText};
ghost use Rattle.minus_text.specs.Highlight.{count_before, before, behind, moved, closed, of_match, ordered, put_in, highlighted, line_matches, matches_text, StandIn, InsertsStand, InsertsStand-prop, HighlightsAddMarkersAlone, OnlyMatchesAreHighlighted};
ghost use Rattle.regex.specs.Strings.{regex_pattern, matcher_pattern};

use crate::crop::Window;
use crate::push_text::PushText;
use crate::search::escapes::{Insert, Parted, match_places, part, part_line};
use crate::search::patterns::Patterns;
use crate::search::shown_matches::shown_matches;
use regex::{Matcher, Regex};
use std::alloc::{AllocError, Global};
use std::fmt;

pub(crate) const REVERSE_ON: &str = "\x1b[7m";

pub(crate) const REVERSE_OFF: &str = "\x1b[27m";

// How many of the escape sequences stand before a place.
fn count_before(escapes: &[Insert<'_>], place: usize) -> usize
    ensures count { result ≡ count_before place (map insert_of escapes.now) }
    ensures within { result ≤ length escapes.now }
{
    escapes
        .iter()
        .position(|escape| escape.place >= place)
        .unwrap_or(escapes.len())
}

// Puts these escape sequences in at one place.
fn put_moved<'l>(
    puts: &mut Vec<Insert<'l>>,
    escapes: &[Insert<'l>],
    place: usize,
) -> Result<(), AllocError>
    ensures { OnOk result (map insert_of puts.new.items ≡ map insert_of puts.old.items
        ++ moved place (map insert_of escapes.now)) }
{
    for escape in escapes {
        puts.push(Insert {
            place,
            text: escape.text,
        })?;
    }
    Ok(())
}

// Puts in the escape sequences inside a match and its last marker.
fn put_end<'l>(
    puts: &mut Vec<Insert<'l>>,
    inner: &[Insert<'l>],
    accurate: bool,
    end: usize,
) -> Result<(), AllocError>
    ensures { OnOk result (map insert_of puts.new.items ≡ map insert_of puts.old.items
        ++ closed accurate end (map insert_of inner.now)) }
{
    let off = Insert {
        place: end,
        text: REVERSE_OFF,
    };
    if accurate {
        puts.extend_from_slice(inner)?;
        puts.push(off)?;
        return Ok(());
    }
    puts.push(off)?;
    put_moved(puts, inner, end)
}

// Puts in a match's markers and the escape sequences up to its end, and tells how many these are.
fn put_match<'l>(
    puts: &mut Vec<Insert<'l>>,
    escapes: &[Insert<'l>],
    accurate: bool,
    place: (usize, usize),
) -> Result<usize, AllocError>
    ensures puts { OnOk result (map insert_of puts.new.items ≡ map insert_of puts.old.items
        ++ of_match accurate place (map insert_of escapes.now)) }
    ensures within { IfOk result (λ count. count ≤ length escapes.now) }
    ensures rest { IfOk result (λ count. drop count (map insert_of escapes.now)
        ≡ behind place.1 (behind place.0 (map insert_of escapes.now))) }
{
    let (outer, rest) = escapes.split_at(count_before(escapes, place.0));
    let count = count_before(rest, place.1);
    puts.extend_from_slice(outer)?;
    puts.push(Insert {
        place: place.0,
        text: REVERSE_ON,
    })?;
    put_end(puts, &rest[..count], accurate, place.1)?;
    Ok(outer.len() + count)
}

// Markers and escape sequences, in the order in which they are put in.
fn ordered<'l>(
    alloc: Global,
    matches: &[(usize, usize)],
    escapes: &[Insert<'l>],
    accurate: bool,
) -> Result<Vec<Insert<'l>>, AllocError>
    ensures { IfOk result (λ puts. map insert_of puts.items
        ≡ ordered accurate matches.now (map insert_of escapes.now)) }
{
    let mut puts = Vec::new(alloc);
    let mut done = 0;
    for place in matches {
        done += put_match(&mut puts, &escapes[done..], accurate, *place)?;
    }
    puts.extend_from_slice(&escapes[done..])?;
    Ok(puts)
}

// Adds a text with what stands between these places in reverse, to a row. An `Err` only means out of memory; it may
// leave some of it behind.
pub(crate) fn push_marked<T: PushText>(
    out: &mut T,
    text: &str,
    matches: &[(usize, usize)],
) -> Result<(), AllocError>
    requires { CutsText text.now 0 matches.now }
    ensures { OnOk result (T.bytes out.new
        ≡ T.bytes out.old ++ put_in text.now 0 (ordered false matches.now [])) }
{
    let mut at = 0;
    for place in matches {
        out.push_text(&text[at..place.0])?;
        out.push_text(REVERSE_ON)?;
        out.push_text(&text[place.0..place.1])?;
        out.push_text(REVERSE_OFF)?;
        at = place.1;
    }
    out.push_text(&text[at..])?;
    Ok(())
}

/// A line with the matches of a pattern in it. It prints with each of them shown in reverse.
pub struct HighlightMatchesArgs<'l> {
    // The line without its escape sequences, and what stands in it beside.
    text: String,
    puts: Vec<Insert<'l>>,
    is_match: bool,
    ghost stand: { InsertsStand (string_bytes text) puts.items } by { InsertsStand-prop (string_bytes text) puts.items },
}

// Hand-written: a derived drop would stand again in the proof of each function that lets one go.
impl Drop for HighlightMatchesArgs<'_> {
    fn drop(self) {
        let HighlightMatchesArgs {
            text: _,
            puts: _,
            is_match: _,
        } = self;
    }
}

impl<'l> HighlightMatchesArgs<'l> {
    ghost use Rattle.minus_text.specs.Shown.{shown_line, highlighted_parted};
    ghost use Rattle.minus_text.specs.ShownMatches.{reversed_at};

    /// Finds the matches of a pattern in a line, which are those of the line without its escape
    /// sequences. These stay where they stand if the highlight is to be accurate; else those inside
    /// a match come right behind it. Fails only if memory runs out.
    pub fn new(
        alloc: Global,
        patterns: &Patterns,
        line: &'l str,
        query: &Regex,
        accurate: bool,
    ) -> Result<Self, AllocError>
        ensures line { IfOk result (λ h. shown_line h ≡ highlighted (regex_pattern query.now) accurate line.now) }
        ensures matches { IfOk result (λ h. h.is_match ≡ line_matches (regex_pattern query.now) line.now) }
    {
        let parted = part_line(alloc, patterns, line)?;
        let mut matcher = query.matcher(alloc)?;
        let highlight = HighlightMatchesArgs::of_parted(alloc, &mut matcher, parted, accurate)?;
        Ok(highlight)
    }

    // The matches of a line that is already parted, by what finds them.
    pub(crate) fn of_parted(
        alloc: Global,
        matcher: &mut Matcher<'_>,
        parted: Parted<'l>,
        accurate: bool,
    ) -> Result<Self, AllocError>
        requires { StandIn (string_bytes parted.text) 0 (map insert_of parted.escapes.items) }
        ensures line { IfOk result (λ h. shown_line h
            ≡ highlighted_parted (matcher_pattern matcher.old) accurate parted.entry) }
        ensures matches { IfOk result (λ h. h.is_match
            ≡ matches_text (matcher_pattern matcher.old) (string_bytes parted.entry.text)) }
        ensures same { matcher_pattern matcher.new ≡ matcher_pattern matcher.old }
    {
        let Parted { text, escapes } = parted;
        let matches = match_places(alloc, matcher, &text)?;
        let puts = ordered(alloc, &matches, &escapes, accurate)?;
        Ok(HighlightMatchesArgs {
            text,
            puts,
            is_match: !matches.is_empty(),
        })
    }

    // A row in which matches and escape sequences were found at these places, not accurately.
    pub(crate) fn of_places(
        alloc: Global,
        row: &'l str,
        escape_places: &[(usize, usize)],
        matches: &[(usize, usize)],
    ) -> Result<Self, AllocError>
        requires escapes { CutsText row.now 0 escape_places.now }
        requires matches { CutsText (outside row.now 0 escape_places.now) 0 matches.now }
        ensures { IfOk result (λ h. shown_line h
            ≡ put_in (outside row.now 0 escape_places.now) 0
            (ordered false matches.now (inside row.now 0 0 escape_places.now))) }
    {
        let Parted { text, escapes } = part(alloc, row, escape_places)?;
        let puts = ordered(alloc, matches, &escapes, false)?;
        Ok(HighlightMatchesArgs {
            text,
            puts,
            is_match: true,
        })
    }

    // A row in which matches and escape sequences were found at these places, of which the matches are put in that are
    // shown in some columns, not accurately.
    pub(crate) fn of_shown(
        alloc: Global,
        row: &'l str,
        escape_places: &[(usize, usize)],
        matches: &[(usize, usize)],
        window: Window,
    ) -> Result<Self, AllocError>
        requires escapes { CutsText row.now 0 escape_places.now }
        requires matches { CutsText (outside row.now 0 escape_places.now) 0 matches.now }
        ensures { IfOk result (λ h. shown_line h
            ≡ reversed_at window.left window.width row.now escape_places.now matches.now) }
    {
        let Parted { text, escapes } = part(alloc, row, escape_places)?;
        let shown = shown_matches(alloc, &text, window, matches)?;
        let puts = ordered(alloc, &shown, &escapes, false)?;
        Ok(HighlightMatchesArgs {
            text,
            puts,
            is_match: true,
        })
    }

    /// Whether the pattern matches.
    pub fn is_match(&self) -> bool
        ensures { result ≡ self.now.is_match }
    {
        self.is_match
    }
}

impl fmt::Display for HighlightMatchesArgs<'_> {
    ghost use Rattle.std.specs.Prelude.{Some};
    ghost use Rattle.minus_text.specs.Shown.{shown_line};

    ghost output = { λ h. Some (shown_line h) };

    fn fmt<W: fmt::Write>(&self, f: &mut fmt::Formatter<W>) -> fmt::Result {
        let text = self.text.as_str();
        let mut at = 0;
        for put in &self.puts {
            f.write_str(&text[at..put.place])?;
            f.write_str(put.text)?;
            at = put.place;
        }
        f.write_str(&text[at..])
    }
}

/// A line with each match of a pattern shown in reverse, and whether it matches. Matches are those
/// of the line without its escape sequences. These stay where they stand if the highlight is to be
/// accurate; else those inside a match come right behind it. Fails only if memory runs out.
pub fn highlight_line_matches(
    alloc: Global,
    patterns: &Patterns,
    line: &str,
    query: &Regex,
    accurate: bool,
) -> Result<(String, bool), AllocError>
    ensures line { IfOk result (λ r. string_bytes r.0 ≡ highlighted (regex_pattern query.now) accurate line.now) }
    ensures matches { IfOk result (λ r. r.1 ≡ line_matches (regex_pattern query.now) line.now) }
{
    let highlight = HighlightMatchesArgs::new(alloc, patterns, line, query, accurate)?;
    Ok((highlight.to_string(alloc)?, highlight.is_match))
}

/// A highlight adds markers alone: without them the escape sequences stand in their order, and in
/// the accurate form the line stands as it was.
pub fn highlights_add_markers_alone()
    ensures { HighlightsAddMarkersAlone }
{}

/// A line that does not match is highlighted as it stands.
pub fn only_matches_are_highlighted()
    ensures { OnlyMatchesAreHighlighted }
{}
