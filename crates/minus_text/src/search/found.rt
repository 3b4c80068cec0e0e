//! What a term finds in rows.
ghost use Rattle.std.specs.Prelude.{◌≡◌, Some, length, IfOk, OnOk};
ghost use Rattle.std.specs.Option.{ForSome};
ghost use Rattle.regex.specs.Strings.{regex_pattern, matcher_pattern};
ghost use Rattle.minus_text.specs.Escapes.{escape_places, outside, CutsText};
ghost use Rattle.minus_text.specs.FixedPatterns.{escape_sequence, match_places, MatchesAs};
ghost use Rattle.minus_text.specs.Highlight.{line_match_places, line_matches, matches_text};

use crate::search::escapes::{has_escape_start, match_places, part};
use crate::search::patterns::Patterns;
use crate::search::term::Term;
use regex::Matcher;
use std::alloc::{AllocError, Global};

// A row, the places of its escape sequences, those of matches in the row without these, and how many matches begin in
// it.
#[derive(Debug, Drop)]
pub(crate) struct FoundRow {
    pub(crate) row: usize,
    pub(crate) escapes: Vec<(usize, usize)>,
    pub(crate) matches: Vec<(usize, usize)>,
    pub(crate) begins: usize,
}

// What searches rows for a term: made once for all of them. Its escape matcher waits for a row that may need it.
pub(crate) struct Finder<'p> {
    patterns: &'p Patterns,
    escapes: Option<Matcher<'p>>,
    pub(crate) term: Matcher<'p>,
    ghost escape_matches: { ForSome escapes (λ m. MatchesAs (matcher_pattern m) escape_sequence) },
}

// Hand-written: a derived drop would stand again in the proof of each function that lets one go.
impl Drop for Finder<'_> {
    fn drop(self) {
        let Finder {
            patterns: _,
            escapes: _,
            term: _,
        } = self;
    }
}

// Where a matcher's pattern matches in what is outside of these places of a row. It stands in each of its callers,
// since a call costs as much as a search in a short row.
#[inline(always)]
pub(crate) fn outside_matches(
    alloc: Global,
    matcher: &mut Matcher<'_>,
    row: &str,
    places: &[(usize, usize)],
) -> Result<Vec<(usize, usize)>, AllocError>
    requires { CutsText row.now 0 places.now }
    ensures found { IfOk result (λ found. found.items
        ≡ match_places (matcher_pattern matcher.old) (outside row.now 0 places.now)) }
    ensures cuts { IfOk result (λ found. CutsText (outside row.now 0 places.now) 0 found.items) }
    ensures same { matcher_pattern matcher.new ≡ matcher_pattern matcher.old }
{
    if places.is_empty() {
        return match_places(alloc, matcher, row);
    }
    let parted = part(alloc, row, places)?;
    let found = match_places(alloc, matcher, &parted.text)?;
    Ok(found)
}

// Whether a matcher's pattern matches in what is outside of these places of a row.
fn matches_outside(
    alloc: Global,
    matcher: &mut Matcher<'_>,
    row: &str,
    places: &[(usize, usize)],
) -> Result<bool, AllocError>
    requires { CutsText row.now 0 places.now }
    ensures value { IfOk result (λ b. b
        ≡ matches_text (matcher_pattern matcher.old) (outside row.now 0 places.now)) }
    ensures same { matcher_pattern matcher.new ≡ matcher_pattern matcher.old }
{
    if places.is_empty() {
        return Ok(matcher.is_match(row));
    }
    let parted = part(alloc, row, places)?;
    Ok(matcher.is_match(&parted.text))
}

impl<'p> Finder<'p> {
    ghost use Rattle.minus_text.specs.FoundRows.{finder_pattern, matches_of, AddsFound, StaysPlaced};
    ghost use Rattle.minus_text.specs.Found.{found_in_row, IsPlaced};

    pub(crate) fn new(alloc: Global, term: Term<'p>) -> Result<Self, AllocError>
        ensures { IfOk result (λ f. finder_pattern f ≡ regex_pattern term.entry.pattern.now) }
    {
        Ok(Finder {
            patterns: term.patterns,
            escapes: None,
            term: term.pattern.matcher(alloc)?,
        })
    }

    // Where the escape sequences of a row begin and end that may have some. A matcher is dear, so the first such row
    // makes it; and the room for one is cleared whenever this is called, so it stands apart.
    #[inline(never)]
    fn searched_places(
        &mut self,
        alloc: Global,
        row: &str,
    ) -> Result<Vec<(usize, usize)>, AllocError>
        ensures found { IfOk result (λ places. places.items ≡ escape_places row.now) }
        ensures cuts { IfOk result (λ places. CutsText row.now 0 places.items) }
        ensures same { finder_pattern self.new ≡ finder_pattern self.old }
    {
        if let Some(matcher) = &mut self.escapes {
            return match_places(alloc, matcher, row);
        }
        let mut matcher = self.patterns.escape.matcher(alloc)?;
        let places = match_places(alloc, &mut matcher, row)?;
        self.escapes = Some(matcher);
        Ok(places)
    }

    // Where a row's escape sequences begin and end.
    pub(crate) fn escape_places(
        &mut self,
        alloc: Global,
        row: &str,
    ) -> Result<Vec<(usize, usize)>, AllocError>
        ensures found { IfOk result (λ places. places.items ≡ escape_places row.now) }
        ensures cuts { IfOk result (λ places. CutsText row.now 0 places.items) }
        ensures same { finder_pattern self.new ≡ finder_pattern self.old }
    {
        if !has_escape_start(row) {
            return Ok(Vec::new(alloc));
        }
        self.searched_places(alloc, row)
    }

    // What it finds in a row with a number.
    fn find(&mut self, alloc: Global, n: usize, row: &str) -> Result<FoundRow, AllocError>
        ensures row { IfOk result (λ f. f.row ≡ n) }
        ensures escapes { IfOk result (λ f. f.escapes.items ≡ escape_places row.now) }
        ensures matches { IfOk result (λ f. f.matches.items ≡ line_match_places (finder_pattern self.old) row.now) }
        ensures begins { IfOk result (λ f. f.begins ≡ length (line_match_places (finder_pattern self.old) row.now)) }
        ensures placed { IfOk result (λ f. IsPlaced row.now (matches_of f)) }
        ensures same { finder_pattern self.new ≡ finder_pattern self.old }
    {
        let escapes = self.escape_places(alloc, row)?;
        let matches = outside_matches(alloc, &mut self.term, row, &escapes)?;
        let begins = matches.len();
        Ok(FoundRow {
            row: n,
            escapes,
            matches,
            begins,
        })
    }

    // Adds a row with a number if it matches.
    pub(crate) fn note(
        &mut self,
        alloc: Global,
        found: &mut Vec<FoundRow>,
        n: usize,
        row: &str,
    ) -> Result<(), AllocError>
        ensures found { OnOk result (AddsFound found.old.items found.new.items
            (found_in_row (finder_pattern self.old) n row.now)) }
        ensures placed { OnOk result (StaysPlaced n (Some row.now) found.old.items found.new.items) }
        ensures same { finder_pattern self.new ≡ finder_pattern self.old }
    {
        let here = self.find(alloc, n, row)?;
        if here.matches.is_empty() {
            return Ok(());
        }
        found.push(here)?;
        Ok(())
    }

    // Whether a row matches: its search ends at the first match.
    pub(crate) fn matches(&mut self, alloc: Global, row: &str) -> Result<bool, AllocError>
        ensures value { IfOk result (λ b. b ≡ line_matches (finder_pattern self.old) row.now) }
        ensures same { finder_pattern self.new ≡ finder_pattern self.old }
    {
        let escapes = self.escape_places(alloc, row)?;
        matches_outside(alloc, &mut self.term, row, &escapes)
    }
}
