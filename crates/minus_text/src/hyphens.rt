//! Hyphenation: where a word may be cut at a hyphen, which is behind one between ASCII letters or digits.
ghost use Rattle.std.specs.Prelude.{◌≡◌, ◌<◌, length, chars, ◌&&◌, ◌==◌, IfSome, MatchOption};
ghost use Rattle.std.specs.List.{list_all};
ghost use Rattle.minus_text.specs.Hyphens.{is_unhyphened, begins_alphanumeric, IsOnePart, WordsAreCutAtJoints};
ghost use Rattle.minus_text.specs.MeasuredPieces.{SplitsPart};

use crate::units::{front, split_char};

// Whether a text has no hyphen: a byte that is 45 is one wherever it stands.
pub(crate) fn is_unhyphened(text: &str) -> bool
    ensures { result ≡ list_all is_unhyphened text.now }
{
    let mut unhyphened = true;
    for &b in text.as_bytes() {
        unhyphened &= b != b'-';
    }
    unhyphened
}

// Whether an ASCII letter or digit comes first.
fn begins_alphanumeric(text: &str) -> bool
    ensures { result ≡ begins_alphanumeric (chars text.now) }
{
    match split_char(text) {
        Some((c, _)) => c.is_ascii_alphanumeric(),
        None => false,
    }
}

// Whether a character is a hyphen between ASCII letters or digits.
fn is_joint(before: bool, c: char, after: &str) -> bool
    ensures { result ≡ (before && ((c == 45) && begins_alphanumeric (chars after.now))) }
{
    before && c == '-' && begins_alphanumeric(after)
}

// The first part of a word's body, and the rest, where it is cut.
pub(crate) fn split_part(body: &str) -> Option<(&str, &str)>
    ensures part { MatchOption result (IsOnePart (chars body.now))
        (λ x. SplitsPart (chars body.now) (chars x.0.now) (chars x.1.now)) }
    ensures less { IfSome result (λ x. length x.1.now < length body.now) }
{
    let mut before = false;
    let mut rest = body;
    while let Some((c, more)) = split_char(rest) {
        if is_joint(before, c, more) {
            return Some((front(body, more), more));
        }
        before = c.is_ascii_alphanumeric();
        rest = more;
    }
    None
}

/// Each cut of a word stands after a hyphen between ASCII letters or digits, and no such hyphen is left inside a part.
pub fn words_are_cut_at_joints()
    ensures { WordsAreCutAtJoints }
{}
