//! The tabs of a text that is shown with spaces for them: the marks that report them are taken out of it before it is
//! shown, and the tabs come back where some of it is copied.
ghost use Rattle.std.specs.Prelude.{◌≡◌, option_map, string_bytes, IfOk, MatchOption, None, ◌<◌, ◌++◌, false};
ghost use Rattle.minus_view.specs.Prepared.{MarksAreTakenOut, TabsComeBack};
ghost use Rattle.minus_view.specs.TabMarks.{IsCutAt, begun_tab, ended_tab, has_tab, past, past_mark, tab_places, unmarked, with_tabs};

use crate::key_sequences::run_len;
use std::alloc::{AllocError, Global};

/// A tab that is shown as spaces: these are the bytes of the text from the first of two places on up to the other.
#[derive(Clone, Copy, PartialEq, Eq)]
pub struct Tab {
    /// Where the first space stands, in bytes.
    pub start: usize,
    /// Where the spaces end.
    pub end: usize,
}

/// A text without the marks of its tabs.
#[derive(Drop)]
pub struct Unmarked {
    /// The text.
    pub text: String,
    /// Its tabs, in their order.
    pub tabs: Vec<Tab>,
}

// What follows a character at the front.
fn past(c: char, text: &str) -> Option<&str>
    requires { c < 128 }
    ensures { option_map (λ s. s.now) result ≡ past c text.now }
{
    text.strip_prefix(c)
}

// What follows a mark behind its `ESC`.
fn past_mark(text: &str) -> Option<&str>
    ensures { option_map (λ s. s.now) result ≡ past_mark text.now }
{
    let numbers = past('[', text)?;
    past('m', past(':', numbers).unwrap_or(numbers))
}

// Ends a tab at a mark, where one has begun, or begins one there.
fn turn_at(
    tabs: &mut Vec<Tab>,
    begun: Option<usize>,
    place: usize,
) -> Result<Option<usize>, AllocError>
    ensures begun { IfOk result (λ next. next ≡ begun_tab begun place) }
    ensures tabs { IfOk result (λ _. tabs.new.items ≡ tabs.old.items ++ ended_tab begun place) }
{
    match begun {
        Some(start) => {
            tabs.push(Tab { start, end: place })?;
            Ok(None)
        }
        None => Ok(Some(place)),
    }
}

/// Takes the marks out of a text that a [`crate::Preparation`] with `marks_tabs` has made, and tells where its tabs
/// stand.
///
/// # Errors
///
/// [`AllocError`] where there is no memory.
pub fn take_marks(alloc: Global, text: &str) -> Result<Unmarked, AllocError>
    ensures text { IfOk result (λ u. string_bytes u.text ≡ unmarked text.now) }
    ensures tabs { IfOk result (λ u. u.tabs.items ≡ tab_places 0 None text.now) }
{
    let mut plain = String::new(alloc);
    let mut tabs = Vec::new(alloc);
    let mut begun = None;
    let mut rest = text;
    while let Some((front, behind)) = rest.split_once('\u{1B}') {
        plain.push_str(front)?;
        match past_mark(behind) {
            Some(more) => {
                begun = turn_at(&mut tabs, begun, plain.len())?;
                rest = more;
            }
            None => {
                plain.push('\u{1B}')?;
                rest = behind;
            }
        }
    }
    plain.push_str(rest)?;
    Ok(Unmarked { text: plain, tabs })
}

// What stands before and behind the spaces of a tab in a text that begins at a place, where it has them.
fn cut_at_tab(place: usize, text: &str, tab: Tab) -> Option<(&str, &str)>
    ensures { MatchOption result (has_tab place text.now tab ≡ false)
        (λ cut. IsCutAt place text.now tab cut.0.now cut.1.now) }
{
    if tab.start < place || tab.end <= tab.start {
        return None;
    }
    let (start, end) = (tab.start - place, tab.end - place);
    let bytes = text.as_bytes();
    if bytes.len() <= start || run_len(b' ', b' ', &bytes[start..]) < end - start {
        return None;
    }
    Some((&text[..start], &text[end..]))
}

/// A text that begins at a place of the whole one, with tabs of that in the place of their spaces. Those that it does
/// not have whole stay as they are.
///
/// # Errors
///
/// [`AllocError`] where there is no memory.
pub fn with_tabs(
    alloc: Global,
    place: usize,
    text: &str,
    tabs: &[Tab],
) -> Result<String, AllocError>
    ensures { IfOk result (λ t. string_bytes t ≡ with_tabs place text.now tabs.now) }
{
    let mut out = String::new(alloc);
    let mut rest = text;
    let mut at = place;
    for tab in tabs {
        if let Some((front, behind)) = cut_at_tab(at, rest, *tab) {
            out.push_str(front)?;
            out.push('\t')?;
            rest = behind;
            at = tab.end;
        }
    }
    out.push_str(rest)?;
    Ok(out)
}

/// A law: without its marks a text is what it is where tabs are not marked.
pub fn marks_are_taken_out()
    ensures { MarksAreTakenOut }
{}

/// A law: with its tabs again it is as it was read.
pub fn tabs_come_back()
    ensures { TabsComeBack }
{}
