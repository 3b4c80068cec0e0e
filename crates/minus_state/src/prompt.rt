//! The prompt row.
ghost use Rattle.std.specs.Prelude.{◌≡◌, true, string_bytes, IfOk};
ghost use Rattle.minus_state.specs.PromptRow.{seen_prompt, said, said_style, prefix_indicator, match_indicator, follow_indicator, prompt_row, FillsItsRow, PromptFillsItsRow};

use minus_text::{columns, fit_columns};
use std::alloc::{AllocError, Global};
use std::fmt;

const MESSAGE_STYLE: &str = "\x1b[30;1;41m";

const PROMPT_STYLE: &str = "\x1b[2;40;37m";

const PREFIX_STYLE: &str = "\x1b[30;43m";

const MATCH_STYLE: &str = "\x1b[30;44m";

const FOLLOW_STYLE: &str = "\x1b[1m";

const STYLE_END: &str = "\x1b[0m";

/// What the prompt row is formed of.
#[derive(Clone, Copy)]
pub struct PromptRow<'p> {
    /// A hidden prompt has an empty row.
    pub is_shown: bool,
    /// What the row says where there is no message.
    pub prompt: &'p str,
    /// Stands in the prompt's place.
    pub message: Option<&'p str>,
    /// The prefix that was typed; empty where there is none.
    pub prefix: &'p str,
    /// The place of the match that is shown, counted from 0 among the rows that match, or among all matches where a
    /// term is searched for in lines.
    pub search_mark: usize,
    /// How many rows match, or how many matches there are.
    pub match_count: usize,
    /// Whether the pager follows its text.
    pub follow: bool,
    /// The row's columns.
    pub cols: usize,
}

// What the row says, and in which style.
fn said<'p>(row: &PromptRow<'p>) -> (&'static str, &'p str)
    ensures style { result.0.now ≡ said_style (seen_prompt row.now) }
    ensures text { result.1.now ≡ said (seen_prompt row.now) }
{
    match row.message {
        Some(message) => (MESSAGE_STYLE, message),
        None => (PROMPT_STYLE, row.prompt),
    }
}

// The prefix that was typed, between spaces.
fn prefix_indicator(alloc: Global, row: &PromptRow<'_>) -> Result<String, AllocError>
    ensures { IfOk result (λ text. string_bytes text ≡ prefix_indicator (seen_prompt row.now)) }
{
    if row.prefix.is_empty() {
        return Ok(String::new(alloc));
    }
    let prefix = row.prefix;
    format!(in alloc; " {prefix} ")
}

// Which match is shown, and of how many.
fn match_indicator(alloc: Global, row: &PromptRow<'_>) -> Result<String, AllocError>
    ensures { IfOk result (λ text. string_bytes text ≡ match_indicator (seen_prompt row.now)) }
{
    if row.match_count == 0 {
        return Ok(String::new(alloc));
    }
    let shown = row.search_mark.saturating_add(1);
    let count = row.match_count;
    format!(in alloc; " {shown}/{count} ")
}

// That the pager follows its text.
fn follow_indicator(row: &PromptRow<'_>) -> &'static str
    ensures { result.now ≡ follow_indicator (seen_prompt row.now) }
{
    if row.follow { "[F]" } else { "" }
}

// An indicator in its style. It prints nothing where it is empty.
#[derive(Clone, Copy)]
struct Styled<'a> {
    style: &'static str,
    indicator: &'a str,
}

impl fmt::Display for Styled<'_> {
    ghost use Rattle.std.specs.Prelude.{Some};
    ghost use Rattle.minus_state.specs.PromptRow.{styled};

    ghost output = { λ s. Some (styled s.style.now s.indicator.now) };

    fn fmt<W: fmt::Write>(&self, f: &mut fmt::Formatter<W>) -> fmt::Result {
        if self.indicator.is_empty() {
            return Ok(());
        }
        f.write_str(self.style)?;
        f.write_str(self.indicator)
    }
}

/// The prompt row's text: the message or else the prompt, taken as one piece, cut to its longest front of
/// whole units or filled with spaces to the columns that the indicators leave; the prefix that was typed;
/// which match is shown, and of how many; `[F]` where the pager follows its text. Empty where
/// the prompt is hidden. Fails only if memory runs out.
pub fn format_prompt(alloc: Global, row: &PromptRow<'_>) -> Result<String, AllocError>
    ensures text { IfOk result (λ text. string_bytes text ≡ prompt_row (seen_prompt row.now)) }
    ensures fills { IfOk result (λ _. row.now.is_shown ≡ true → FillsItsRow (seen_prompt row.now)) }
{
    if !row.is_shown {
        return Ok(String::new(alloc));
    }
    let prefix = prefix_indicator(alloc, row)?;
    let matches = match_indicator(alloc, row)?;
    let follow = follow_indicator(row);
    let left = row
        .cols
        .saturating_sub(columns(prefix.as_str()))
        .saturating_sub(columns(matches.as_str()))
        .saturating_sub(columns(follow));
    let (style, says) = said(row);
    let fitted = fit_columns(alloc, says, left)?;
    let typed = Styled {
        style: PREFIX_STYLE,
        indicator: prefix.as_str(),
    };
    let found = Styled {
        style: MATCH_STYLE,
        indicator: matches.as_str(),
    };
    let followed = Styled {
        style: FOLLOW_STYLE,
        indicator: follow,
    };
    format!(in alloc; "{style}{fitted}{typed}{found}{followed}{STYLE_END}")
}

/// What the prompt row says and its indicators take all columns of the row together, and as many as the
/// indicators where these take more.
pub fn prompt_fills_its_row()
    ensures { PromptFillsItsRow }
{}
