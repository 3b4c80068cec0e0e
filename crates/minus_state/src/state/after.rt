//! What a state shows after a change.
ghost use Rattle.std.specs.Prelude.{◌≡◌, ◌+◌, ◌-◌, ◌++◌, ◌^◌, ◌<◌, ◌≤◌, [], length, map, take, drop, option_map, unwrap_or, string_bytes, IfOk, OnOk};
ghost use Rattle.std.specs.List.{flat_map};
ghost use Rattle.minus_term.specs.FullRedraw.{row_ops};
ghost use Rattle.minus_text.specs.Views.{viewed};
ghost use Rattle.minus_state.specs.ShownRow.{before_rows};
ghost use Rattle.minus_state.specs.Showing.{row_text};
ghost use Rattle.minus_state.specs.NextTexts.{next_searched, Belongs};
ghost use Rattle.minus_state.specs.AddsShown.{AddsShown};
ghost use Rattle.minus_state.specs.Changes.{IsFormedFor, shown_by};

use crate::change::{Change, MessageChange, NextText, Redraw, Told};
use crate::prompt::{PromptRow, format_prompt};
use crate::showing::{ShownRow, ShownRows};
use crate::state::PagerState;
use crate::writing::write_texts;
use minus_term::page_len;
use minus_text::RowPlace;
use std::alloc::{AllocError, Global};

// Puts a shown row at the end, if there is one.
fn push_shown<'a>(rows: &mut Vec<ShownRow<'a>>, row: Option<ShownRow<'a>>) -> Result<(), AllocError>
    ensures rows { OnOk result (map row_text rows.new.items
        ≡ map row_text rows.old.items ++ before_rows (option_map row_text row.entry) []) }
    ensures few { OnOk result (length rows.new.items ≤ length rows.old.items + 1) }
{
    match row {
        Some(row) => Ok(rows.push(row)?),
        None => Ok(()),
    }
}

// A text after a change: another one, or the one before.
fn text_after<'a>(next: &'a Option<String>, before: &'a String) -> &'a str
    ensures { result.now ≡ unwrap_or (option_map string_bytes next.now) (string_bytes before.now) }
{
    match next {
        Some(text) => text.as_str(),
        None => before.as_str(),
    }
}

impl PagerState {
    ghost use Rattle.std.specs.Prelude.{None, true};
    ghost use Rattle.std.specs.Option.{option_map, unwrap_or};
    ghost use Rattle.minus_state.specs.ShownPrompt.{prompt_row, row_or};
    ghost use Rattle.minus_state.specs.PromptRow.{seen_prompt};
    ghost use Rattle.minus_state.specs.States.{control_of, IsFormed};
    ghost use Rattle.minus_state.specs.Changes.{WhereLed, prompt_after, prompt_row_after, shown_prompt, displayed_prompt};

    // What the prompt row is formed of after a change.
    fn prompt_after<'a>(&'a self, change: &'a Change) -> PromptRow<'a>
        ensures { seen_prompt result ≡ prompt_after self.now change.now }
    {
        let told = change.text.told(&self.screen, change.search_mark);
        PromptRow {
            is_shown: change.is_shown,
            prompt: text_after(&change.prompt, &self.prompt),
            message: change.message.after(self.message_text()),
            prefix: text_after(&change.prefix, &self.prefix_num),
            search_mark: told.place,
            match_count: told.count,
            follow: change.follow,
            cols: change.cols,
        }
    }

    /// The prompt row after a change; empty where it is hidden. Fails only if memory runs out.
    pub fn prompt_row_after(&self, alloc: Global, change: &Change) -> Result<String, AllocError>
        ensures row { IfOk result (λ row. string_bytes row ≡ prompt_row_after self.now change.now) }
        ensures formed { IfOk result (λ row. WhereLed self.now change.now
            (λ new. string_bytes row ≡ prompt_row new)) }
    {
        let row = self.prompt_after(change);
        let text = format_prompt(alloc, &row)?;
        Ok(text)
    }

    /// The text of the prompt row; empty where it is hidden. Fails only if memory runs out.
    pub fn displayed_prompt(&self, alloc: Global) -> Result<String, AllocError>
        ensures row { IfOk result (λ row. string_bytes row ≡ displayed_prompt self.now) }
        ensures formed { IfOk result (λ row. IsFormed self.now →
            string_bytes row ≡ prompt_row (control_of self.now)) }
    {
        let stays = self.redrawn(Redraw::Stays);
        self.prompt_row_after(alloc, &stays)
    }

    // What the prompt row reports matches.
    fn told(&self) -> Told
        ensures place { result.place ≡ (shown_prompt self.now).search_mark }
        ensures count { result.count ≡ (shown_prompt self.now).match_count }
    {
        NextText::Same.told(&self.screen, self.search_mark)
    }

    // Whether a change leaves the prompt row as it is: what it says is not set, and all else that it is formed of
    // stays.
    fn keeps_prompt_row(&self, change: &Change) -> bool
        ensures { result ≡ true → prompt_after self.now change.now ≡ shown_prompt self.now }
    {
        match (&change.prompt, &change.message) {
            (None, MessageChange::Stays) => {
                change.cols == self.cols
                    && change.is_shown == self.prompt_shown
                    && change.follow == self.follow
                    && change.text.told(&self.screen, change.search_mark) == self.told()
                    && text_after(&change.prefix, &self.prefix_num) == self.prefix_num.as_str()
            }
            _ => false,
        }
    }

    /// The prompt row after a change, where it may be another one; `None` where it stays as it is.
    ///
    /// # Errors
    ///
    /// [`AllocError`] if memory runs out.
    pub fn new_prompt_row(
        &self,
        alloc: Global,
        change: &Change,
    ) -> Result<Option<String>, AllocError>
        ensures row { IfOk result (λ row. unwrap_or (option_map string_bytes row) (displayed_prompt self.now)
            ≡ prompt_row_after self.now change.now) }
        ensures formed { IfOk result (λ row. WhereLed self.now change.now
            (λ new. row_or (control_of self.now) (option_map string_bytes row) ≡ prompt_row new)) }
    {
        if self.keeps_prompt_row(change) {
            return Ok(None);
        }
        let row = self.prompt_row_after(alloc, change)?;
        Ok(Some(row))
    }
}

/// How many rows of text the page has that a change leads to.
pub fn count_after(state: &PagerState, change: &Change) -> usize
    requires { Belongs state.now.screen.document change.now.text }
    ensures count { result ≡ length (shown_by state.now change.now) }
    ensures within { change.now.mark + result < 2 ^ 64 }
{
    let rows = change.text.view(&state.screen).len();
    let left = rows.saturating_sub(change.mark);
    left.min(page_len(change.rows))
}

// What rows are shown of after a change, and how.
fn showing<'a>(state: &'a PagerState, change: &'a Change) -> ShownRows<'a>
    requires { Belongs state.now.screen.document change.now.text }
    ensures view { viewed result.view ≡ next_searched state.now.screen change.now.text }
    ensures left { result.left_mark ≡ change.now.left }
    ensures ends { result.ends ≡ change.now.ends }
{
    ShownRows {
        view: change.text.view(&state.screen),
        left_mark: change.left,
        ends: change.ends,
    }
}

/// The texts of the rows of text on the page that a change leads to, from one of them on and before another, both
/// counted from 0 at the top of the page. Fails only if memory runs out.
pub fn shown_between<'a>(
    state: &'a PagerState,
    alloc: Global,
    change: &'a Change,
    first: usize,
    end: usize,
) -> Result<Vec<ShownRow<'a>>, AllocError>
    requires { Belongs state.now.screen.document change.now.text }
    ensures rows { IfOk result (λ v. IsFormedFor state.now change.now →
        map row_text v.items ≡ drop first (take end (shown_by state.now change.now))) }
    ensures few { IfOk result (λ v. length v.items ≤ length (shown_by state.now change.now) - first) }
{
    let count = count_after(state, change).min(end);
    let start = first.min(count);
    let showing = showing(state, change);
    let mut shown = Vec::with_capacity(alloc, count - start)?;
    for i in start..count {
        push_shown(&mut shown, showing.row(alloc, change.mark + i)?)?;
    }
    Ok(shown)
}

/// The texts of the rows of text on the page that a change leads to, from one of them on, counted from 0 at the
/// top of the page. Fails only if memory runs out.
pub fn shown_after<'a>(
    state: &'a PagerState,
    alloc: Global,
    change: &'a Change,
    first: usize,
) -> Result<Vec<ShownRow<'a>>, AllocError>
    requires { Belongs state.now.screen.document change.now.text }
    ensures rows { IfOk result (λ v. IsFormedFor state.now change.now →
        map row_text v.items ≡ drop first (shown_by state.now change.now)) }
    ensures few { IfOk result (λ v. length v.items ≤ length (shown_by state.now change.now) - first) }
{
    shown_between(state, alloc, change, first, page_len(change.rows))
}

/// Adds the rows of text on the page that a change leads to, from one of them on and before another, both counted
/// from 0 at the top of the page, to the bytes of a drawing: each is put from the first column of its row on.
///
/// # Errors
///
/// [`AllocError`] where there is no memory for the bytes: a beginning of them was added.
pub fn write_between(
    state: &PagerState,
    alloc: Global,
    out: &mut Vec<u8>,
    change: &Change,
    first: usize,
    end: usize,
) -> Result<(), AllocError>
    requires { Belongs state.now.screen.document change.now.text }
    ensures { OnOk result (AddsShown state.now change.now
        (λ shown. flat_map row_ops (drop first (take end shown))) out.old.items out.new.items) }
{
    let count = count_after(state, change).min(end);
    let start = first.min(count);
    let showing = showing(state, change);
    if showing.is_plain() {
        write_texts(showing.view, out, change.mark + start, change.mark + count)?;
        return Ok(());
    }
    let mut place = RowPlace::TOP;
    for i in start..count {
        showing.write_shown(alloc, out, change.mark + i, &mut place)?;
    }
    Ok(())
}

/// Adds the rows of text on the page that a change leads to, from one of them on, counted from 0 at the top of the
/// page, to the bytes of a drawing: each is put from the first column of its row on.
///
/// # Errors
///
/// [`AllocError`] where there is no memory for the bytes: a beginning of them was added.
pub fn write_after(
    state: &PagerState,
    alloc: Global,
    out: &mut Vec<u8>,
    change: &Change,
    first: usize,
) -> Result<(), AllocError>
    requires { Belongs state.now.screen.document change.now.text }
    ensures { OnOk result (AddsShown state.now change.now
        (λ shown. flat_map row_ops (drop first shown)) out.old.items out.new.items) }
{
    write_between(state, alloc, out, change, first, page_len(change.rows))
}
