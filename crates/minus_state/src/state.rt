//! What is displayed, and how.
//!
//! A method that is named by a participle (`shifted`, `resized`, `dragged`) changes nothing: it answers the [`Change`]
//! that leads to such a state, and [`PagerState::place`] puts that in place.
ghost use Rattle.std.specs.Prelude.{◌≡◌, ◌↔◌, IsTrue, string_bytes, option_map, unwrap_or, OnOk, OnErr, IfOk, IfErr};
ghost use Rattle.regex.specs.Strings.{regex_pattern};
ghost use Rattle.minus_state.specs.Aside.{aside_of};
ghost use Rattle.minus_text.specs.FoundRows.{pattern_of};
ghost use Rattle.minus_state.specs.ShownPrompt.{has_newline};
ghost use Rattle.minus_state.specs.Sizes.{IsSize};
ghost use Rattle.minus_text.specs.Searched.{searched};

pub mod after;
mod appending;
mod confirming;
pub mod help;
mod left_mark;
mod match_jumps;
mod prompt_keys;
mod prompting;
mod query_patterns;
mod readers;
mod reforming;
mod resizing;
mod search_mark;
mod selecting;
mod settings;
mod term;
mod texts;
mod unchanged;

use crate::change::{Change, NextText};
use crate::search::open_search::OpenSearch;
use crate::search::{SearchMode, SearchState};
use crate::selection::{Selection, SelectionEnds};
use crate::state::help::{Saved, add_aside, replace_aside};
use crate::state::term::{KeptTerm, kept_pattern, shared_pattern};
use minus_term::MinusError;
use minus_text::{Findings, Layout, LineNumbers, Patterns, Screen, Term};
use regex::Regex;
use std::alloc::Global;
use std::rc::Rc;

/// Whether these are columns and rows of a terminal: each from 1 to 65,535.
pub fn is_size(cols: usize, rows: usize) -> bool
    ensures { IsTrue result ↔ IsSize cols rows }
{
    (1..=65_535).contains(&cols) && (1..=65_535).contains(&rows)
}

// What the prompt says at first.
const PROMPT: &str = "minus";

// A text with its rows in a layout, searched for a term, if there is one.
fn formed(
    alloc: Global,
    text: String,
    layout: Layout,
    term: Option<Term<'_>>,
) -> Result<Screen, MinusError>
    ensures ok { IfOk result (λ s. s
        ≡ searched (pattern_of term.entry) (record { text = string_bytes text; layout = layout })) }
    ensures memory { IfErr result (λ e. e ≡ MinusError.Memory) }
{
    let (screen, _) = Screen::of_text(alloc, text, layout, term)?;
    Ok(screen)
}

// What rows are searched for.
fn searching<'t>(patterns: &'t Patterns, term: Option<&'t Regex>) -> Option<Term<'t>>
    ensures { pattern_of result ≡ option_map (λ t. regex_pattern t.now) term.entry }
{
    match term {
        Some(pattern) => Some(Term { patterns, pattern }),
        None => None,
    }
}

/// How a session was started, or that it runs no more.
#[derive(Clone, Copy, Debug, PartialEq, Eq)]
pub enum RunMode {
    /// For a text that is whole at the start.
    Static,
    /// For a text that grows.
    Dynamic,
    /// The session has exited or failed, or has not begun.
    Uninitialized,
}

impl RunMode {
    /// Whether no session runs.
    pub fn is_uninitialized(&self) -> bool
        ensures { IsTrue result ↔ (self.now ≡ RunMode.Uninitialized) }
    {
        *self == RunMode::Uninitialized
    }
}

/// How the program is to go on after an exit.
#[derive(Clone, Copy, Debug, PartialEq, Eq)]
pub enum ExitStrategy {
    /// The process is to end.
    ProcessQuit,
    /// The program is to go on.
    PagerQuit,
}

/// What is displayed: the text, the size of the terminal, the mark, and what is set beside them.
#[derive(Debug)]
pub struct PagerState {
    /// The text with its rows.
    pub screen: Screen,
    /// Whether rows begin with the numbers of their lines.
    pub line_numbers: LineNumbers,
    /// The first row of text on the page, counted from 0.
    pub upper_mark: usize,
    /// The columns that are cut off at the left where lines are not wrapped.
    pub left_mark: usize,
    /// Where what is selected was led to.
    pub selection: Option<Selection>,
    /// The direction of the last search, as [`SearchState::search_mode`] has it: that is read, and this is set by it.
    pub search_mode: SearchMode,
    /// How a search stands.
    pub search_state: SearchState,
    /// The columns of the terminal, from 1 to 65,535.
    pub cols: usize,
    /// The rows of the terminal, the prompt's among them, from 1 to 65,535.
    pub rows: usize,
    /// What the prompt row says in the prompt's place.
    pub message: Option<String>,
    /// The prefix that is typed; empty where there is none.
    pub prefix_num: String,
    pub(crate) patterns: Patterns,
    pub(crate) term: Option<KeptTerm>,
    pub(crate) search_mark: usize,
    pub(crate) anchor: Option<Selection>,
    pub(crate) prompt: String,
    pub(crate) prompt_shown: bool,
    pub(crate) follow: bool,
    pub(crate) saved: Option<Saved>,
    pub(crate) open_search: Option<OpenSearch>,
    pub ghost sized: { IsSize cols rows },
}

// Hand-written: a derived drop would stand again in the proof of each function that lets one go.
impl Drop for PagerState {
    fn drop(self) {
        let PagerState {
            screen: _,
            line_numbers: _,
            upper_mark: _,
            left_mark: _,
            selection: _,
            search_mode: _,
            search_state: _,
            cols: _,
            rows: _,
            message: _,
            prefix_num: _,
            patterns: _,
            term: _,
            search_mark: _,
            anchor: _,
            prompt: _,
            prompt_shown: _,
            follow: _,
            saved: _,
            open_search: _,
        } = self;
    }
}

impl PagerState {
    ghost use Rattle.std.specs.Prelude.{None};
    ghost use Rattle.std.specs.Option.{option_map, unwrap_or};
    ghost use Rattle.minus_state.specs.Control.{document_of};
    ghost use Rattle.minus_term.specs.Refusals.{refusal_of};
    ghost use Rattle.minus_state.specs.States.{control_of, ends_of, term_of, IsFormed, at_start};
    ghost use Rattle.minus_state.specs.NextTexts.{next_document, next_term, aside_with, FindsNext};
    ghost use Rattle.minus_state.specs.Changes.{WhereLed, KeepsBeside, IsPlaced, IsUnformedState};

    /// No text yet, for a terminal of this many columns and rows.
    ///
    /// # Errors
    ///
    /// [`MinusError::BadSize`] where the columns or the rows are not from 1 to 65,535, [`MinusError::SearchExpError`]
    /// where `regex` builds no matcher of a fixed pattern, and [`MinusError::Memory`] where there is no memory.
    pub fn new(alloc: Global, cols: usize, rows: usize) -> Result<PagerState, MinusError>
        ensures control { IfOk result (λ s. control_of s ≡ at_start cols rows) }
        ensures formed { IfOk result IsFormed }
        ensures size { OnOk result (IsSize cols rows) }
        ensures refused { IfErr result (λ e. IsUnformedState (refusal_of e) cols rows) }
    {
        if !is_size(cols, rows) {
            return Err(MinusError::BadSize(cols, rows));
        }
        Ok(PagerState {
            screen: formed(alloc, String::new(alloc), Layout::plain(cols), None)?,
            line_numbers: LineNumbers::Disabled,
            upper_mark: 0,
            left_mark: 0,
            selection: None,
            search_mode: SearchMode::Unknown,
            search_state: SearchState {
                search_mode: SearchMode::Unknown,
            },
            cols,
            rows,
            message: None,
            prefix_num: String::new(alloc),
            patterns: Patterns::new(alloc)?,
            term: None,
            search_mark: 0,
            anchor: None,
            prompt: String::from_str(alloc, PROMPT)?,
            prompt_shown: true,
            follow: false,
            saved: None,
            open_search: None,
        })
    }

    /// Whether lines that are too long for the columns are wrapped.
    pub fn line_wrapping(&self) -> bool
        ensures { result ≡ (control_of self.now).wrapping }
    {
        self.screen.layout().wrapping
    }

    /// Whether a term is searched for in lines, and not in rows.
    pub fn match_lines(&self) -> bool
        ensures { result ≡ (control_of self.now).match_lines }
    {
        self.screen.layout().match_lines
    }

    /// Whether rows are put with the styles that their lines carry to them.
    pub fn carry_style(&self) -> bool
        ensures { result ≡ (control_of self.now).carry_style }
    {
        self.screen.layout().carry_style
    }

    /// How the rows are laid out.
    pub fn layout(&self) -> Layout
        ensures { result ≡ (document_of (control_of self.now)).layout }
    {
        Layout {
            cols: self.cols,
            wrapping: self.line_wrapping(),
            numbers: self.line_numbers,
            match_lines: self.match_lines(),
            carry_style: self.carry_style(),
        }
    }

    /// The ends of what is selected.
    pub fn ends(&self) -> SelectionEnds
        ensures { result ≡ ends_of self.now }
    {
        SelectionEnds {
            anchor: self.anchor,
            selection: self.selection,
        }
    }

    // The message.
    pub(crate) fn message_text(&self) -> Option<&str>
        ensures { option_map (λ m. m.now) result ≡ option_map string_bytes self.now.message }
    {
        match &self.message {
            Some(message) => Some(message.as_str()),
            None => None,
        }
    }

    // Puts the search's mode into the field that tells it.
    pub(crate) fn tell_mode(&mut self)
        ensures { self.new ≡ record self.old { search_mode = self.old.search_state.search_mode } }
    {
        self.search_mode = self.search_state.search_mode;
    }

    // Puts what a pattern found in its place, and the pattern, or none. It stands apart: a function pays for the room
    // of its largest value whenever it is called.
    #[inline(never)]
    fn place_found(
        &mut self,
        alloc: Global,
        pattern: Option<Rc<Regex>>,
        findings: Findings,
    ) -> Result<(), MinusError>
        ensures document { OnOk result (self.new.screen.document
            ≡ next_document self.old.screen.document (NextText.Found pattern findings)) }
        ensures found { OnOk result (FindsNext (term_of self.old) self.old.screen (NextText.Found pattern findings)
            self.new.screen) }
        ensures term { OnOk result (term_of self.new
            ≡ next_term (term_of self.old) (NextText.Found pattern findings)) }
        ensures aside { OnOk result (aside_of self.new.saved
            ≡ aside_with (NextText.Found pattern findings) (aside_of self.old.saved)) }
        ensures beside { OnOk result (KeepsBeside self.old self.new) }
        ensures err { OnErr result (control_of self.new ≡ control_of self.old) }
        ensures kept { OnErr result (self.new.screen ≡ self.old.screen) }
        ensures mode { OnErr result (self.new.search_mode ≡ self.old.search_mode) }
        ensures memory { IfErr result (λ e. e ≡ MinusError.Memory) }
    {
        let term = searching(&self.patterns, shared_pattern(&pattern));
        self.screen.place_findings(alloc, findings, term)?;
        self.term = pattern.map(KeptTerm::Shown);
        Ok(())
    }

    // Puts a text that was formed in its place, or where one is saved. An `Err` leaves the text and its rows.
    pub(crate) fn place_text(&mut self, alloc: Global, text: NextText) -> Result<(), MinusError>
        ensures document { OnOk result (self.new.screen.document ≡ next_document self.old.screen.document text) }
        ensures found { OnOk result (FindsNext (term_of self.old) self.old.screen text self.new.screen) }
        ensures term { OnOk result (term_of self.new ≡ next_term (term_of self.old) text) }
        ensures aside { OnOk result (aside_of self.new.saved ≡ aside_with text (aside_of self.old.saved)) }
        ensures beside { OnOk result (KeepsBeside self.old self.new) }
        ensures err { OnErr result (control_of self.new ≡ control_of self.old) }
        ensures kept { OnErr result (self.new.screen ≡ self.old.screen) }
        ensures mode { OnErr result (self.new.search_mode ≡ self.old.search_mode) }
        ensures memory { IfErr result (λ e. e ≡ MinusError.Memory) }
    {
        match text {
            NextText::Same => Ok(()),
            NextText::Whole(next) => {
                self.screen = Box::into_inner(next);
                Ok(())
            }
            NextText::Pushed(piece, pending) => {
                let term = searching(&self.patterns, kept_pattern(&self.term));
                let _ = self
                    .screen
                    .place_push(alloc, &piece, Box::into_inner(pending), term)?;
                Ok(())
            }
            NextText::Found(pattern, findings) => self.place_found(alloc, pattern, findings),
            NextText::SavedWhole(text) => {
                replace_aside(&mut self.saved, text);
                Ok(())
            }
            NextText::SavedMore(piece) => add_aside(&mut self.saved, &piece),
        }
    }

    /// Puts another typed prefix in the place of the one that is typed, if there is one.
    pub fn place_prefix(&mut self, prefix: Option<String>)
        ensures { self.new ≡ record self.old { prefix_num = unwrap_or prefix self.old.prefix_num } }
    {
        if let Some(prefix) = prefix {
            self.prefix_num = prefix;
        }
    }

    /// Puts what was formed in its place. A push that was prepared for another text is formed again for this one, and
    /// what was found in other rows is searched for again. An `Err` leaves the control and the screen as they were.
    ///
    /// # Errors
    ///
    /// [`MinusError::Memory`] where there is no memory for it.
    pub fn place(&mut self, alloc: Global, change: Change) -> Result<(), MinusError>
        ensures placed { OnOk result (IsPlaced self.old change self.new) }
        ensures control { OnOk result (WhereLed self.old change (λ new. control_of self.new ≡ new)) }
        ensures formed { OnOk result (WhereLed self.old change (λ new. IsFormed self.new)) }
        ensures err { OnErr result (control_of self.new ≡ control_of self.old) }
        ensures kept { OnErr result (self.new.screen ≡ self.old.screen) }
        ensures still { OnErr result (IsFormed self.old → IsFormed self.new) }
        ensures memory { IfErr result (λ e. e ≡ MinusError.Memory) }
    {
        change.place_into(self, alloc)
    }
}

/// Whether a text has a newline.
pub fn has_newline(text: &str) -> bool
    ensures { result ≡ has_newline text.now }
{
    text.as_bytes().contains(&b'\n')
}
