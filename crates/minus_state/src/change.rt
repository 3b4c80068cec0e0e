//! What a command leaves, formed beside the state.
ghost use Rattle.std.specs.Prelude.{◌≡◌, unwrap_or, option_map, string_bytes, IfOk};
ghost use Rattle.minus_state.specs.Sizes.{IsSize};

use crate::search::SearchMode;
use crate::search::open_search::SearchChange;
use crate::selection::SelectionEnds;
use crate::state::PagerState;
use crate::state::help::HelpChange;
use minus_term::MinusError;
use minus_text::screen::searching::{view_after, view_of};
use minus_text::{Findings, PendingPush, RowsView, Screen};
use regex::Regex;
use std::alloc::{AllocError, Global};
use std::rc::Rc;

/// What a command asks to be drawn.
#[derive(Clone, Copy)]
pub enum Redraw {
    /// Nothing: the page stays as it is.
    Stays,
    /// The whole page.
    Whole,
    /// What a move of the mark changes.
    Moved,
    /// What an append changes.
    Appended,
    /// The prompt row.
    PromptRow,
    /// The search prompt, which opens in the place of the prompt row.
    Opening,
    /// The cursor in the search prompt.
    Cursor,
    /// The page, with the search prompt's query and cursor.
    Edit,
    /// The page in the place of the search prompt, which closes.
    Closing,
}

/// How a text was appended.
#[derive(Clone, Copy, Debug, PartialEq, Eq)]
pub enum AppendStyle {
    /// The rows before the first of these numbers stayed, and the second is the number of rows then.
    PartialUpdate((usize, usize)),
    /// All rows were formed again.
    FullRedraw,
}

// What the prompt row reports matches: the place of one, counted from 0, and how many there are.
#[derive(Clone, Copy, PartialEq, Eq)]
pub(crate) struct Told {
    pub(crate) place: usize,
    pub(crate) count: usize,
}

/// The text that there will be: as it is, another one, or as a push leaves it; or as it is, where another one is put
/// aside while help is open, or more is added to that.
#[derive(Drop)]
pub enum NextText {
    /// The displayed text stays, and what is saved too.
    Same,
    /// Another text with its rows. What is large stands in a box: each step moves a change several times.
    Whole(Box<Screen>),
    /// This text is added, and these rows were formed for it.
    Pushed(String, Box<PendingPush>),
    /// The displayed text stays, and this pattern, the term from now on, was found so in its rows; without one, nothing
    /// is searched for any more. It may be the one whose matches the page shows already.
    Found(Option<Rc<Regex>>, Findings),
    /// Another text in the place of the one that is saved.
    SavedWhole(String),
    /// More of the text that is saved.
    SavedMore(String),
}

impl NextText {
    ghost use Rattle.std.specs.Prelude.{length, slice_get};
    ghost use Rattle.minus_text.specs.Views.{viewed};
    ghost use Rattle.minus_text.specs.Document.{rows_of};
    ghost use Rattle.minus_text.specs.Found.{jump_rows, match_total, matches_above};
    ghost use Rattle.minus_text.specs.JumpRows.{counted};
    ghost use Rattle.minus_state.specs.ShownPrompt.{told_above, told_match, told_count};
    ghost use Rattle.minus_state.specs.NextTexts.{next_document, next_found, next_searched, Belongs};

    // The rows that there will be, where the displayed text stands in a screen.
    pub(crate) fn view<'a>(&'a self, screen: &'a Screen) -> RowsView<'a>
        requires { Belongs screen.now.document self.now }
        ensures { viewed result ≡ next_searched screen.now self.now }
    {
        match self {
            NextText::Whole(next) => next.as_ref().view(),
            NextText::Pushed(text, pending) => view_after(screen, text.as_str(), pending.as_ref()),
            NextText::Found(_, findings) => view_of(screen, findings),
            NextText::Same | NextText::SavedWhole(_) | NextText::SavedMore(_) => screen.view(),
        }
    }

    // The number of rows that there will be, where the displayed text stands in a screen.
    pub(crate) fn row_count(&self, screen: &Screen) -> usize
        ensures { Belongs screen.now.document self.now → result
            ≡ length (rows_of (next_document screen.now.document self.now)) }
    {
        match self {
            NextText::Whole(next) => next.as_ref().formatted_lines_count(),
            NextText::Pushed(_, pending) => pending.as_ref().row_count(),
            NextText::Same
            | NextText::Found(_, _)
            | NextText::SavedWhole(_)
            | NextText::SavedMore(_) => screen.formatted_lines_count(),
        }
    }

    // Whether lines will be searched, and not rows, where the displayed text stands in a screen.
    fn match_lines(&self, screen: &Screen) -> bool
        ensures { result ≡ (next_document screen.now.document self.now).layout.match_lines }
    {
        match self {
            NextText::Whole(next) => next.as_ref().layout().match_lines,
            NextText::Same
            | NextText::Pushed(_, _)
            | NextText::Found(_, _)
            | NextText::SavedWhole(_)
            | NextText::SavedMore(_) => screen.layout().match_lines,
        }
    }

    // The number of rows that will match, where the displayed text stands in a screen.
    fn match_count(&self, screen: &Screen) -> usize
        ensures { result ≡ length (jump_rows (next_found screen.now.found self.now)) }
    {
        match self {
            NextText::Whole(next) => next.as_ref().match_count(),
            NextText::Pushed(_, pending) => screen.match_count_after(pending.as_ref()),
            NextText::Found(_, findings) => findings.match_count(),
            NextText::Same | NextText::SavedWhole(_) | NextText::SavedMore(_) => {
                screen.match_count()
            }
        }
    }

    // The row at a place among those that will match.
    fn match_row(&self, screen: &Screen, place: usize) -> Option<usize>
        ensures { result ≡ slice_get (jump_rows (next_found screen.now.found self.now)) place }
    {
        match self {
            NextText::Whole(next) => next.as_ref().match_row(place),
            NextText::Pushed(_, pending) => screen.match_row_after(pending.as_ref(), place),
            NextText::Found(_, findings) => findings.match_row(place),
            NextText::Same | NextText::SavedWhole(_) | NextText::SavedMore(_) => {
                screen.match_row(place)
            }
        }
    }

    // How many matches there will be.
    fn match_total(&self, screen: &Screen) -> usize
        ensures { result ≡ counted (match_total (next_found screen.now.found self.now)) }
    {
        match self {
            NextText::Whole(next) => next.as_ref().view().match_total(),
            NextText::Pushed(_, pending) => screen.match_total_after(pending.as_ref()),
            NextText::Found(_, findings) => findings.match_total(),
            NextText::Same | NextText::SavedWhole(_) | NextText::SavedMore(_) => {
                screen.view().match_total()
            }
        }
    }

    // How many matches will begin above a row.
    fn matches_above(&self, screen: &Screen, row: usize) -> usize
        ensures { result ≡ counted (matches_above row (next_found screen.now.found self.now)) }
    {
        match self {
            NextText::Whole(next) => next.as_ref().view().matches_above(row),
            NextText::Pushed(_, pending) => screen.matches_above_after(pending.as_ref(), row),
            NextText::Found(_, findings) => findings.matches_above(row),
            NextText::Same | NextText::SavedWhole(_) | NextText::SavedMore(_) => {
                screen.view().matches_above(row)
            }
        }
    }

    // How many matches will begin above the row that the prompt row reports.
    fn told_above(&self, screen: &Screen, search_mark: usize) -> usize
        ensures { result ≡ told_above (next_found screen.now.found self.now) search_mark }
    {
        match self.match_row(screen, search_mark) {
            Some(row) => self.matches_above(screen, row),
            None => search_mark,
        }
    }

    // What the prompt row will report matches, where the displayed text stands in a screen.
    pub(crate) fn told(&self, screen: &Screen, search_mark: usize) -> Told
        ensures place { result.place ≡ told_match (next_document screen.now.document self.now).layout.match_lines
            (next_found screen.now.found self.now) search_mark }
        ensures count { result.count ≡ told_count (next_document screen.now.document self.now).layout.match_lines
            (next_found screen.now.found self.now) }
    {
        if self.match_lines(screen) {
            return Told {
                place: self.told_above(screen, search_mark),
                count: self.match_total(screen),
            };
        }
        Told {
            place: search_mark,
            count: self.match_count(screen),
        }
    }
}

// A value in a box.
pub(crate) fn boxed<T: Drop>(alloc: Global, value: T) -> Result<Box<T>, AllocError>
    ensures { IfOk result (λ b. b.value ≡ value) }
{
    let value = Box::new(alloc, value)?;
    Ok(value)
}

/// What becomes of the message, which stands in the prompt's place.
#[derive(Drop)]
pub enum MessageChange {
    /// It stays, or there is none as before.
    Stays,
    /// There is none.
    Goes,
    /// It says this, one line.
    Says(String),
}

impl MessageChange {
    ghost use Rattle.std.specs.Option.{option_map};
    ghost use Rattle.minus_state.specs.Changes.{message_after};

    // The message then, where this is the one before.
    pub(crate) fn after<'a>(&'a self, message: Option<&'a str>) -> Option<&'a str>
        ensures { option_map (λ m. m.now) result ≡ message_after self.now (option_map (λ m. m.now) message.entry) }
    {
        match self {
            MessageChange::Stays => message,
            MessageChange::Goes => None,
            MessageChange::Says(text) => Some(text.as_str()),
        }
    }

    // Puts the message in its place.
    fn put(self, place: &mut Option<String>)
        ensures { option_map string_bytes place.new ≡ message_after self (option_map string_bytes place.old) }
    {
        match self {
            MessageChange::Stays => {}
            MessageChange::Goes => *place = None,
            MessageChange::Says(text) => *place = Some(text),
        }
    }
}

// Puts another text in the place of one, if there is another.
fn put_text(place: &mut String, next: Option<String>)
    ensures { string_bytes place.new ≡ unwrap_or (option_map string_bytes next) (string_bytes place.old) }
{
    if let Some(text) = next {
        *place = text;
    }
}

/// What a command leaves: the state's values then, and what of them is asked to be drawn. Texts that stay, and what is
/// large and stays, are not held.
pub struct Change {
    /// The text that there will be.
    pub text: NextText,
    /// The first row of text on the page, counted from 0.
    pub mark: usize,
    /// The columns of the terminal, from 1 to 65,535.
    pub cols: usize,
    /// The rows of the terminal, the prompt's among them, from 1 to 65,535.
    pub rows: usize,
    /// The place, counted from 0 among the rows that match, of the one that the prompt row reports.
    pub search_mark: usize,
    /// The columns that are cut off at the left where lines are not wrapped.
    pub left: usize,
    /// The ends of what is selected.
    pub ends: SelectionEnds,
    /// Whether the prompt row is shown.
    pub is_shown: bool,
    /// Whether the page goes on with what is appended.
    pub follow: bool,
    /// The direction of the last search.
    pub mode: SearchMode,
    /// Another typed prefix, empty where the typed one goes; `None` where it stays.
    pub prefix: Option<String>,
    /// Another prompt, one line; `None` where it stays.
    pub prompt: Option<String>,
    /// What becomes of the message.
    pub message: MessageChange,
    /// Whether help is opened or left.
    pub help: HelpChange,
    /// What becomes of the search prompt.
    pub search: SearchChange,
    /// How much of it is asked to be drawn.
    pub redraw: Redraw,
    pub ghost sized: { IsSize cols rows },
}

// Hand-written: a derived drop would stand again in the proof of each function that lets one go.
impl Drop for Change {
    fn drop(self) {
        let Change {
            text: _,
            mark: _,
            cols: _,
            rows: _,
            search_mark: _,
            left: _,
            ends: _,
            is_shown: _,
            follow: _,
            mode: _,
            prefix: _,
            prompt: _,
            message: _,
            help: _,
            search: _,
            redraw: _,
        } = self;
    }
}

impl Change {
    ghost use Rattle.std.specs.Prelude.{OnOk, OnErr, IfErr};
    ghost use Rattle.minus_state.specs.Changes.{IsPlaced};
    ghost use Rattle.minus_state.specs.States.{control_of};

    // Puts what was formed in its place in a state. An `Err` leaves the control, the screen and the direction that the
    // state tells.
    pub(crate) fn place_into(self, state: &mut PagerState, alloc: Global) -> Result<(), MinusError>
        ensures placed { OnOk result (IsPlaced state.old self state.new) }
        ensures err { OnErr result (control_of state.new ≡ control_of state.old) }
        ensures kept { OnErr result (state.new.screen ≡ state.old.screen) }
        ensures mode { OnErr result (state.new.search_mode ≡ state.old.search_mode) }
        ensures memory { IfErr result (λ e. e ≡ MinusError.Memory) }
    {
        let Change {
            text,
            mark,
            cols,
            rows,
            search_mark,
            left,
            ends,
            is_shown,
            follow,
            mode,
            prefix,
            prompt,
            message,
            help,
            search,
            redraw: _,
        } = self;
        state.place_text(alloc, text)?;
        state.line_numbers = state.screen.layout().numbers;
        state.upper_mark = mark;
        state.cols = cols;
        state.rows = rows;
        state.search_mark = search_mark;
        state.left_mark = left;
        state.anchor = ends.anchor;
        state.selection = ends.selection;
        state.prompt_shown = is_shown;
        state.follow = follow;
        state.search_mode = mode;
        state.search_state.search_mode = mode;
        put_text(&mut state.prefix_num, prefix);
        put_text(&mut state.prompt, prompt);
        message.put(&mut state.message);
        help.put(&mut state.saved);
        search.put(&mut state.open_search);
        Ok(())
    }
}
