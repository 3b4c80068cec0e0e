//! What the condition of an incremental search sees.
ghost use Rattle.std.specs.Prelude.{◌≡◌, is_some, IfOk, IfSome};
ghost use Rattle.minus_text.specs.WordStarts.{AreWithin};
ghost use Rattle.minus_state.specs.OpenPrompts.{fed};
ghost use Rattle.minus_state.specs.QueryKeys.{edit_of};
ghost use Rattle.minus_state.specs.SearchMode.{char_of};
ghost use Rattle.minus_state.specs.SearchSeen.{cursor_seen, AreFirstOpts, AreOptsAfter};

use crate::search::keys::{QueryEdit, edit_of};
use crate::search::open_prompt::OpenPrompt;
use crate::search::{InputStatus, SearchMode};
use crate::state::PagerState;
use minus_term::Event;
use minus_text::{LineNumbers, LinesRowMap, Screen};
use std::alloc::{AllocError, Global};

/// What of a state the condition of an incremental search sees.
#[derive(Clone, Copy)]
pub struct IncrementalSearchOpts<'a> {
    /// Whether rows begin with the numbers of their lines.
    pub line_numbers: LineNumbers,
    /// The first row of text on the page before the search, counted from 0.
    pub initial_upper_mark: usize,
    /// The text with its rows.
    pub screen: &'a Screen,
    /// The number of the first row of each line, both counted from 0.
    pub lines_to_row_map: &'a LinesRowMap,
    /// The columns that are cut off at the left where lines are not wrapped.
    pub initial_left_mark: usize,
}

impl<'a> From<&'a PagerState> for IncrementalSearchOpts<'a> {
    ghost use Rattle.minus_state.specs.SearchSeen.{IsSeenOf};

    ghost from_gives = { λ state opts. IsSeenOf state.now opts };

    fn from(state: &'a PagerState) -> IncrementalSearchOpts<'a> {
        IncrementalSearchOpts {
            line_numbers: state.line_numbers,
            initial_upper_mark: state.upper_mark,
            screen: &state.screen,
            lines_to_row_map: state.screen.lines_to_row_map(),
            initial_left_mark: state.left_mark,
        }
    }
}

/// What the condition of an incremental search sees: it is asked after each edit of a query whether the page shows
/// where the query leads.
#[derive(Drop)]
pub struct SearchOpts<'a> {
    /// The event that was fed last, if there is one.
    pub ev: Option<Event>,
    /// The query.
    pub string: String,
    /// How the prompt stands.
    pub input_status: InputStatus,
    /// The cursor, in characters from 1.
    pub cursor_position: u16,
    /// The direction of the search.
    pub search_mode: SearchMode,
    /// Where the words of the query start, in characters from 1.
    pub word_index: Vec<u16>,
    /// The character before the query.
    pub search_char: char,
    /// The rows of the terminal.
    pub rows: u16,
    /// The columns of the terminal.
    pub cols: u16,
    /// What of the state is seen.
    pub incremental_search_options: Option<IncrementalSearchOpts<'a>>,
}

/// What the condition of an incremental search sees at first, before an event: an empty query, with its cursor at 1,
/// under the direction that the state has; `None` where no search has begun. It takes no memory.
pub fn search_opts(alloc: Global, state: &PagerState) -> Option<SearchOpts<'_>>
    ensures begun { is_some result ≡ is_some (char_of state.now.search_state.search_mode) }
    ensures first { IfSome result (AreFirstOpts state.now) }
{
    let search_mode = state.search_state.search_mode;
    let search_char = search_mode.search_char()?;
    Some(SearchOpts {
        ev: None,
        string: String::new(alloc),
        input_status: InputStatus::Active,
        cursor_position: 1,
        search_mode,
        word_index: Vec::new(alloc),
        search_char,
        rows: state.rows as u16,
        cols: state.cols as u16,
        incremental_search_options: Some(IncrementalSearchOpts::from(state)),
    })
}

// Places of up to 65,535, as a condition sees them.
fn narrowed(alloc: Global, places: &[usize]) -> Result<Vec<u16>, AllocError>
    requires { AreWithin 65535 places.now }
    ensures { IfOk result (λ seen. seen.items ≡ places.now) }
{
    let mut seen = Vec::with_capacity(alloc, places.len())?;
    for &place in places {
        seen.push(place as u16)?;
    }
    Ok(seen)
}

// The cursor as it is seen after an event has edited the query of a prompt: at an insertion before it follows.
fn cursor_seen(before: &OpenPrompt, prompt: &OpenPrompt, event: &Event) -> u16
    requires { prompt.now ≡ fed before.now (edit_of event.now) }
    ensures { result ≡ cursor_seen before.now.editor (edit_of event.now) }
{
    match edit_of(event) {
        QueryEdit::Inserts(_) => before.cursor() as u16,
        _ => prompt.cursor() as u16,
    }
}

// What the condition of an incremental search sees of a state after an event has edited the query of a prompt, which
// left this one: the event, the new query with the starts of its words, and the cursor, which at an insertion has not
// followed yet.
pub(crate) fn search_opts_after<'a>(
    alloc: Global,
    state: &'a PagerState,
    before: &OpenPrompt,
    prompt: &OpenPrompt,
    event: &Event,
) -> Result<SearchOpts<'a>, AllocError>
    requires { prompt.now ≡ fed before.now (edit_of event.now) }
    ensures { IfOk result (AreOptsAfter state.now before.now event.now) }
{
    Ok(SearchOpts {
        ev: Some(*event),
        string: String::from_str(alloc, prompt.query())?,
        input_status: InputStatus::Active,
        cursor_position: cursor_seen(before, prompt, event),
        search_mode: prompt.search_mode(),
        word_index: narrowed(alloc, prompt.word_index())?,
        search_char: prompt.search_char(),
        rows: state.rows as u16,
        cols: state.cols as u16,
        incremental_search_options: Some(IncrementalSearchOpts::from(state)),
    })
}
