//! Where a pager stands, and its texts.
ghost use Rattle.std.specs.Prelude.{◌≡◌, ◌<◌, option_map, IfOk, IfErr};
ghost use Rattle.minus_state.specs.OpenPrompts.{fed};
ghost use Rattle.minus_state.specs.QueryKeys.{edit_of};
ghost use Rattle.minus_c.specs.Pieces.{IsPiece};

use crate::enum_numbers::{number_of_mode, number_of_numbers};
use crate::found::Found;
use crate::held::Held;
use crate::stage::Stage;
use crate::told::{BAD_ARGUMENT, refusal_number};
use minus::{Event, KeyEvent, LineNumbers, MinusError, OpenPrompt, PagerState, SearchMode};
use std::alloc::Global;

/// Where a pager stands.
#[repr(C)]
#[derive(Clone, Copy, Drop)]
pub struct State {
    pub cols: usize,
    pub rows: usize,
    pub upper_mark: usize,
    pub left_mark: usize,
    pub row_count: usize,
    pub line_count: usize,
    pub max_line_length: usize,
    pub stage: u8,
    pub line_numbers: u8,
    pub search_mode: u8,
    pub line_wrapping: bool,
    pub follow_output: bool,
    pub show_prompt: bool,
    pub is_searching: bool,
    pub is_help: bool,
}

/// The numbers of the stages.
const WAITING: u8 = 0;

const RUNNING: u8 = 1;

const OVER: u8 = 2;

impl State {
    ghost use Rattle.std.specs.Prelude.{is_some, length};
    ghost use Rattle.minus_state.specs.Help.{help_open};
    ghost use Rattle.minus_state.specs.States.{control_of};
    ghost use Rattle.minus_text.specs.Document.{rows_of, line_count, longest};
    ghost use Rattle.minus_c.specs.EnumNumbers.{number_of_mode, number_of_numbers};

    // Of a pager that never ran.
    fn none(stage: u8) -> State {
        State {
            cols: 0,
            rows: 0,
            upper_mark: 0,
            left_mark: 0,
            row_count: 0,
            line_count: 0,
            max_line_length: 0,
            stage,
            line_numbers: 0,
            search_mode: 0,
            line_wrapping: false,
            follow_output: false,
            show_prompt: false,
            is_searching: false,
            is_help: false,
        }
    }

    // Of a session in this state.
    fn of(state: &PagerState, stage: u8) -> State
        ensures size { (result.cols ≡ state.now.cols) × (result.rows ≡ state.now.rows) }
        ensures marks { (result.upper_mark ≡ state.now.upper_mark) × (result.left_mark ≡ state.now.left_mark) }
        ensures stage { result.stage ≡ stage }
        ensures numbers { result.line_numbers ≡ number_of_numbers state.now.line_numbers }
        ensures searched { result.search_mode ≡ number_of_mode state.now.search_state.search_mode }
        ensures wraps { result.line_wrapping ≡ (control_of state.now).wrapping }
        ensures follows { result.follow_output ≡ (control_of state.now).settings.follow }
        ensures prompted { result.show_prompt ≡ (control_of state.now).settings.is_shown }
        ensures searches { result.is_searching ≡ is_some (control_of state.now).search }
        ensures helps { result.is_help ≡ help_open (control_of state.now) }
        ensures rows { result.row_count ≡ length (rows_of state.now.screen.document) }
        ensures lines { result.line_count ≡ line_count state.now.screen.document }
        ensures longest { result.max_line_length ≡ longest state.now.screen.document }
    {
        State {
            cols: state.cols,
            rows: state.rows,
            upper_mark: state.upper_mark,
            left_mark: state.left_mark,
            row_count: state.screen.formatted_lines_count(),
            line_count: state.screen.line_count(),
            max_line_length: state.screen.get_max_line_length(),
            stage,
            line_numbers: number_of_numbers(state.line_numbers),
            search_mode: number_of_mode(state.search_state.search_mode),
            line_wrapping: state.line_wrapping(),
            follow_output: state.follow_output(),
            show_prompt: state.prompt_shown(),
            is_searching: state.open_search().is_some(),
            is_help: state.help_open(),
        }
    }
}

// A text of a state, of the number of a piece.
fn piece_of(state: &PagerState, piece: u8) -> Result<Option<&str>, u8>
    ensures text { IfOk result (λ text. IsPiece piece state.now (option_map (λ t. t.now) text)) }
    ensures bad { IfErr result (λ refusal. (refusal ≡ 255) × (4 < piece)) }
{
    match piece {
        0 => Ok(Some(state.screen.orig_text())),
        1 => Ok(Some(state.prompt())),
        2 => Ok(state.message.as_deref()),
        3 => match state.open_search() {
            Some(search) => Ok(Some(search.prompt.query())),
            None => Ok(None),
        },
        4 => Ok(Some(state.prefix_num.as_str())),
        _ => Err(BAD_ARGUMENT),
    }
}

// A search prompt of a state, as an event leaves it.
fn fed(
    alloc: Global,
    state: &PagerState,
    prompt: &OpenPrompt,
    event: &Event,
) -> Result<OpenPrompt, MinusError>
    ensures { IfOk result (λ new. new ≡ fed prompt.now (edit_of event.now)) }
{
    let mut new = prompt.copied(alloc)?;
    new.feed(alloc, state.patterns(), event)?;
    Ok(new)
}

impl Held {
    ghost use Rattle.minus_c.specs.Pieces.{InState, PutsPiece, PutsRow};

    /// Where the pager stands.
    pub fn state(&self) -> State {
        match self.stage.state() {
            Some(state) if self.stage.runs() => State::of(state, RUNNING),
            Some(state) => State::of(state, OVER),
            None => match &self.stage {
                Stage::Waiting(_) => State::none(WAITING),
                _ => State::none(OVER),
            },
        }
    }

    /// A text of the pager, where there is room for it.
    pub fn text(&self, piece: u8, room: &mut [u8]) -> Found
        ensures { result.refusal ≡ 0 → InState (PutsPiece piece room.old room.new result) self.now.stage }
    {
        let Some(state) = self.stage.state() else {
            return Found::refusing(MinusError::BadMode.number());
        };
        match piece_of(state, piece) {
            Ok(text) => Found::put(text, room),
            Err(refusal) => Found::refusing(refusal),
        }
    }

    /// A row of the displayed text, where there is room for it.
    pub fn row(&self, row: usize, room: &mut [u8]) -> Found
        ensures { result.refusal ≡ 0 → InState (PutsRow row room.old room.new result) self.now.stage }
    {
        let Some(state) = self.stage.state() else {
            return Found::refusing(MinusError::BadMode.number());
        };
        match state.screen.formatted_row(self.alloc, row) {
            Ok(text) => Found::put(text.as_deref(), room),
            Err(_) => Found::refusing(MinusError::Memory.number()),
        }
    }

    /// The query that a key leaves in the search prompt, where there is room for it; nothing where none is open.
    pub fn query_after(&self, key: KeyEvent, room: &mut [u8]) -> Found {
        let Some(state) = self.stage.state() else {
            return Found::refusing(MinusError::BadMode.number());
        };
        let Some(search) = state.open_search() else {
            return Found::nothing();
        };
        match fed(self.alloc, state, &search.prompt, &Event::Key(key)) {
            Ok(prompt) => Found::put(Some(prompt.query()), room),
            Err(refusal) => Found::refusing(refusal_number(&refusal)),
        }
    }

    /// The first row of a line.
    pub fn line_first_row(&self, line: usize) -> Found {
        match self.stage.state() {
            Some(state) => Found::of(state.line_first_row(line)),
            None => Found::refusing(MinusError::BadMode.number()),
        }
    }
}
