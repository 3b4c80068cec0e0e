//! A pager over any sink: commands go in one at a time, and each leaves its page on the sink.
//!
//! A program names this crate alone: what it needs of the lower crates stands here too, by what it is for, and under the
//! Rust crate's modules. [`laws`] has what is proved of definitions, and is called by nobody. What the crates use of one
//! another alone stands in these (the parts of a drawing's bytes, what is formed before it is placed).
#![tactic(auto)]

mod answer;
mod done;
mod exchange;
mod init;
pub mod input;
mod joined;
pub mod laws;
mod run;
mod session;
mod session_drawings;
mod starts;
mod static_pager;
mod status;
mod term_change;
mod waiting;
mod works;

/// Why calls are refused.
pub mod error {
    pub use minus_term::error::{
        CleanupError, DescriptionError, MinusError, RegexError, SetupError, TermError,
    };
}

/// The names of keys, and the table of them that a help page shows.
pub mod help {
    pub use minus_input::help_table::{format_help_table_from_entries, format_key};
}

/// When the pager calls back, and what is called.
pub mod hooks {
    pub use minus_state::exits::{ExitCall, ExitCallbacks};
    pub use minus_state::hooks::{HookCall, HookId, HookList, is_reserved};
    pub use minus_state::kept::{
        ExitCallback, HookCallback, Hooks, KeptExit, KeptHook, NeverCalled,
    };
    pub use minus_term::hooks::Hook;
}

/// The store of a text with its rows.
pub mod screen {
    pub use minus_text::screen::{
        FormatResult, Line, OwnedTextBlock, Row, Rows, Screen, TextBlock,
    };
    pub use minus_text::{
        AppendableBuffer, FormatOpts, FormattedRow, ReusableRows, SearchFormattedRow,
        format_lines_into, format_search_rows, format_text_block,
    };
}

/// Search in texts, the editor of a query, and where a query leads.
pub mod search {
    pub use minus_state::search::condition::{
        ConditionCall, KeptCondition, NeverShows, SearchCondition,
    };
    pub use minus_state::search::matches::Matches;
    pub use minus_state::search::open_prompt::OpenPrompt;
    pub use minus_state::search::opts::{IncrementalSearchOpts, SearchOpts, search_opts};
    pub use minus_state::search::preview::incremental_preview;
    pub use minus_state::search::{InputStatus, SearchMode};
    pub use minus_text::search::{
        HighlightMatchesArgs, Patterns, Term, highlight_line_matches, next_nth_match, strip_escapes,
    };
}

/// What takes the pager's bytes, and what is written to it.
pub mod sink {
    pub use minus_term::sink::{OutputSink, draw_bytes, write_bytes};
    pub use minus_term::term::{cleanup, setup};
    pub use minus_term::with_tty::WithTty;
    pub use minus_term::writes::{clear_entire_screen, move_cursor, write_raw_lines};
}

/// What is displayed, and how.
pub mod state {
    pub use minus_state::search::SearchState;
    pub use minus_state::selection::Selection;
    pub use minus_state::state::{ExitStrategy, PagerState, RunMode};
}

// Paging: a text that is there, or one that grows.
pub use init::{StartError, dynamic_paging};
pub use minus_commands::pager::{Pager, PagerOf};
pub use static_pager::{Paged, PagedOf, page_all, page_all_with};

// Sessions: a step, a run, their answers.
pub use answer::Answer;
pub use exchange::SinkError;
pub use init::{StartErrorOf, init_core, init_core_with};
pub use minus_commands::parts::{Boxes, Calls, Keyed, Kinds, PagerParts, Parts, PartsOf};
pub use run::{Ran, RanOf};
pub use session::{Core, Session};
pub use state::RunMode;

// Commands and inputs, and those that are handled manually.
pub use minus_commands::command_queue::{CommandQueue, CommandQueueOf};
pub use minus_commands::commands::{Command, CommandOf, Input, InputOf, IoCommand};
pub use minus_commands::ev_handler::{Handled, handle_event, handle_io_command};
pub use state::ExitStrategy;

// Events, what they ask for, and what decides that.
pub use help::{format_help_table_from_entries, format_key};
pub use input::crossterm_event::{
    Event, KeyCode, KeyEvent, KeyEventKind, KeyEventState, KeyModifiers, MouseButton, MouseEvent,
    MouseEventKind,
};
pub use input::{
    ActionCall, ActionCallback, ActionOf, Classifier, DefaultAction, DefaultInputClassifier,
    EventForm, EventTable, EventWrapper, FixedSeed, HashedEventRegister, InputClassifier,
    InputEvent, KeptAction, generate_default_bindings, modifier_of, parse_key_event,
    parse_mouse_event,
};
pub use minus_input::{KeySeq, parse_usize};
pub use minus_term::event::equality::NormalKey;

// Hooks and callbacks.
pub use hooks::{
    ExitCall, ExitCallback, ExitCallbacks, Hook, HookCall, HookCallback, HookId, HookList, Hooks,
    KeptExit, KeptHook, NeverCalled, is_reserved,
};

// What is displayed: the state, its changes, the prompt row, a selection.
pub use minus_state::{
    AppendStyle, Change, Fed, HelpChange, MessageChange, NextText, OpenSearch, PromptRow,
    QueryEdit, QueryEditor, Redraw, Saved, SearchChange, SelectionEnds, ShownRow, ShownRows, View,
    confirmed_rows, edit_of, extract_selection, format_prompt, get_horizontal_scroll_bounds,
    has_newline, highlight_visible_range, is_size, marked_range, place_after_visible,
    place_of_visible, render_rows_for_display, selection_from_coordinates,
};
pub use state::{PagerState, SearchState, Selection};

// Search, its prompt, and where a query leads.
pub use search::{
    ConditionCall, HighlightMatchesArgs, IncrementalSearchOpts, InputStatus, KeptCondition,
    Matches, NeverShows, OpenPrompt, Patterns, SearchCondition, SearchMode, SearchOpts, Term,
    highlight_line_matches, incremental_preview, next_nth_match, search_opts, strip_escapes,
};

// Texts, their lines and rows.
pub use minus_text::search::styles::closing;
pub use minus_text::{
    Findings, Layout, LineNumbers, LinesRowMap, MatchedText, PendingPush, RowPlace, RowText,
    RowsView, Span, Unit, Units, ViewedRow, Window, columns, crop_columns, digits, fit_columns,
    format_line, join_lines, last_line_end, prefix_columns, word_starts, wrap_line,
};
pub use screen::{
    AppendableBuffer, FormatOpts, FormatResult, FormattedRow, Line, OwnedTextBlock, ReusableRows,
    Row, Rows, Screen, SearchFormattedRow, TextBlock, format_lines_into, format_search_rows,
    format_text_block,
};

// Sinks, and what is drawn on them.
pub use minus_draw::page::Page;
pub use minus_draw::sink_calls::{
    draw_append_text, draw_for_change, draw_full, write_from_pagerstate, write_prompt,
};
pub use minus_draw::written_rows::{
    write_lines, write_lines_in_horizontal_scroll, write_text_checked,
};
pub use minus_term::{
    DrawOp, page_len, top_of, write_op, write_ops, write_search_cursor, write_search_opening,
};
pub use sink::{
    OutputSink, WithTty, cleanup, clear_entire_screen, draw_bytes, move_cursor, setup, write_bytes,
    write_raw_lines,
};

// Refusals.
pub use error::{CleanupError, DescriptionError, MinusError, RegexError, SetupError, TermError};
