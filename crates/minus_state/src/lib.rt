//! The state of a pager: its text, its marks and what is set beside them, what is selected, what of a row
//! and of the prompt row is shown, what events ask it for, the editor of a search prompt's query, and the
//! callbacks of hooks and exits.
#![tactic(auto)]

pub mod change;
mod clamped_mark;
pub mod copied;
pub mod exits;
mod frame;
pub mod hooks;
pub mod input;
pub mod kept;
pub mod line_bounds;
pub mod prompt;
pub mod rendering;
pub mod search;
pub mod selection;
pub mod showing;
pub mod state;
mod typed_prefix;
pub mod view;
pub mod visible;
mod writing;

pub use change::{AppendStyle, Change, MessageChange, NextText, Redraw};
pub use copied::extract_selection;
pub use exits::{ExitCall, ExitCallbacks};
pub use hooks::{HookCall, HookId, HookList, is_reserved};
pub use input::{InputClassifier, InputEvent};
pub use kept::{ExitCallback, HookCallback, Hooks, KeptExit, KeptHook, NeverCalled};
pub use line_bounds::get_horizontal_scroll_bounds;
pub use prompt::{PromptRow, format_prompt, prompt_fills_its_row};
pub use rendering::{
    render_rows_for_display, selection_adds_markers_alone, shown_rows_are_closed, shown_rows_fit,
};
pub use search::condition::{ConditionCall, KeptCondition, NeverShows, SearchCondition};
pub use search::keys::{QueryEdit, edit_of};
pub use search::matches::Matches;
pub use search::open_prompt::OpenPrompt;
pub use search::open_search::{OpenSearch, SearchChange};
pub use search::opts::{IncrementalSearchOpts, SearchOpts, search_opts};
pub use search::preview::{confirmed_rows, incremental_preview};
pub use search::query::{Fed, QueryEditor};
pub use search::{InputStatus, SearchMode, SearchState};
pub use selection::{Selection, SelectionEnds, marked_range};
pub use showing::{ShownRow, ShownRows};
pub use state::help::{HelpChange, Saved};
pub use state::{ExitStrategy, PagerState, RunMode, has_newline, is_size};
pub use typed_prefix::typed_digit;
pub use view::{View, selection_from_coordinates};
pub use visible::{
    highlight_visible_range, markers_alone_are_added, place_after_visible, place_of_visible,
};
