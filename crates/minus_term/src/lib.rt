//! What a pager needs of its terminal: the events that it tells, the operations that it draws by
//! and the bytes that they are, a screen as far as it is known, sinks that take the bytes, and the
//! errors of all this.
#![tactic(auto)]

pub mod draw;
pub mod error;
pub mod event;
mod full_redraw;
pub mod hooks;
mod page_parts;
pub mod page_rows;
pub mod search_prompt;
pub mod sink;
pub mod sinks;
pub mod term;
pub mod top;
pub mod with_tty;
pub mod wrappers;
pub mod writes;

pub use draw::{
    DrawOp, append_puts_few, append_shows_its_page, full_redraw_puts_few,
    full_redraw_shows_its_page, play_is_monotone, scroll_puts_few, scroll_shows_its_page,
    the_unknown_screen_stands_for_all, write_op, write_ops,
};
pub use error::{CleanupError, DescriptionError, MinusError, RegexError, SetupError, TermError};
pub use event::equality::{
    NormalKey, equal_keys_hash_equally, keys_of_one_normal_form_are_equal,
    letters_with_shift_are_capitals,
};
pub use event::{
    Event, KeyCode, KeyEvent, KeyEventKind, KeyEventState, KeyModifiers, MouseButton, MouseEvent,
    MouseEventKind,
};
pub use full_redraw::{
    write_page, write_page_start, write_prompt_row, write_row, write_row_end, write_row_start,
};
pub use hooks::Hook;
pub use page_parts::{write_closing_start, write_down_start, write_up_start};
pub use page_rows::page_len;
pub use search_prompt::{
    closing_puts_few, closing_shows_its_page, cursor_shows_its_page, edit_puts_few,
    edit_shows_its_page, opening_puts_none, opening_shows_its_page, write_search_cursor,
    write_search_opening,
};
pub use sink::{OutputSink, draw_bytes, write_bytes};
pub use term::{cleanup, setup};
pub use top::top_of;
pub use with_tty::WithTty;
pub use writes::{clear_entire_screen, move_cursor, write_raw_lines};
