//! What a program needs around a pager: the events of a terminal, from the bytes that it sends; the bytes of a file
//! as a text that a pager can show; the program's arguments; and the text of the prompt row.
#![tactic(auto)]

mod arguments;
mod events;
mod history;
mod key_sequences;
mod keys;
mod look;
mod meaning;
mod mouse;
mod numbers;
mod prepare;
mod prompt_place;
mod search_keys;
mod sheet;
mod shown;
mod tab_marks;
mod text_queue;

pub use arguments::{ArgumentFault, Arguments, AtEnd, Case, Opening, Paging, parse_arguments};
pub use events::{pieces_join, read_events, read_late_events, read_unit, units_are_determined};
pub use history::{History, steps_lead_back};
pub use keys::press;
pub use prepare::{Preparation, Shape, plain_text_stays};
pub use prompt_place::{Place, percent, place_text};
pub use search_keys::{SearchKey, search_key};
pub use shown::{shown_texts_are_clean, shown_texts_join};
pub use tab_marks::{Tab, Unmarked, marks_are_taken_out, tabs_come_back, take_marks, with_tabs};
pub use text_queue::TextQueue;
