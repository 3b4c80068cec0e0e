//! How a page is drawn: the drawing of a change and its bytes, a page as texts, what is drawn on a sink at once, and
//! stored rows that are written without a state.
#![tactic(auto)]

mod append_drawing;
pub mod drawings;
pub mod laws;
pub mod page;
mod page_drawing;
mod prompt_row_drawing;
mod scroll_drawing;
pub mod search_prompt_drawing;
pub mod sink_calls;
pub mod written_rows;
