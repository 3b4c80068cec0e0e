//! How programs call the pager: one that pushes lines while the text is followed, one that fetches more of a text when
//! the reader comes to its end, one with a key of its own, and one that runs commands manually.
#![tactic(auto)]

mod by_hand;
mod fetcher;
mod follower;
mod report;

pub use by_hand::perform;
pub use fetcher::{FetcherKinds, NotesEnd, fetch, page_beginning};
pub use follower::{follow, push_line, push_lines};
pub use report::{GoToLine, ReportKeys, ReportKinds, page_report, report_keys};
