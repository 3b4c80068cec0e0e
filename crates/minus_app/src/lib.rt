//! A library for programs that page on a terminal: the keys, the terminal's size, the text as it grows, and the loop
//! around a session. The launcher `bin/minus-run` sets the terminal's mode, runs such a program, and hands the terminal
//! back.
#![tactic(auto)]

mod app;
mod clipboard;
mod fault;
mod hand_on;
mod keyboard;
mod keys;
mod launch;
mod links;
mod options;
mod paging;
mod preview;
mod program;
mod prompt;
mod size;
mod text;
mod view;
mod view_action;

pub use app::{App, Fed, Flow, Neighbour, NoAct};
pub use fault::Fault;
pub use keyboard::Keyboard;
pub use keys::{AppKeys, KeyAction};
pub use launch::Launch;
pub use links::Links;
pub use minus_view::{AtEnd, Case, Opening};
pub use options::Options;
pub use paging::{end_program, page_all, print, run};
pub use program::{Program, Terminal};
pub use prompt::Notice;
pub use size::Size;
pub use text::Text;
pub use view::View;
pub use view_action::ViewAction;
