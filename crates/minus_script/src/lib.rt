//! Runs scripts of commands: what a pager shows after them, or writes, is printed.
#![tactic(auto)]

mod arguments;
mod described_events;
mod fault;
mod keys;
mod printed;
mod program;
mod reading;
mod run;
mod script;

pub use arguments::{Arguments, Mode, parse_arguments};
pub use fault::{ScriptFault, Stream};
pub use keys::{DefaultKeys, NoCallback, ScriptKinds};
pub use printed::{print_row, print_rows, printed_rows_read_back, write_out};
pub use program::{ProgramFault, run_to_end, run_words};
pub use reading::read_script;
pub use run::run_script;
pub use script::{ScriptInput, parse_script};
