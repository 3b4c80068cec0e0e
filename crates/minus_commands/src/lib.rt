//! Commands: what they ask for, the result of it, what they register to be kept, a pager in which they wait, and how
//! one is done manually.
#![tactic(auto)]

pub mod callbacks;
pub mod command_queue;
pub mod commands;
pub mod ev_handler;
pub mod laws;
pub mod outcome;
pub mod pager;
pub mod parts;
pub mod registration;
pub mod request;
