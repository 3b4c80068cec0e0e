//! The tests of programs that page on a terminal: over a fake keyboard, and over a sink that keeps what it is sent.
#![tactic(auto)]

mod calls;
mod lines;
mod programs;
mod session;
mod typed;
