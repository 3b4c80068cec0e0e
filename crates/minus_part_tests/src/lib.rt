//! Tests of what no contract says of the crates below `minus`, in a module of each, and what the tests of `minus` stand
//! on too.
#![tactic(auto)]

pub mod asked;
#[cfg(test)]
mod facts;
#[cfg(test)]
mod input;
#[cfg(test)]
mod memory;
pub mod shown;
#[cfg(test)]
mod state;
pub mod stubborn;
#[cfg(test)]
mod term;
#[cfg(test)]
mod text;
#[cfg(test)]
mod view;
