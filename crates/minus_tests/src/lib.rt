//! Tests of what no contract and no case says: worked sessions with the pages and the bytes that they must have, sinks
//! that refuse, refused memory, odd inputs and long runs for `minus`; those of `minus_script`, in a module of its own.
#![tactic(auto)]

#[cfg(test)]
mod asks;
#[cfg(test)]
mod callers;
#[cfg(test)]
mod calls;
#[cfg(test)]
mod classifiers;
#[cfg(test)]
mod commands;
#[cfg(test)]
mod conditions;
#[cfg(test)]
mod cuts;
#[cfg(test)]
mod drawings;
#[cfg(test)]
mod endings;
#[cfg(test)]
mod exchanges;
#[cfg(test)]
mod facts;
#[cfg(test)]
mod handled;
#[cfg(test)]
mod helps;
#[cfg(test)]
mod hooks;
#[cfg(test)]
mod keys;
#[cfg(test)]
mod large;
#[cfg(test)]
mod matches;
#[cfg(test)]
mod memory;
#[cfg(test)]
mod names;
#[cfg(test)]
mod paging;
#[cfg(test)]
mod plain_sessions;
#[cfg(test)]
mod refusals;
#[cfg(test)]
mod script;
#[cfg(test)]
mod searches;
#[cfg(test)]
mod sessions;
#[cfg(test)]
mod settles;
#[cfg(test)]
mod shared;
#[cfg(test)]
mod sinks;
#[cfg(test)]
mod starts;
#[cfg(test)]
mod states;
#[cfg(test)]
mod table_rows;
#[cfg(test)]
mod term_changes;
#[cfg(test)]
mod told;
#[cfg(test)]
mod written_rows;
