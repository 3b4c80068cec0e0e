//! Tests of `minus_term`: the bytes and texts as a terminal's manual has them, which error comes, what is settled, and
//! which keys are equal.
mod errors;
mod events;
mod operations;
mod parts;
mod sinks;
mod terminal;
mod writes;
