//! Tests of `minus_input`: worked descriptions, names of keys and a worked help table.
mod names;
