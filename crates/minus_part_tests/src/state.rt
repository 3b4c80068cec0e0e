//! Tests of `minus_state`: worked rows.
mod full_queries;
mod hooks;
mod previews;
mod queries;
pub mod terms;
