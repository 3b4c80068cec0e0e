//! Tests of `minus_script`: scripts, rows and arguments as a person writes them, the texts of the faults, and readers
//! and writers that stop or never end.
mod doubles;
mod parsing;
mod printing;
mod program;
mod reading;
mod runs;
mod words;
