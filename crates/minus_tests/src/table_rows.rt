//! Conditions of the table of commands and events, a row each: what is asked for, and what the last of it comes to.
//! Where memory runs out, each answer is `false` or none.

mod bindings;
mod handed;

const TYPED_ROW: &str = "\x1b[2;40;37mminus            \x1b[30;43m 5 \x1b[0m";
