//! Tests of keys and of the mouse: what the two tables of default keys answer, registers, classifiers that a session is
//! given, and sessions that are led by keys.
mod boxes;
mod defaults;
mod exact;
mod helps;
mod registers;
mod wide;
