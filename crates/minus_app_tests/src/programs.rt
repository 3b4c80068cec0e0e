//! The programs that CALLING.md shows, so that they are proved.
mod closures;
mod log;
mod seconds;
mod there;
