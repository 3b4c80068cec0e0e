//! What values are shown as, and the rows that a state has. Where memory runs out, the answer is `false`.

use std::alloc::Global;
use std::fmt;

/// Whether a value is shown as this text.
pub fn is_shown<T: fmt::Display>(alloc: Global, value: &T, text: &str) -> bool {
    let mut shown = String::new(alloc);
    write!(shown, "{value}").is_ok() && shown.as_str() == text
}

/// Whether a value is shown to a programmer as this text.
pub fn is_debugged<T: fmt::Debug>(alloc: Global, value: &T, text: &str) -> bool {
    let mut shown = String::new(alloc);
    write!(shown, "{value:?}").is_ok() && shown.as_str() == text
}
