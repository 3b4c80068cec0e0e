//! The result of one input.
use crate::state::ExitStrategy;

// The result of one input that was taken: the session goes on, with the text that the input copied, if it copied one;
// or it has exited so.
#[derive(Drop)]
pub(crate) enum Done {
    On(Option<String>),
    Exit(ExitStrategy, u8),
}
