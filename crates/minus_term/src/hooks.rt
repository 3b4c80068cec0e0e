//! When the pager calls back.

/// A moment at which the pager runs the callbacks that were added for it.
#[derive(Clone, Copy, Debug, PartialEq, Eq, Hash)]
pub enum Hook {
    /// Before the terminal is set up.
    PrePagerStart,
    /// After the first page was drawn.
    PostPagerStart,
    /// After a move of the page reached the end of the text.
    EofReached,
    /// Before the pager exits.
    PrePagerExit,
    /// After the terminal was cleaned up.
    PostPagerExit,
}
