//! What was typed before a key: its number, the key that waits for it, and Esc.
use crate::view::moves::remember;
use std::mem;

/// What the next key is typed for.
#[derive(Clone, Copy, PartialEq, Eq)]
pub enum Pending {
    /// The letter that this place is kept under.
    SetMark,
    /// The letter of the place to go to.
    GoToMark,
    /// The letter of an option.
    Option,
    /// The letter of a command.
    Command,
    /// The key that ends the program when it is typed twice.
    End,
    /// A line with which nothing is done.
    Line,
}

impl Pending {
    /// What the prompt row says until the key is typed.
    pub fn text(self) -> &'static str {
        match self {
            Pending::SetMark => "set mark: ",
            Pending::GoToMark => "go to mark: ",
            Pending::Option => "-",
            Pending::Command => ":",
            Pending::End => "Z",
            Pending::Line => "not done here, up to Enter: ",
        }
    }
}

/// What was typed before the key whose action is being done.
#[derive(Clone, Copy, Default)]
pub struct Typed {
    // The number.
    pub(super) count: Option<usize>,
    // The numbers that were typed last before the keys that move by half a page, down or up and to the side.
    half_page: Option<usize>,
    half_width: Option<usize>,
    // What the next key is typed for.
    pub(super) pending: Option<Pending>,
    // Whether the last key was Esc.
    was_escape: bool,
}

impl Typed {
    /// Keeps the number before a key that moves by half a page, down or up, and answers the one that holds.
    pub(super) fn remember_half_page(&mut self) -> Option<usize> {
        remember(&mut self.half_page, self.count)
    }

    /// Keeps the number before a key that moves by half a page to the side, and answers the one that holds.
    pub(super) fn remember_half_width(&mut self) -> Option<usize> {
        remember(&mut self.half_width, self.count)
    }

    /// Keeps whether a key is Esc, and answers whether the one before it was.
    pub(super) fn heed_escape(&mut self, is_escape: bool) -> bool {
        mem::replace(&mut self.was_escape, is_escape)
    }
}
