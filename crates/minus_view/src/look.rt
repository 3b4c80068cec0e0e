//! How a character is shown: as it was struck, once, twice or with a line below it, or as one of a mark.

/// How a character is shown.
#[derive(Clone, Copy, PartialEq, Eq)]
pub(crate) enum Look {
    Plain,
    Bold,
    Underlined,
    /// In a mark of bytes that are no text.
    Reversed,
}

/// A character that may still be struck over.
#[derive(Clone, Copy)]
pub(crate) struct Glyph {
    pub(crate) c: char,
    pub(crate) look: Look,
}

/// One character over another one: the same one twice is bold, and one with `_` is underlined. Any other stands in
/// place of the first one.
pub(crate) fn struck(under: Glyph, over: char) -> Glyph {
    if under.c == over {
        return Glyph {
            c: over,
            look: Look::Bold,
        };
    }
    match (under.c, over) {
        ('_', c) | (c, '_') => Glyph {
            c,
            look: Look::Underlined,
        },
        _ => Glyph {
            c: over,
            look: Look::Plain,
        },
    }
}

/// The sequence that leads from one look to another one, and leaves the colours.
pub(crate) fn turn(from: Look, to: Look) -> &'static str {
    match (from, to) {
        (Look::Plain, Look::Bold) => "\x1b[1m",
        (Look::Plain, Look::Underlined) => "\x1b[4m",
        (Look::Plain, Look::Reversed) => "\x1b[7m",
        (Look::Bold, Look::Plain) => "\x1b[22m",
        (Look::Bold, Look::Underlined) => "\x1b[22;4m",
        (Look::Bold, Look::Reversed) => "\x1b[22;7m",
        (Look::Underlined, Look::Plain) => "\x1b[24m",
        (Look::Underlined, Look::Bold) => "\x1b[24;1m",
        (Look::Underlined, Look::Reversed) => "\x1b[24;7m",
        (Look::Reversed, Look::Plain) => "\x1b[27m",
        (Look::Reversed, Look::Bold) => "\x1b[27;1m",
        (Look::Reversed, Look::Underlined) => "\x1b[27;4m",
        _ => "",
    }
}
