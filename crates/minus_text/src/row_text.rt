//! The texts of rows, with a place in each from which on it has no escape sequence.
ghost use Rattle.std.specs.Prelude.{◌≡◌, ℕ, List, ◌++◌, ◌+◌, ◌^◌, ◌<◌, length};
ghost use Rattle.minus_text.specs.RowText.{IsUnescapedFrom, IsUnescapedFrom-prop};

use memchr::memrchr;

const ESC: u8 = 0x1b;

// A place of a text with a piece behind it, from which on no byte is ESC. Such a place of the text, which has this many
// bytes, is known, so that the piece alone is read.
pub(crate) fn escapes_end(known: usize, len: usize, piece: &str) -> usize
    requires { len + length piece.now < 2 ^ 64 }
    ensures { (text : List ℕ) → len ≡ length text → IsUnescapedFrom known text →
        IsUnescapedFrom result (text ++ piece.now) }
{
    match memrchr(ESC, piece.as_bytes()) {
        Some(last) => len + last + 1,
        None => known,
    }
}

/// The text of a row, and a place in it from which on it has no escape sequence: what stands behind that needs not to
/// be read for being one. `RowsView::row_text` makes it.
#[derive(Clone, Copy)]
pub struct RowText<'t> {
    pub(crate) text: &'t str,
    pub(crate) escapes_end: usize,
    pub(crate) ghost plain: { IsUnescapedFrom escapes_end text.now } by { IsUnescapedFrom-prop escapes_end text.now },
}

impl<'t> RowText<'t> {
    /// A text of which nothing is known. It is read from its end to its last escape sequence.
    pub fn new(text: &'t str) -> RowText<'t>
        ensures { result.text.now ≡ text.now }
    {
        RowText {
            text,
            escapes_end: escapes_end(0, 0, text),
        }
    }

    /// The text alone.
    pub fn as_str(self) -> &'t str
        ensures { result.now ≡ self.entry.text.now }
    {
        self.text
    }
}
