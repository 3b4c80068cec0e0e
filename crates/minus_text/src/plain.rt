//! Texts of printable ASCII, and texts without ESC.
ghost use Rattle.std.specs.Prelude.{◌≡◌, ◌≤◌, length, take, true, IsCharBoundary};
ghost use Rattle.std.specs.List.{list_all};
ghost use Rattle.minus_text.specs.Plain.{is_printable, is_unescaped};

// Whether bytes are of printable ASCII alone.
pub(crate) fn are_printable(bytes: &[u8]) -> bool
    ensures { result ≡ list_all is_printable bytes.now }
{
    let mut printable = true;
    for &b in bytes {
        printable &= matches!(b, b' '..=b'~');
    }
    printable
}

// Whether a text is of printable ASCII alone.
pub(crate) fn is_printable(text: &str) -> bool
    ensures { result ≡ list_all is_printable text.now }
{
    are_printable(text.as_bytes())
}

// How many bytes at the front of a text are of printable ASCII.
pub(crate) fn printable_front(text: &str) -> usize
    ensures within { result ≤ length text.now }
    ensures boundary { IsCharBoundary text.now result }
    ensures printable { list_all is_printable (take result text.now) ≡ true }
{
    let bytes = text.as_bytes();
    let mut at = 0;
    while at < bytes.len() && matches!(bytes[at], b' '..=b'~') {
        at += 1;
    }
    at
}

// Whether no byte is ESC.
pub(crate) fn are_unescaped(bytes: &[u8]) -> bool
    ensures { result ≡ list_all is_unescaped bytes.now }
{
    let mut unescaped = true;
    for &b in bytes {
        unescaped &= b != 0x1b;
    }
    unescaped
}

// Whether a text has no ESC: a byte that is 27 is one wherever it stands.
pub(crate) fn is_unescaped(text: &str) -> bool
    ensures { result ≡ list_all is_unescaped text.now }
{
    are_unescaped(text.as_bytes())
}
