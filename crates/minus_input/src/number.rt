//! Numbers that are typed or written.
ghost use Rattle.std.specs.Prelude.{◌≡◌};
ghost use Rattle.minus_input.specs.Number.{usize_of, UsizeIsParsed};

/// The number that a text writes as `str::parse` reads it, if it fits a `usize`.
pub fn parse_usize(text: &str) -> Option<usize>
    ensures { result ≡ usize_of text.now }
{
    text.parse::<usize>().ok()
}

/// A law: the number of a text is the one that `str::parse` reads.
pub fn usize_of_is_what_parse_reads()
    ensures { UsizeIsParsed }
{}
