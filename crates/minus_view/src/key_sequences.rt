//! The units of a terminal's bytes: a character, a sequence of a key or of the mouse, or a byte that is neither.
ghost use Rattle.std.specs.Prelude.{◌≡◌, ◌+◌, ◌<◌, ◌≤◌, length, IfSome};
ghost use Rattle.std.specs.List.{prefix_len};
ghost use Rattle.std.specs.Int.{is_in_range};
ghost use Rattle.minus_view.specs.KeySequences.{tail_len, more_of, character_len, final_len, parameters_len, sequence_len, escaped_len, unit_len};

/// How many parameters a sequence has at most: a longer one ends there.
const MOST_PARAMETERS: usize = 64;

/// How many bytes at the front are from `first` to `last`.
pub(crate) fn run_len(first: u8, last: u8, bytes: &[u8]) -> usize
    ensures is { result ≡ prefix_len (is_in_range first last) bytes.now }
    ensures within { result ≤ length bytes.now }
{
    for (at, byte) in bytes.iter().enumerate() {
        if !(first..=last).contains(byte) {
            return at;
        }
    }
    bytes.len()
}

// How many they are, up to `most`; nothing where the bytes end before that is known.
fn tail_len(most: usize, first: u8, last: u8, bytes: &[u8]) -> Option<usize>
    ensures is { result ≡ tail_len most first last bytes.now }
    ensures within { IfSome result (λ n. n ≤ length bytes.now) }
{
    let run = run_len(first, last, bytes);
    if run < most && run == bytes.len() {
        return None;
    }
    Some(most.min(run))
}

// How many bytes go on with a character, by its first byte.
fn more_of(byte: u8) -> usize
    ensures { result ≡ more_of byte }
{
    match byte {
        0xC2..=0xDF => 1,
        0xE0..=0xEF => 2,
        0xF0..=0xF4 => 3,
        _ => 0,
    }
}

// The length of a character that begins with `byte`.
fn character_len(byte: u8, bytes: &[u8]) -> Option<usize>
    ensures is { result ≡ character_len byte bytes.now }
    ensures within { IfSome result (λ n. n ≤ length bytes.now + 1) }
    ensures some { IfSome result (λ n. 0 < n) }
{
    match tail_len(more_of(byte), 0x80, 0xBF, bytes) {
        Some(n) => Some(n + 1),
        None => None,
    }
}

// How many bytes end a sequence with this number of parameters: one or none.
fn final_len(parameters: usize, bytes: &[u8]) -> usize
    ensures is { result ≡ final_len parameters bytes.now }
    ensures within { result ≤ length bytes.now }
{
    match bytes {
        [0x40..=0x7E, ..] if parameters < MOST_PARAMETERS => 1,
        _ => 0,
    }
}

// The length of parameters and of what ends them.
fn parameters_len(bytes: &[u8]) -> Option<usize>
    ensures is { result ≡ parameters_len bytes.now }
    ensures within { IfSome result (λ n. n ≤ length bytes.now) }
{
    match tail_len(MOST_PARAMETERS, 0x20, 0x3F, bytes) {
        Some(n) => Some(n + final_len(n, &bytes[n..])),
        None => None,
    }
}

// The length of what follows `ESC [`.
fn sequence_len(bytes: &[u8]) -> Option<usize>
    ensures is { result ≡ sequence_len bytes.now }
    ensures within { IfSome result (λ n. n ≤ length bytes.now) }
{
    match bytes {
        [] => None,
        [b'[', rest @ ..] => match tail_len(1, 0x20, 0x7E, rest) {
            Some(n) => Some(n + 1),
            None => None,
        },
        [b'M', rest @ ..] => match tail_len(3, 0x20, 0xFF, rest) {
            Some(n) => Some(n + 1),
            None => None,
        },
        _ => parameters_len(bytes),
    }
}

// The length of what follows `ESC`.
fn escaped_len(bytes: &[u8]) -> Option<usize>
    ensures is { result ≡ escaped_len bytes.now }
    ensures within { IfSome result (λ n. n ≤ length bytes.now) }
{
    match bytes {
        [] => None,
        [b'[', rest @ ..] => match sequence_len(rest) {
            Some(n) => Some(n + 1),
            None => None,
        },
        [b'O', rest @ ..] => match tail_len(1, 0x20, 0x7E, rest) {
            Some(n) => Some(n + 1),
            None => None,
        },
        [0x1B, ..] => Some(0),
        [byte, rest @ ..] => character_len(*byte, rest),
    }
}

/// How many bytes the first unit has; nothing where the bytes end before it does.
pub(crate) fn unit_len(bytes: &[u8]) -> Option<usize>
    ensures is { result ≡ unit_len bytes.now }
    ensures within { IfSome result (λ n. n ≤ length bytes.now) }
    ensures some { IfSome result (λ n. 0 < n) }
{
    match bytes {
        [] => None,
        [0x1B, rest @ ..] => match escaped_len(rest) {
            Some(n) => Some(n + 1),
            None => None,
        },
        [byte, rest @ ..] => character_len(*byte, rest),
    }
}
