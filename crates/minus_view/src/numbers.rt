//! The numbers in a sequence.
ghost use Rattle.std.specs.Prelude.{◌≡◌, ◌+◌, ◌-◌, ◌*◌, ◌≤◌, min, option_map};
ghost use Rattle.minus_view.specs.Numbers.{number, past_number, past_semicolon};

use crate::key_sequences::run_len;

/// The number that the digits at the front make, at most 65535.
pub(crate) fn number(bytes: &[u8]) -> u16
    ensures { result ≡ number 0 bytes.now }
{
    let mut so_far = 0;
    for byte in bytes {
        match *byte {
            48..=57 => so_far = with_digit(so_far, *byte),
            _ => return so_far,
        }
    }
    so_far
}

// A number with one digit more.
fn with_digit(so_far: u16, digit: u8) -> u16
    requires least { 48 ≤ digit }
    requires most { digit ≤ 57 }
    ensures { result ≡ min (so_far * 10 + (digit - 48)) 65535 }
{
    let whole = u32::from(so_far) * 10 + u32::from(digit - 48);
    if whole < 65535 { whole as u16 } else { 65535 }
}

/// What follows the digits at the front.
pub(crate) fn past_number(bytes: &[u8]) -> &[u8]
    ensures { result.now ≡ past_number bytes.now }
{
    &bytes[run_len(b'0', b'9', bytes)..]
}

/// What follows a `;`.
pub(crate) fn past_semicolon(bytes: &[u8]) -> Option<&[u8]>
    ensures { option_map (λ s. s.now) result ≡ past_semicolon bytes.now }
{
    match bytes {
        [b';', rest @ ..] => Some(rest),
        _ => None,
    }
}
