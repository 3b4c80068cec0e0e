//! The text of a pager.
ghost use Rattle.std.specs.Prelude.{◌≡◌, true, IsUtf8};

use crate::kept::{Handed, Kept, hand_back, opened};
use crate::told::Told;
use minus::CommandOf;

/// Puts a text in the place of all text.
#[unsafe(no_mangle)]
pub extern "C" fn minus_set_text(kept: Kept, text: &[u8], out: &mut Handed) -> Told
    ensures given { out.new.given ≡ true }
    ensures bad { (IsUtf8 text.now → ⊥) → result.refusal ≡ 254 }
{
    let mut held = opened(kept);
    let answer = match held.copied(text) {
        Ok(text) => held.tell(CommandOf::SetData(text)),
        Err(refusal) => held.refuse(refusal),
    };
    hand_back(held, out, answer)
}

/// Adds a text at the end.
#[unsafe(no_mangle)]
pub extern "C" fn minus_push(kept: Kept, text: &[u8], out: &mut Handed) -> Told
    ensures given { out.new.given ≡ true }
    ensures bad { (IsUtf8 text.now → ⊥) → result.refusal ≡ 254 }
{
    let mut held = opened(kept);
    let answer = match held.copied(text) {
        Ok(text) => held.tell(CommandOf::AppendData(text)),
        Err(refusal) => held.refuse(refusal),
    };
    hand_back(held, out, answer)
}

/// Makes room for this many bytes of text more.
#[unsafe(no_mangle)]
pub extern "C" fn minus_reserve(kept: Kept, bytes: usize, out: &mut Handed) -> Told
    ensures given { out.new.given ≡ true }
{
    let mut held = opened(kept);
    let answer = held.reserve(bytes);
    hand_back(held, out, answer)
}
