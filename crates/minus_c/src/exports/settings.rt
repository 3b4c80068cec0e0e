//! The settings of a pager.
ghost use Rattle.std.specs.Prelude.{◌≡◌, true, None, IsUtf8};
ghost use Rattle.minus_c.specs.EnumNumbers.{line_numbers_of, exit_strategy_of};

use crate::enum_numbers::{exit_strategy_of, line_numbers_of};
use crate::kept::{Handed, Kept, hand_back, opened};
use crate::told::{BAD_ARGUMENT, Told};
use minus::CommandOf;

/// Lets the prompt row say this.
#[unsafe(no_mangle)]
pub extern "C" fn minus_set_prompt(kept: Kept, text: &[u8], out: &mut Handed) -> Told
    ensures given { out.new.given ≡ true }
    ensures bad { (IsUtf8 text.now → ⊥) → result.refusal ≡ 254 }
{
    let mut held = opened(kept);
    let answer = match held.copied(text) {
        Ok(text) => held.tell(CommandOf::SetPrompt(text)),
        Err(refusal) => held.refuse(refusal),
    };
    hand_back(held, out, answer)
}

/// Lets the prompt row say this in the prompt's place, until the message goes.
#[unsafe(no_mangle)]
pub extern "C" fn minus_send_message(kept: Kept, text: &[u8], out: &mut Handed) -> Told
    ensures given { out.new.given ≡ true }
    ensures bad { (IsUtf8 text.now → ⊥) → result.refusal ≡ 254 }
{
    let mut held = opened(kept);
    let answer = match held.copied(text) {
        Ok(text) => held.tell(CommandOf::SendMessage(text)),
        Err(refusal) => held.refuse(refusal),
    };
    hand_back(held, out, answer)
}

/// Shows the prompt row, or hides it.
#[unsafe(no_mangle)]
pub extern "C" fn minus_show_prompt(kept: Kept, is_shown: bool, out: &mut Handed) -> Told
    ensures given { out.new.given ≡ true }
{
    let mut held = opened(kept);
    let answer = held.tell(CommandOf::ShowPrompt(is_shown));
    hand_back(held, out, answer)
}

/// Lets rows begin with the numbers of their lines, or not.
#[unsafe(no_mangle)]
pub extern "C" fn minus_set_line_numbers(kept: Kept, numbers: u8, out: &mut Handed) -> Told
    ensures given { out.new.given ≡ true }
    ensures bad { line_numbers_of numbers ≡ None → result.refusal ≡ 255 }
{
    let mut held = opened(kept);
    let answer = match line_numbers_of(numbers as usize) {
        Some(numbers) => held.tell(CommandOf::SetLineNumbers(numbers)),
        None => held.refuse(BAD_ARGUMENT),
    };
    hand_back(held, out, answer)
}

/// Lets each line be one row, or wraps long lines.
#[unsafe(no_mangle)]
pub extern "C" fn minus_horizontal_scroll(kept: Kept, on: bool, out: &mut Handed) -> Told
    ensures given { out.new.given ≡ true }
{
    let mut held = opened(kept);
    let answer = held.tell(CommandOf::LineWrapping(!on));
    hand_back(held, out, answer)
}

/// Moves to the last page, and goes on with what is appended, or no longer.
#[unsafe(no_mangle)]
pub extern "C" fn minus_follow_output(kept: Kept, follow: bool, out: &mut Handed) -> Told
    ensures given { out.new.given ≡ true }
{
    let mut held = opened(kept);
    let answer = held.tell(CommandOf::FollowOutput(follow));
    hand_back(held, out, answer)
}

/// Says how the program is to go on after an exit.
#[unsafe(no_mangle)]
pub extern "C" fn minus_set_exit_strategy(kept: Kept, strategy: u8, out: &mut Handed) -> Told
    ensures given { out.new.given ≡ true }
    ensures bad { exit_strategy_of strategy ≡ None → result.refusal ≡ 255 }
{
    let mut held = opened(kept);
    let answer = match exit_strategy_of(strategy) {
        Some(strategy) => held.tell(CommandOf::SetExitStrategy(strategy)),
        None => held.refuse(BAD_ARGUMENT),
    };
    hand_back(held, out, answer)
}

/// Pages even a text that fits, or writes it.
#[unsafe(no_mangle)]
pub extern "C" fn minus_set_run_no_overflow(kept: Kept, on: bool, out: &mut Handed) -> Told
    ensures given { out.new.given ≡ true }
{
    let mut held = opened(kept);
    let answer = held.tell(CommandOf::SetRunNoOverflow(on));
    hand_back(held, out, answer)
}

/// Searches in each line, or in each row by itself.
#[unsafe(no_mangle)]
pub extern "C" fn minus_set_match_lines(kept: Kept, on: bool, out: &mut Handed) -> Told
    ensures given { out.new.given ≡ true }
{
    let mut held = opened(kept);
    let answer = held.tell(CommandOf::SetMatchLines(on));
    hand_back(held, out, answer)
}

/// Puts each row with the style that its line carries to it, or rows as their texts are.
#[unsafe(no_mangle)]
pub extern "C" fn minus_set_carry_style(kept: Kept, on: bool, out: &mut Handed) -> Told
    ensures given { out.new.given ≡ true }
{
    let mut held = opened(kept);
    let answer = held.tell(CommandOf::SetCarryStyle(on));
    hand_back(held, out, answer)
}

/// Says whether the page shows where a query leads while it is typed.
#[unsafe(no_mangle)]
pub extern "C" fn minus_show_search(kept: Kept, is_shown: bool, out: &mut Handed) -> Told
    ensures given { out.new.given ≡ true }
{
    let mut held = opened(kept);
    let answer = held.show_search(is_shown);
    hand_back(held, out, answer)
}
