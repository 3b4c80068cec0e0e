//! What a call tells its caller.
ghost use Rattle.std.specs.Prelude.{◌≡◌};
ghost use Rattle.minus_c.specs.Refused.{refusal_number};

use minus::{Answer, ExitStrategy, MinusError};

/// The number of a refusal that has none of its own.
pub const OTHER: u8 = 253;

/// The number of the refusal where a text is not UTF-8.
pub const NOT_UTF8: u8 = 254;

/// The number of the refusal where a number stands for nothing.
pub const BAD_ARGUMENT: u8 = 255;

/// What a call tells its caller.
#[repr(C)]
#[derive(Clone, Copy, Drop)]
pub struct Told {
    /// The number of the refusal; 0 where the call went through.
    pub refusal: u8,
    /// Whether the pager has exited in the call, or wrote its text and pages none.
    pub exited: bool,
    /// Whether it has exited, and the process is to end.
    pub quits: bool,
    /// The code that the process is to end with.
    pub code: u8,
    /// Whether a text was copied in the call.
    pub copied: bool,
    /// Whether inputs that had waited were refused in the call.
    pub refused: bool,
    /// How many bytes wait to be taken.
    pub written: usize,
}

/// The number of a refusal: never 0.
pub fn refusal_number(refusal: &MinusError) -> u8
    ensures { result ≡ refusal_number refusal.now }
{
    match refusal.number() {
        0 => OTHER,
        number => number,
    }
}

impl Told {
    ghost use Rattle.minus_c.specs.HeldSteps.{told_by, refusing};

    /// The call was refused.
    pub fn refusing(refusal: u8, written: usize) -> Told
        ensures { result ≡ refusing refusal written }
    {
        Told {
            refusal,
            exited: false,
            quits: false,
            code: 0,
            copied: false,
            refused: false,
            written,
        }
    }

    /// The call went through, and the pager goes on.
    pub fn done(written: usize) -> Told
        ensures { result ≡ refusing 0 written }
    {
        Told::refusing(0, written)
    }

    /// A step answered this.
    pub fn of_answer(answer: &Answer, written: usize) -> Told
        ensures { result ≡ told_by answer.now written }
    {
        let (exited, quits, code) = match answer.exited {
            None => (false, false, 0),
            Some((ExitStrategy::ProcessQuit, code)) => (true, true, code),
            Some((ExitStrategy::PagerQuit, code)) => (true, false, code),
        };
        Told {
            refusal: 0,
            exited,
            quits,
            code,
            copied: answer.copied.is_some(),
            refused: !answer.refused.is_empty(),
            written,
        }
    }
}
