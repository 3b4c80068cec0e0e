//! The numbers of lines, and the columns of what stands before the rows of a text that has them.
ghost use Rattle.std.specs.Prelude.{◌≡◌, ◌≤◌, length};
ghost use Rattle.std.specs.Fmt.{decimal};
ghost use Rattle.minus_text.specs.NumberPrefix.{is_on, toggled, padding, prefix_columns, NumbersToggleTwice};

use std::ops::Not;

/// Whether rows begin with the numbers of their lines. `!` exchanges `Enabled` and `Disabled`; the
/// other two stay.
#[derive(Clone, Copy, Debug, PartialEq, Eq)]
pub enum LineNumbers {
    /// They do, and `!` leaves it so.
    AlwaysOn,
    /// They do.
    Enabled,
    /// They do not.
    Disabled,
    /// They do not, and `!` leaves it so.
    AlwaysOff,
}

impl LineNumbers {
    /// Whether rows begin with numbers.
    pub fn is_on(self) -> bool
        ensures { result ≡ is_on self }
    {
        matches!(self, LineNumbers::AlwaysOn | LineNumbers::Enabled)
    }
}

impl Not for LineNumbers {
    type Output = LineNumbers;

    ghost not_gives = { λ numbers r. r ≡ toggled numbers };

    fn not(self) -> LineNumbers {
        match self {
            LineNumbers::AlwaysOn => LineNumbers::AlwaysOn,
            LineNumbers::Enabled => LineNumbers::Disabled,
            LineNumbers::Disabled => LineNumbers::Enabled,
            LineNumbers::AlwaysOff => LineNumbers::AlwaysOff,
        }
    }
}

/// How many decimal digits a number has: 1 for 0, and 20 at most.
pub fn digits(number: usize) -> usize
    ensures value { result ≡ length (decimal number) }
    ensures few { result ≤ 20 }
{
    match number.checked_ilog10() {
        Some(power) => power as usize + 1,
        None => 1,
    }
}

// The columns of a number with its stop, where the text has this many lines.
fn padding(line_count: usize) -> usize
    ensures value { result ≡ padding line_count }
    ensures few { result ≤ 26 }
{
    digits(line_count) + 6
}

/// The columns before the text of a row, where numbers are on or not and the text has this many lines.
pub fn prefix_columns(numbers: bool, line_count: usize) -> usize
    ensures value { result ≡ prefix_columns numbers line_count }
    ensures few { result ≤ 27 }
{
    if !numbers {
        return 0;
    }
    padding(line_count) + 1
}

/// Line numbers exchanged twice are as they were, and those that are always on or always off stay.
pub fn numbers_toggle_twice()
    ensures { NumbersToggleTwice }
{}
