//! What stands before a row: the number of its line before its first row, and blanks before its others.
ghost use Rattle.std.specs.Prelude.{◌≡◌, ◌+◌, ◌-◌, ◌++◌, length, replicate, OnOk, Some};
ghost use Rattle.std.specs.Fmt.{decimal};
ghost use Rattle.minus_text.specs.NumberPrefix.{numbered};
ghost use Rattle.minus_text.specs.Formatted.{prefix_of};

use crate::line_numbers::{digits, prefix_columns};
use crate::push_text::PushText;
use crate::spaces::push_spaces;
use itoa::Buffer;
use std::alloc::AllocError;
use std::fmt;

// Bytes enough for what stands before a row.
const ROOM: usize = 48;

// This many blanks.
#[derive(Clone, Copy)]
struct Blanks(usize);

impl fmt::Display for Blanks {
    ghost output = { λ b. Some (replicate b.0 32) };

    fn fmt<W: fmt::Write>(&self, f: &mut fmt::Formatter<W>) -> fmt::Result {
        for _i in 0..self.0 {
            write!(f, " ")?;
        }
        Ok(())
    }
}

// What stands before a row.
#[derive(Clone, Copy)]
pub(crate) struct RowPrefix {
    pub(crate) numbers: bool,
    pub(crate) line_count: usize,
    pub(crate) line: usize,
    pub(crate) is_first: bool,
}

// Adds a line's number in bold and with a stop, at the right of this many columns with a blank behind it.
fn push_number<T: PushText>(out: &mut T, columns: usize, line: usize) -> Result<(), AllocError>
    ensures { OnOk result (T.bytes out.new ≡ T.bytes out.old
        ++ numbered (columns - (length (decimal line) + 2)) line) }
{
    let mut buffer = Buffer::new();
    let number = buffer.format(line);
    push_spaces(out, columns.saturating_sub(number.len() + 2))?;
    out.push_text("\x1b[1m")?;
    out.push_text(number)?;
    out.push_text(".\x1b[0m ")?;
    Ok(())
}

impl RowPrefix {
    pub(crate) const NONE: RowPrefix = RowPrefix {
        numbers: false,
        line_count: 0,
        line: 0,
        is_first: false,
    };

    // Bytes enough for it.
    pub(crate) fn room(self) -> usize {
        if self.numbers { ROOM } else { 0 }
    }

    // Adds it to a row. An `Err` only means out of memory; it may leave some of it behind.
    pub(crate) fn push_to<T: PushText>(self, out: &mut T) -> Result<(), AllocError>
        ensures { OnOk result (T.bytes out.new ≡ T.bytes out.old ++ prefix_of self) }
    {
        if !self.numbers {
            return Ok(());
        }
        let columns = prefix_columns(true, self.line_count);
        if self.is_first {
            push_number(out, columns, self.line)?;
            return Ok(());
        }
        push_spaces(out, columns)?;
        Ok(())
    }
}

impl fmt::Display for RowPrefix {
    ghost output = { λ p. Some (prefix_of p) };

    fn fmt<W: fmt::Write>(&self, f: &mut fmt::Formatter<W>) -> fmt::Result {
        if !self.numbers {
            return Ok(());
        }
        let columns = prefix_columns(true, self.line_count);
        if self.is_first {
            let line = self.line;
            let before = Blanks(columns.saturating_sub(digits(line) + 2));
            return write!(f, "{before}\x1b[1m{line}.\x1b[0m ");
        }
        let blanks = Blanks(columns);
        write!(f, "{blanks}")
    }
}
