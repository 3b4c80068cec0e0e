//! When the prompt row is drawn: as a part of a drawing, or behind one where it has changed.
ghost use Rattle.std.specs.Prelude.{◌≡◌, [], ◌++◌, if◌then◌else◌, bytes_eq, OnOk};
ghost use Rattle.minus_term.specs.Written.{written_all};
ghost use Rattle.minus_term.specs.FullRedraw.{prompt_ops};

use crate::drawings::Drawing;
use minus_term::write_prompt_row;
use std::alloc::AllocError;

// Adds the prompt row, the last of this many rows, unless it is the one before.
pub(crate) fn push_changed_prompt(
    out: &mut Vec<u8>,
    rows: u16,
    prompt: &str,
    before: &str,
) -> Result<(), AllocError>
    ensures { OnOk result (out.new.items ≡ out.old.items ++ written_all
        (if bytes_eq prompt.now before.now then [] else prompt_ops rows prompt.now)) }
{
    if prompt == before {
        return Ok(());
    }
    write_prompt_row(out, rows, prompt)
}

impl Drawing {
    ghost use Rattle.minus_draw.specs.PromptRowDrawing.{draws_prompt};

    // Whether it draws the prompt row, or what stands in its place.
    pub(crate) fn draws_prompt(self) -> bool
        ensures { result ≡ draws_prompt self }
    {
        match self {
            Drawing::Nothing | Drawing::Append { .. } => false,
            Drawing::Page(_) | Drawing::Scroll { .. } | Drawing::LastRow(_) => true,
        }
    }
}
