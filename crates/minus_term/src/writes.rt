//! Writes beside the drawing of a page.
ghost use Rattle.std.specs.Prelude.{◌≡◌, ◌++◌, [], ◌∷◌, map, OnOk, IfOk, IfErr, if◌then◌else◌};
ghost use Rattle.std.specs.Io.KnownBytes.{Appends};
ghost use Rattle.minus_term.specs.Counts.{Stays, RisesBy};
ghost use Rattle.minus_term.specs.Operations.{GoTo, ClearAll};
ghost use Rattle.minus_term.specs.Writes.{initial_text, raw_lines, SinkRefuses, WriteRefuses};
ghost use Rattle.minus_term.specs.Written.{written};

use crate::draw::{DrawOp, write_op};
use crate::error::MinusError;
use crate::sink::{OutputSink, draw_bytes, write_bytes};
use std::alloc::{AllocError, Global};
use std::convert::AsStr;

const CLEAR_ALL: &[u8] = b"\x1b[2J";

// Writes some bytes, and settles the sink if asked to.
fn write_formed<W: OutputSink>(out: &mut W, bytes: &[u8], flush: bool) -> Result<(), MinusError>
    ensures ok { OnOk result (Appends (W.seen out.old).bytes (W.seen out.new).bytes bytes.now) }
    ensures stays { OnOk result (Stays (W.seen out.old).refusals (W.seen out.new).refusals) }
    ensures settled { OnOk result (RisesBy (W.seen out.old).settles (W.seen out.new).settles (if flush then 1 else 0)) }
    ensures err { IfErr result (λ e. SinkRefuses W.seen e out.old out.new bytes.now) }
{
    if flush {
        draw_bytes(out, bytes)?;
    } else {
        write_bytes(out, bytes)?;
    }
    Ok(())
}

/// Moves the terminal's cursor to the column x and the row y, both counted from 0, and settles the
/// sink if asked to.
///
/// # Errors
///
/// [`MinusError::Memory`] where there is none for the bytes: nothing was written then.
/// [`MinusError::Draw`] where the sink refused a write or the flush: a beginning of the bytes was
/// written.
pub fn move_cursor<W: OutputSink>(
    alloc: Global,
    out: &mut W,
    x: u16,
    y: u16,
    flush: bool,
) -> Result<(), MinusError>
    ensures ok { OnOk result (Appends (W.seen out.old).bytes (W.seen out.new).bytes (written (GoTo x y))) }
    ensures stays { OnOk result (Stays (W.seen out.old).refusals (W.seen out.new).refusals) }
    ensures settled { OnOk result (RisesBy (W.seen out.old).settles (W.seen out.new).settles (if flush then 1 else 0)) }
    ensures err { IfErr result (λ e. WriteRefuses W.seen e out.old out.new (written (GoTo x y))) }
{
    let mut bytes = Vec::new(alloc);
    write_op(alloc, &mut bytes, &DrawOp::GoTo(x, y))?;
    write_formed(out, bytes.as_slice(), flush)
}

/// Makes each row of the terminal blank, and settles the sink if asked to. The cursor stays.
///
/// # Errors
///
/// [`MinusError::Draw`] where the sink refused a write or the flush: a beginning of the bytes was
/// written.
#[tactic(auto, unfolding(crate::specs::Written::written))]
pub fn clear_entire_screen<W: OutputSink>(out: &mut W, flush: bool) -> Result<(), MinusError>
    ensures ok { OnOk result (Appends (W.seen out.old).bytes (W.seen out.new).bytes (written ClearAll)) }
    ensures stays { OnOk result (Stays (W.seen out.old).refusals (W.seen out.new).refusals) }
    ensures settled { OnOk result (RisesBy (W.seen out.old).settles (W.seen out.new).settles (if flush then 1 else 0)) }
    ensures err { IfErr result (λ e. SinkRefuses W.seen e out.old out.new (written ClearAll)) }
{
    write_formed(out, CLEAR_ALL, flush)
}

// Adds a line, between a text before it and a newline.
#[tactic(auto, unfolding(crate::specs::Written::written))]
fn push_raw_line(
    alloc: Global,
    bytes: &mut Vec<u8>,
    line: &str,
    before: &str,
) -> Result<(), AllocError>
    ensures { OnOk result (bytes.new.items ≡ bytes.old.items ++ raw_lines before.now (line.now ∷ [])) }
{
    write_op(alloc, bytes, &DrawOp::Put(before))?;
    write_op(alloc, bytes, &DrawOp::Put(line))?;
    write_op(alloc, bytes, &DrawOp::NextRow)?;
    Ok(())
}

// The bytes of some lines, each between a text before it and a newline.
fn formed_raw_lines<L: AsStr>(
    alloc: Global,
    lines: &[L],
    before: &str,
) -> Result<Vec<u8>, AllocError>
    ensures { IfOk result (λ v. v.items ≡ raw_lines before.now (map L.text lines.now)) }
{
    let mut bytes = Vec::new(alloc);
    for line in lines {
        push_raw_line(alloc, &mut bytes, line.as_str(), before)?;
    }
    Ok(bytes)
}

/// Writes some lines, each after the initial text, where there is one, and with a newline at its
/// end. The sink is not settled.
///
/// # Errors
///
/// [`MinusError::Memory`] where there is none for the bytes: nothing was written then.
/// [`MinusError::Draw`] where the sink refused a write: a beginning of the bytes was written.
pub fn write_raw_lines<W: OutputSink, L: AsStr>(
    alloc: Global,
    out: &mut W,
    lines: &[L],
    initial: Option<&str>,
) -> Result<(), MinusError>
    ensures ok { OnOk result (Appends (W.seen out.old).bytes (W.seen out.new).bytes
        (raw_lines (initial_text initial.entry) (map L.text lines.now))) }
    ensures stays { OnOk result (Stays (W.seen out.old).refusals (W.seen out.new).refusals) }
    ensures settled { OnOk result (RisesBy (W.seen out.old).settles (W.seen out.new).settles 0) }
    ensures err { IfErr result (λ e.
        WriteRefuses W.seen e out.old out.new (raw_lines (initial_text initial.entry) (map L.text lines.now))) }
{
    let bytes = formed_raw_lines(alloc, lines, initial.unwrap_or(""))?;
    write_formed(out, bytes.as_slice(), false)
}
