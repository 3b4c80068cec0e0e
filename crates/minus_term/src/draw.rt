//! The operations that a screen is drawn by, and their bytes.
ghost use Rattle.std.specs.Prelude.{◌≡◌, ◌+◌, ◌-◌, ◌^◌, ◌<◌, ◌≤◌, [], ◌∷◌, ◌++◌, drop, map, decimal, OnOk, OnErr};
ghost use Rattle.minus_term.specs.FullRedraw.{FullRedrawShowsItsPage, FullRedrawPutsFew};
ghost use Rattle.minus_term.specs.Append.{AppendShowsItsPage, AppendPutsFew};
ghost use Rattle.minus_term.specs.Scroll.{ScrollShowsItsPage, ScrollPutsFew};
ghost use Rattle.minus_term.specs.Operations.{op_of, GoTo};
ghost use Rattle.minus_term.specs.PlayedScreen.{PlayIsMonotone, UnknownStandsForAll};
ghost use Rattle.minus_term.specs.Written.{escape, written, written_all, scroll_bytes};

use itoa::write_digits;
use std::alloc::{AllocError, Global};

/// One operation on a terminal.
#[derive(Clone, Copy, Debug, PartialEq, Eq)]
pub enum DrawOp<'a> {
    /// Makes each row blank.
    ClearAll,
    /// Makes the cursor's row blank.
    ClearRow,
    /// Moves the cursor to a column and a row, in this order, both counted from 0.
    GoTo(u16, u16),
    /// Moves the cursor to the first column of its row.
    Return,
    /// Moves the cursor one row down; in the last row, the rows move up instead.
    NextRow,
    /// Puts a text at the cursor.
    Put(&'a str),
    /// Moves the rows up, by this many.
    ScrollUp(u16),
    /// Moves the rows down, by this many.
    ScrollDown(u16),
    /// Makes the cursor visible.
    ShowCursor,
    /// Makes the cursor invisible.
    HideCursor,
}

// Adds bytes, or on an error none of them.
pub(crate) fn push_bytes(out: &mut Vec<u8>, bytes: &[u8]) -> Result<(), AllocError>
    ensures ok { OnOk result (out.new.items ≡ out.old.items ++ bytes.now) }
    ensures err { OnErr result (out.new.items ≡ out.old.items) }
{
    out.extend_from_slice(bytes)?;
    Ok(())
}

// How many bytes the longest operation of numbers has, and some more.
const ROOM: usize = 48;

// Writes a byte before a place, and returns where it stands.
fn write_byte(bytes: &mut [u8; ROOM], end: usize, byte: u8) -> usize
    requires some { 0 < end }
    requires within { end ≤ 48 }
    ensures at { result ≡ end - 1 }
    ensures written { drop result bytes.new ≡ byte ∷ drop end bytes.old }
{
    bytes[end - 1] = byte;
    end - 1
}

// Writes a number's digits before a place, and returns where they start.
fn write_number(bytes: &mut [u8; ROOM], end: usize, n: u64) -> usize
    requires few { n < 10 ^ 5 }
    requires room { 5 ≤ end }
    requires within { end ≤ 48 }
    ensures at { end ≤ result + 5 }
    ensures before { result ≤ end }
    ensures written { drop result bytes.new ≡ decimal n ++ drop end bytes.old }
{
    write_digits(n, bytes, end)
}

// Writes the start of a control sequence before a place, and returns where it stands.
fn write_escape(bytes: &mut [u8; ROOM], end: usize) -> usize
    requires some { 2 ≤ end }
    requires within { end ≤ 48 }
    ensures written { drop result bytes.new ≡ escape ++ drop end bytes.old }
{
    let end = write_byte(bytes, end, b'[');
    write_byte(bytes, end, b'\x1b')
}

// Adds the bytes that move the cursor to the column x and the row y, or on an error none of them.
#[tactic(auto, unfolding(crate::specs::Written::written))]
pub(crate) fn push_go_to(out: &mut Vec<u8>, x: u16, y: u16) -> Result<(), AllocError>
    ensures ok { OnOk result (out.new.items ≡ out.old.items ++ written (GoTo x y)) }
    ensures err { OnErr result (out.new.items ≡ out.old.items) }
{
    let row = u64::from(y) + 1;
    let column = u64::from(x) + 1;
    let mut bytes = [0; ROOM];
    let end = write_byte(&mut bytes, ROOM, b'H');
    let end = write_number(&mut bytes, end, column);
    let end = write_byte(&mut bytes, end, b';');
    let end = write_number(&mut bytes, end, row);
    let start = write_escape(&mut bytes, end);
    push_bytes(out, &bytes[start..])
}

// Adds a move to the first column of a row, which is counted from 0, and these bytes.
pub(crate) fn push_at_row(out: &mut Vec<u8>, row: u16, then: &[u8]) -> Result<(), AllocError>
    ensures { OnOk result (out.new.items ≡ out.old.items ++ (written (GoTo 0 row) ++ then.now)) }
{
    push_go_to(out, 0, row)?;
    push_bytes(out, then)?;
    Ok(())
}

// Adds the bytes that move the rows by n, with the direction's letter, or on an error none of them; none for 0.
pub(crate) fn push_scroll(out: &mut Vec<u8>, n: u16, letter: u8) -> Result<(), AllocError>
    ensures ok { OnOk result (out.new.items ≡ out.old.items ++ scroll_bytes n (letter ∷ [])) }
    ensures err { OnErr result (out.new.items ≡ out.old.items) }
{
    if n == 0 {
        return Ok(());
    }
    let mut bytes = [0; ROOM];
    let end = write_byte(&mut bytes, ROOM, letter);
    let end = write_number(&mut bytes, end, u64::from(n));
    let start = write_escape(&mut bytes, end);
    push_bytes(out, &bytes[start..])
}

/// Adds the bytes of an operation to a buffer, or on an error none of them.
#[tactic(auto, unfolding(crate::specs::Written::written))]
pub fn write_op(alloc: Global, out: &mut Vec<u8>, op: &DrawOp<'_>) -> Result<(), AllocError>
    ensures ok { OnOk result (out.new.items ≡ out.old.items ++ written (op_of op.now)) }
    ensures err { OnErr result (out.new.items ≡ out.old.items) }
{
    match op {
        DrawOp::ClearAll => push_bytes(out, b"\x1b[2J"),
        DrawOp::ClearRow => push_bytes(out, b"\x1b[2K"),
        DrawOp::GoTo(x, y) => push_go_to(out, *x, *y),
        DrawOp::Return => push_bytes(out, b"\r"),
        DrawOp::NextRow => push_bytes(out, b"\n"),
        DrawOp::Put(text) => push_bytes(out, text.as_bytes()),
        DrawOp::ScrollUp(n) => push_scroll(out, *n, b'S'),
        DrawOp::ScrollDown(n) => push_scroll(out, *n, b'T'),
        DrawOp::ShowCursor => push_bytes(out, b"\x1b[?25h"),
        DrawOp::HideCursor => push_bytes(out, b"\x1b[?25l"),
    }
}

/// Adds the bytes of operations to a buffer, in their order, or on an error those of the first of them.
pub fn write_ops(alloc: Global, out: &mut Vec<u8>, ops: &[DrawOp<'_>]) -> Result<(), AllocError>
    ensures { OnOk result (out.new.items ≡ out.old.items ++ written_all (map op_of ops.now)) }
{
    for op in ops {
        write_op(alloc, out, op)?;
    }
    Ok(())
}

/// A law: what a play makes known from a screen, it makes known from each screen of which more
/// is known.
pub fn play_is_monotone()
    ensures { PlayIsMonotone }
{}

/// A law: what operations show on a screen of which nothing is known, they show on every screen of
/// that size.
pub fn the_unknown_screen_stands_for_all()
    ensures { UnknownStandsForAll }
{}

/// A law: the drawing of a whole page shows it, whatever the screen showed before.
pub fn full_redraw_shows_its_page()
    ensures { FullRedrawShowsItsPage }
{}

/// A law: the drawing of a whole page puts no more texts than the page has rows of text, the prompt aside.
pub fn full_redraw_puts_few()
    ensures { FullRedrawPutsFew }
{}

/// A law: a scroll leads from the page at one mark to the page at another.
pub fn scroll_shows_its_page()
    ensures { ScrollShowsItsPage }
{}

/// A law: a scroll puts no more texts than rows were moved.
pub fn scroll_puts_few()
    ensures { ScrollPutsFew }
{}

/// A law: an append leads from the page of the old rows of text to the page of the new ones.
pub fn append_shows_its_page()
    ensures { AppendShowsItsPage }
{}

/// A law: an append puts no more texts than rows from the first that changed on.
pub fn append_puts_few()
    ensures { AppendPutsFew }
{}
