//! The rows of a screen as they are printed.
ghost use Rattle.std.specs.Prelude.{◌≡◌, ◌++◌, OnOk, OnErr, IfErr, map, string_bytes};
ghost use Rattle.std.specs.Io.{StartsWith};
ghost use Rattle.std.specs.Io.KnownBytes.{Appends};
ghost use Rattle.minus_term.specs.Counts.{AppendsFront};
ghost use Rattle.minus_script.specs.Printed.{escaped_byte, printed, printed_all, PrintedReadsBack};
ghost use Rattle.minus_script.specs.WriteFaults.{IsWriteFault};

use crate::fault::{ScriptFault, Stream};
use std::alloc::AllocError;
use std::io;
use std::io::{ErrorKind, Write};

/// How many interrupted writes are tried again before the writer counts as failed.
const MOST_INTERRUPTS: usize = 1_048_576;

/// Adds a byte as it is printed, or on an error nothing.
fn print_byte(out: &mut Vec<u8>, byte: u8) -> Result<(), AllocError>
    ensures ok { OnOk result (out.new.items ≡ out.old.items ++ escaped_byte byte) }
    ensures err { OnErr result (out.new.items ≡ out.old.items) }
{
    match byte {
        b'\x1b' => out.extend_from_slice(b"\\e")?,
        b'\r' => out.extend_from_slice(b"\\r")?,
        b'\\' => out.extend_from_slice(b"\\\\")?,
        _ => out.push(byte)?,
    }
    Ok(())
}

/// Adds a row as it is printed: with its escape characters, carriage returns and backslashes
/// written as escapes, and a newline after it. On an error some of it may have been added.
pub fn print_row(out: &mut Vec<u8>, row: &str) -> Result<(), AllocError>
    ensures ok { OnOk result (out.new.items ≡ out.old.items ++ printed row.now) }
    ensures err { OnErr result (StartsWith out.new.items out.old.items) }
{
    for byte in row.as_bytes() {
        print_byte(out, *byte)?;
    }
    out.push(b'\n')?;
    Ok(())
}

/// Adds rows as they are printed, one after another. On an error some of them may have been added.
pub fn print_rows(out: &mut Vec<u8>, rows: &[String]) -> Result<(), AllocError>
    ensures ok { OnOk result (out.new.items ≡ out.old.items ++ printed_all (map string_bytes rows.now)) }
    ensures err { OnErr result (StartsWith out.new.items out.old.items) }
{
    for row in rows {
        print_row(out, row.as_str())?;
    }
    Ok(())
}

// Writes bytes. An interrupted write is tried again; one that takes nothing is a fault of the writer.
fn write_all<W: Write>(writer: &mut W, bytes: &[u8]) -> io::Result<()>
    ensures ok { OnOk result (Appends (W.contents writer.old) (W.contents writer.new) bytes.now) }
    ensures err { OnErr result (AppendsFront (W.contents writer.old) (W.contents writer.new) bytes.now) }
{
    let mut rest = bytes;
    let mut interrupts = 0;
    while !rest.is_empty() {
        match writer.write(rest) {
            Ok(0) => return Err(io::Error::from(ErrorKind::WriteZero)),
            Ok(n) => rest = &rest[n..],
            Err(e) => {
                if e.kind() != ErrorKind::Interrupted || interrupts == MOST_INTERRUPTS {
                    return Err(e);
                }
                interrupts += 1;
            }
        }
    }
    Ok(())
}

/// Writes what is printed, and hands it on.
///
/// # Errors
///
/// [`ScriptFault::Io`] where the writer refuses a write or the flush: a beginning of the bytes was written.
pub fn write_out<W: Write>(writer: &mut W, bytes: &[u8]) -> Result<(), ScriptFault>
    ensures ok { OnOk result (Appends (W.contents writer.old) (W.contents writer.new) bytes.now) }
    ensures err { OnErr result (AppendsFront (W.contents writer.old) (W.contents writer.new) bytes.now) }
    ensures fault { IfErr result IsWriteFault }
{
    if let Err(cause) = write_all(writer, bytes) {
        return Err(ScriptFault::Io(Stream::Output, cause));
    }
    match writer.flush() {
        Ok(()) => Ok(()),
        Err(cause) => Err(ScriptFault::Io(Stream::Output, cause)),
    }
}

/// A law: read as the text of a script, a row as it is printed is that row.
pub fn printed_rows_read_back()
    ensures { PrintedReadsBack }
{}
