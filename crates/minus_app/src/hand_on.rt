//! A text that is handed on to standard output, where there is no terminal to page it on.
use crate::app::Fed;
use crate::fault::Fault;
use crate::program::NAP;
use crate::text::is_nothing_now;
use std::io::{ErrorKind, Read, Stdout, Write};
use std::thread;
use std::time::Duration;

// Writes to standard output, and answers whether there is still a reader.
fn write_on(out: &mut Stdout, bytes: &[u8]) -> Result<bool, Fault> {
    match out.write_all(bytes) {
        Ok(()) => Ok(true),
        Err(cause) if cause.kind() == ErrorKind::BrokenPipe => Ok(false),
        Err(cause) => Err(Fault::Io(cause)),
    }
}

/// Hands on to standard output what a feed gave, and answers whether it goes on: neither has the text ended, nor its
/// reader.
///
/// # Errors
///
/// [`Fault::Io`] where standard output refuses the text.
pub fn hand_on_fed(rt: &HostRuntime, out: &mut Stdout, fed: &Fed) -> Result<bool, Fault> {
    match fed {
        Fed::Text(text) => write_on(out, text.as_bytes()),
        Fed::NothingNow => {
            thread::sleep(rt, Duration::from_millis(NAP));
            Ok(true)
        }
        Fed::EndForNow | Fed::End => Ok(false),
    }
}

/// Hands a text on to standard output, or as much of it as there is a reader for.
///
/// # Errors
///
/// [`Fault::Io`] where standard output refuses the text.
pub fn hand_on_text(rt: &HostRuntime, text: &str) -> Result<(), Fault> {
    let mut out = rt.stdout();
    let _ = write_on(&mut out, text.as_bytes())?;
    Ok(out.flush()?)
}

// Hands on what one read found, and answers whether it goes on.
fn hand_on_piece<R: Read>(
    rt: &HostRuntime,
    reader: &mut R,
    out: &mut Stdout,
    piece: &mut [u8],
) -> Result<bool, Fault> {
    match reader.read(piece) {
        Ok(0) => Ok(false),
        Ok(count) => write_on(out, &piece[..count.min(piece.len())]),
        Err(cause) if is_nothing_now(cause.kind()) => {
            thread::sleep(rt, Duration::from_millis(NAP));
            Ok(true)
        }
        Err(cause) => Err(Fault::Io(cause)),
    }
}

/// Hands bytes on to standard output as they are read, up to their end, or as long as there is a reader.
///
/// # Errors
///
/// [`Fault::Io`] where a read failed, or standard output refuses the bytes.
pub fn hand_on_bytes<R: Read>(
    rt: &HostRuntime,
    reader: &mut R,
    piece: &mut [u8],
) -> Result<(), Fault> {
    let mut out = rt.stdout();
    for _ in 0..u64::MAX {
        if !hand_on_piece(rt, reader, &mut out, piece)? {
            break;
        }
    }
    Ok(out.flush()?)
}
