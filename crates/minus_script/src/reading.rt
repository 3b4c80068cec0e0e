//! Reading of the script.
ghost use Rattle.std.specs.Prelude.{◌≢◌, IfOk, IfErr, OnErr, ⊤};
ghost use Rattle.std.specs.IoError.{error_kind};
ghost use Rattle.std.specs.Io.KnownBytes.{Consumes, IsAtEnd};
ghost use Rattle.minus_script.specs.declared.fault.ScriptFault.TheVariants.{Io, Line, Refused};
ghost use Rattle.minus_script.specs.Reading.{IsReadFault, ConsumesSome};

use crate::fault::{ScriptFault, Stream};
use std::alloc::Global;
use std::io;
use std::io::{ErrorKind, Read};

/// How many reads of the script are tried before it counts as endless.
const MOST_READS: usize = 1_048_576;

/// How many bytes one read asks for at most.
const BUFFER_LEN: usize = 4096;

/// The bytes of a script up to its end. An interrupted read is tried again, and counts as a read;
/// this many reads without an end are a fault of the reader.
pub fn read_script<R: Read>(alloc: Global, reader: &mut R) -> Result<Vec<u8>, ScriptFault>
    ensures bytes { IfOk result (λ script. Consumes (R.remaining reader.old) (R.remaining reader.new) script.items) }
    ensures end { IfOk result (λ _. IsAtEnd (R.remaining reader.new)) }
    ensures fault { IfErr result IsReadFault }
    ensures retried { IfErr result (λ e. elim e [
      | Io stream cause ↦ error_kind cause ≢ ErrorKind.Interrupted
      | Line number ↦ ⊤
      | Refused cause ↦ ⊤
    ]) }
    ensures lost { OnErr result (ConsumesSome (R.remaining reader.old) (R.remaining reader.new)) }
{
    let mut script = Vec::new(alloc);
    let mut buffer = [0; BUFFER_LEN];
    for _ in 0..MOST_READS {
        match reader.read(&mut buffer) {
            Ok(0) => return Ok(script),
            Ok(n) => script.extend_from_slice(&buffer[..n])?,
            Err(e) => {
                if e.kind() != ErrorKind::Interrupted {
                    return Err(ScriptFault::Io(Stream::Input, e));
                }
            }
        }
    }
    let endless = io::Error::from(ErrorKind::InvalidData);
    Err(ScriptFault::Io(Stream::Input, endless))
}
