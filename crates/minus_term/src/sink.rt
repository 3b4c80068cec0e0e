//! Sinks: where the pager writes.
ghost use Rattle.std.specs.Prelude.{◌≡◌, length, None, Some, OnOk, OnErr, IfOk, IfErr, IsOk};
ghost use Rattle.std.specs.Io.{WritesAtMost};
ghost use Rattle.std.specs.Io.KnownBytes.{WriteAppends, Keeps, Appends};
ghost use Rattle.std.specs.IoError.{error_kind};
ghost use Rattle.minus_term.specs.Counts.{SinkSeen, unseen, tells_bytes, CountsCall, is_refused, is_fault, Stays, Rises, RisesBy, AppendsFront};

use std::io;
use std::io::{ErrorKind, Write};

/// Where the pager writes. A sink may tell the bytes that it holds, how many of its calls it
/// refused, and how often it was settled.
pub trait OutputSink: Write {
    // What the sink tells; if nothing is given, it tells nothing, and is no terminal.
    ghost seen: { Self → SinkSeen } = { λ _. unseen };

    /// Takes the first of these bytes, and says how many: the sink's `write`. It refuses by an
    /// error, or by taking none of some bytes.
    fn put(&mut self, bytes: &[u8]) -> io::Result<usize>
        ensures bound { WritesAtMost result bytes.now }
        ensures bytes { WriteAppends (seen self.old).bytes (seen self.new).bytes result bytes.now }
        ensures counted { CountsCall (seen self.old).refusals (seen self.new).refusals (is_refused result) }
        ensures unsettled { RisesBy (seen self.old).settles (seen self.new).settles 0 };

    /// Passes on what the sink holds back: the sink's `flush`.
    fn settle(&mut self) -> io::Result<()>
        ensures bytes { Keeps (seen self.old).bytes (seen self.new).bytes }
        ensures counted { CountsCall (seen self.old).refusals (seen self.new).refusals (is_fault result) }
        ensures settled { RisesBy (seen self.old).settles (seen self.new).settles 1 };

    /// Whether the sink is a terminal.
    fn is_tty(&self) -> bool
        ensures { result ≡ (seen self.now).terminal };
}

impl OutputSink for Vec<u8> {
    ghost seen = { λ held. tells_bytes held.items };

    fn put(&mut self, bytes: &[u8]) -> io::Result<usize>
        ensures bound { WritesAtMost result bytes.now }
        ensures bytes { WriteAppends (Some self.old.items) (Some self.new.items) result bytes.now }
        ensures counted { CountsCall None None (is_refused result) }
        ensures unsettled { RisesBy None None 0 }
        ensures all { IfOk result (λ n. n ≡ length bytes.now) }
        ensures kind { IfErr result (λ e. error_kind e ≡ ErrorKind.OutOfMemory) }
    {
        self.write(bytes)
    }

    fn settle(&mut self) -> io::Result<()>
        ensures bytes { Keeps (Some self.old.items) (Some self.new.items) }
        ensures counted { CountsCall None None (is_fault result) }
        ensures settled { RisesBy None None 1 }
        ensures ok { IsOk result }
    {
        self.flush()
    }

    fn is_tty(&self) -> bool {
        false
    }
}

/// Writes all the bytes, by calls of `put` alone. The first refusal ends it: an error is handed on
/// whatever its kind, an interrupted write too, and a write that takes nothing is an error of the
/// kind `WriteZero`. The sink then holds a beginning of the bytes. It is never settled.
pub fn write_bytes<S: OutputSink>(out: &mut S, bytes: &[u8]) -> io::Result<()>
    ensures ok { OnOk result (Appends (S.seen out.old).bytes (S.seen out.new).bytes bytes.now) }
    ensures stays { OnOk result (Stays (S.seen out.old).refusals (S.seen out.new).refusals) }
    ensures err { OnErr result (AppendsFront (S.seen out.old).bytes (S.seen out.new).bytes bytes.now) }
    ensures rises { OnErr result (Rises (S.seen out.old).refusals (S.seen out.new).refusals) }
    ensures unsettled { RisesBy (S.seen out.old).settles (S.seen out.new).settles 0 }
{
    let mut rest = bytes;
    while !rest.is_empty() {
        match out.put(rest) {
            Ok(0) => return Err(io::Error::from(ErrorKind::WriteZero)),
            Ok(n) => rest = &rest[n..],
            Err(e) => return Err(e),
        }
    }
    Ok(())
}

/// Writes all the bytes of a drawing, and then settles the sink once. The first refusal ends it.
pub fn draw_bytes<S: OutputSink>(out: &mut S, bytes: &[u8]) -> io::Result<()>
    ensures ok { OnOk result (Appends (S.seen out.old).bytes (S.seen out.new).bytes bytes.now) }
    ensures stays { OnOk result (Stays (S.seen out.old).refusals (S.seen out.new).refusals) }
    ensures err { OnErr result (AppendsFront (S.seen out.old).bytes (S.seen out.new).bytes bytes.now) }
    ensures rises { OnErr result (Rises (S.seen out.old).refusals (S.seen out.new).refusals) }
    ensures settled { OnOk result (RisesBy (S.seen out.old).settles (S.seen out.new).settles 1) }
{
    write_bytes(out, bytes)?;
    out.settle()?;
    Ok(())
}
