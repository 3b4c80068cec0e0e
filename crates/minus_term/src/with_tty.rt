//! A writer as the sink of a pager.
ghost use Rattle.std.specs.Prelude.{◌≡◌, true};
ghost use Rattle.std.specs.Io.{WritesAtMost};
ghost use Rattle.std.specs.Io.KnownBytes.{WriteAppends, Keeps};
ghost use Rattle.minus_term.specs.Counts.{CountsCall, RisesBy, count_after, told_count, is_refused, is_fault};

use crate::sink::OutputSink;
use std::io;
use std::io::Write;

/// A writer, with a flag that says whether it is a terminal, and the numbers of its refusals and of its flushes.
#[derive(Debug, Drop)]
pub struct WithTty<W> {
    /// The writer.
    pub inner: W,
    /// Whether it is a terminal.
    pub tty: bool,
    /// How many writes and flushes the writer refused, a write that took nothing among them; this many or more at
    /// `u64::MAX`.
    pub refusals: u64,
    /// How often the writer was flushed, also where it refused that; so often or more at `u64::MAX`.
    pub settles: u64,
}

impl<W> WithTty<W> {
    /// A writer that has refused nothing and was not flushed yet.
    pub fn new(inner: W, tty: bool) -> WithTty<W>
        ensures inner { result.inner ≡ inner }
        ensures tty { result.tty ≡ tty }
        ensures refusals { result.refusals ≡ 0 }
        ensures settles { result.settles ≡ 0 }
    {
        WithTty {
            inner,
            tty,
            refusals: 0,
            settles: 0,
        }
    }
}

impl<W: Write> Write for WithTty<W> {
    ghost contents = { λ s. W.contents s.inner };

    fn write(&mut self, bytes: &[u8]) -> io::Result<usize>
        ensures bound { WritesAtMost result bytes.now }
        ensures bytes { WriteAppends (W.contents self.old.inner) (W.contents self.new.inner) result bytes.now }
        ensures counted { CountsCall (told_count self.old.refusals) (told_count self.new.refusals) (is_refused result) }
        ensures refusals { self.new.refusals ≡ count_after self.old.refusals (is_refused result) }
        ensures settles { self.new.settles ≡ self.old.settles }
        ensures tty { self.new.tty ≡ self.old.tty }
    {
        let taken = self.inner.write(bytes);
        if !matches!(&taken, Ok(1..)) {
            self.refusals = self.refusals.saturating_add(1);
        }
        taken
    }

    fn flush(&mut self) -> io::Result<()>
        ensures bytes { Keeps (W.contents self.old.inner) (W.contents self.new.inner) }
        ensures counted { CountsCall (told_count self.old.refusals) (told_count self.new.refusals) (is_fault result) }
        ensures refusals { self.new.refusals ≡ count_after self.old.refusals (is_fault result) }
        ensures settles { self.new.settles ≡ count_after self.old.settles true }
        ensures tty { self.new.tty ≡ self.old.tty }
    {
        self.settles = self.settles.saturating_add(1);
        let flushed = self.inner.flush();
        if flushed.is_err() {
            self.refusals = self.refusals.saturating_add(1);
        }
        flushed
    }
}

impl<W: Write> OutputSink for WithTty<W> {
    ghost seen = { λ s. record {
      bytes = W.contents s.inner;
      refusals = told_count s.refusals;
      settles = told_count s.settles;
      terminal = s.tty;
    } };

    fn put(&mut self, bytes: &[u8]) -> io::Result<usize>
        ensures bound { WritesAtMost result bytes.now }
        ensures bytes { WriteAppends (W.contents self.old.inner) (W.contents self.new.inner) result bytes.now }
        ensures counted { CountsCall (told_count self.old.refusals) (told_count self.new.refusals) (is_refused result) }
        ensures refusals { self.new.refusals ≡ count_after self.old.refusals (is_refused result) }
        ensures unsettled { RisesBy (told_count self.old.settles) (told_count self.new.settles) 0 }
        ensures settles { self.new.settles ≡ self.old.settles }
        ensures tty { self.new.tty ≡ self.old.tty }
    {
        self.write(bytes)
    }

    fn settle(&mut self) -> io::Result<()>
        ensures bytes { Keeps (W.contents self.old.inner) (W.contents self.new.inner) }
        ensures counted { CountsCall (told_count self.old.refusals) (told_count self.new.refusals) (is_fault result) }
        ensures refusals { self.new.refusals ≡ count_after self.old.refusals (is_fault result) }
        ensures settled { RisesBy (told_count self.old.settles) (told_count self.new.settles) 1 }
        ensures settles { self.new.settles ≡ count_after self.old.settles true }
        ensures tty { self.new.tty ≡ self.old.tty }
    {
        self.flush()
    }

    fn is_tty(&self) -> bool {
        self.tty
    }
}
