//! Cursors and boxes as sinks. A cursor is no terminal; a box is what it holds.
use crate::sink::OutputSink;
use std::io;
use std::io::{Cursor, Write};

impl<T> OutputSink for Cursor<T>
where
    Cursor<T>: Write,
{
    fn put(&mut self, bytes: &[u8]) -> io::Result<usize> {
        self.write(bytes)
    }

    fn settle(&mut self) -> io::Result<()> {
        self.flush()
    }

    fn is_tty(&self) -> bool {
        false
    }
}

impl<T: OutputSink> OutputSink for Box<T> {
    ghost seen = { λ held. T.seen held.value };

    fn put(&mut self, bytes: &[u8]) -> io::Result<usize> {
        self.as_mut().put(bytes)
    }

    fn settle(&mut self) -> io::Result<()> {
        self.as_mut().settle()
    }

    fn is_tty(&self) -> bool {
        self.as_ref().is_tty()
    }
}
