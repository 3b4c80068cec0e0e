//! The standard streams, files and the library's `Sink` as sinks. None of them asks the system
//! whether it is a terminal: `WithTty` carries what the caller knows.
use crate::sink::OutputSink;
use std::fs::File;
use std::io;
use std::io::{Sink, Stderr, Stdout, Write};

impl OutputSink for Stdout {
    fn put(&mut self, bytes: &[u8]) -> io::Result<usize> {
        self.write(bytes)
    }

    fn settle(&mut self) -> io::Result<()> {
        self.flush()
    }

    fn is_tty(&self) -> bool {
        false
    }
}

impl OutputSink for Stderr {
    fn put(&mut self, bytes: &[u8]) -> io::Result<usize> {
        self.write(bytes)
    }

    fn settle(&mut self) -> io::Result<()> {
        self.flush()
    }

    fn is_tty(&self) -> bool {
        false
    }
}

impl OutputSink for File {
    fn put(&mut self, bytes: &[u8]) -> io::Result<usize> {
        self.write(bytes)
    }

    fn settle(&mut self) -> io::Result<()> {
        self.flush()
    }

    fn is_tty(&self) -> bool {
        false
    }
}

impl OutputSink for Sink {
    fn put(&mut self, bytes: &[u8]) -> io::Result<usize> {
        self.write(bytes)
    }

    fn settle(&mut self) -> io::Result<()> {
        self.flush()
    }

    fn is_tty(&self) -> bool {
        false
    }
}
