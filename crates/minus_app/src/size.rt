//! The terminal's size, which the launcher writes to a file whenever it changes.
ghost use Rattle.std.specs.Prelude.{◌≡◌, ◌≢◌, None, IfSome};

use std::fs::File;
use std::io::Read;

/// The terminal's size, and how often the program went on, as the launcher tells them.
#[derive(Clone, Copy, PartialEq, Eq)]
pub struct Size {
    /// The terminal's rows.
    pub rows: u16,
    /// The terminal's columns.
    pub cols: u16,
    /// How often the program went on after it was suspended.
    pub resumes: u64,
}

// The three numbers of a text, with a blank between two.
fn parse_size(bytes: &[u8]) -> Option<Size> {
    let text = str::from_utf8(bytes).ok()?;
    let (rows, rest) = text.trim().split_once(' ')?;
    let (cols, resumes) = rest.split_once(' ')?;
    Some(Size {
        rows: rows.parse::<u16>().ok()?,
        cols: cols.parse::<u16>().ok()?,
        resumes: resumes.parse::<u64>().ok()?,
    })
}

/// The launcher's file, and what it said last.
#[derive(Drop)]
pub struct SizeFile {
    path: Option<String>,
    last: Size,
}

impl SizeFile {
    /// The file at this path, if there is one, which has said this so far.
    pub fn new(path: Option<String>, last: Size) -> SizeFile {
        SizeFile { path, last }
    }

    /// How often the program went on after it was suspended.
    pub fn resumes(&self) -> u64 {
        self.last.resumes
    }

    /// Whether there is such a file: the launcher reports each new size, and that the program goes on.
    pub fn is_there(&self) -> bool {
        self.path.is_some()
    }

    // What the file says now. It is renamed in place by the launcher, so it is read whole.
    fn read(&self, rt: &HostRuntime) -> Option<Size> {
        let mut bytes = [0; 64];
        let path = self.path.as_ref()?;
        let mut file = File::open(rt, path.as_str()).ok()?;
        let count = file.read(&mut bytes).ok()?;
        parse_size(&bytes[..count.min(64)])
    }

    /// What the file says now, where it says something else than before.
    pub fn change(&mut self, rt: &HostRuntime) -> Option<Size>
        ensures kept { result ≡ None → self.new ≡ self.old }
        ensures other { IfSome result (λ size. self.old.last ≢ size) }
        ensures told { IfSome result (λ size. self.new ≡ record self.old { last = size }) }
    {
        let size = self.read(rt)?;
        if self.last == size {
            return None;
        }
        self.last = size;
        Some(size)
    }
}
