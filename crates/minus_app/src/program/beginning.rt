//! The beginning of a text, which is read before the first page.
use crate::app::{App, Fed};
use crate::fault::Fault;
use crate::keyboard::Keyboard;
use crate::options::Options;
use crate::program::NAP;
use crate::size::Size;
use minus::Event;
use std::alloc::Global;
use std::io::Read;
use std::thread;
use std::time::Duration;

/// How many bytes of a text are read, at most, to see whether it fits the terminal: a longer one does not.
const MOST_PRINTED: usize = 256 * 1024;

/// What an application has fed before its first page, and what was typed meanwhile.
#[derive(Drop)]
pub struct Beginning {
    /// The text.
    pub text: String,
    /// Whether it may feed more.
    pub may_grow: bool,
    /// Whether the text was read to its end, for now or for good.
    pub is_at_end: bool,
    /// The keys that were pressed.
    pub pressed: Vec<Event>,
}

impl Beginning {
    fn new(alloc: Global) -> Beginning {
        Beginning {
            text: String::new(alloc),
            may_grow: true,
            is_at_end: false,
            pressed: Vec::new(alloc),
        }
    }

    // Asks an application once, and answers whether more may come soon.
    fn read<A: App>(&mut self, rt: &HostRuntime, app: &mut A) -> Result<bool, Fault> {
        let fed = app.feed(rt)?;
        self.may_grow = !matches!(&fed, Fed::End);
        self.is_at_end = matches!(&fed, Fed::EndForNow | Fed::End);
        if let Fed::Text(text) = &fed {
            self.text.push_str(text.as_str())?;
        }
        Ok(!matches!(&fed, Fed::NothingNow))
    }

    // Whether it is known that the text fits a terminal of this many rows, or that it does not; or keys are pressed.
    fn is_known(&self, rows: usize) -> bool {
        self.is_at_end
            || !self.pressed.is_empty()
            || self.text.len() > MOST_PRINTED
            || self.text.lines().count() >= rows
    }

    // Reads a text that is printed where it fits a terminal of this many rows: all of it, unless it is longer than
    // that, or keys are pressed before it ends.
    fn read_to_fit<A: App, R: Read + Drop>(
        &mut self,
        rt: &HostRuntime,
        app: &mut A,
        keyboard: &mut Keyboard<R>,
        rows: usize,
    ) -> Result<(), Fault> {
        for _ in 0..u64::MAX {
            if !self.read(rt, app)? {
                thread::sleep(rt, Duration::from_millis(NAP));
            }
            let _ = keyboard.read(rt, &mut self.pressed)?;
            if self.is_known(rows) {
                break;
            }
        }
        Ok(())
    }
}

/// Reads the beginning of a text: its first piece, or all of it where it may be printed.
///
/// # Errors
///
/// Those of the application's feed, and [`Fault::Io`] where the keyboard failed.
pub fn begin_text<A: App, R: Read + Drop>(
    rt: &HostRuntime,
    app: &mut A,
    keyboard: &mut Keyboard<R>,
    options: &Options<'_>,
    size: Size,
) -> Result<Beginning, Fault> {
    let mut beginning = Beginning::new(rt.alloc());
    if options.prints {
        beginning.read_to_fit(rt, app, keyboard, usize::from(size.rows))?;
    } else {
        let _ = beginning.read(rt, app)?;
    }
    Ok(beginning)
}
