//! An application that feeds numbered lines.
use minus::{MinusError, OutputSink, PagerState};
use minus_app::{App, AppKeys, Fault, Fed, Flow, View};
use std::alloc::{AllocError, Global};

/// What its keys do.
#[derive(Clone, Copy, Drop)]
pub enum Act {
    /// Go to the tenth line.
    Tenth,
    /// Keep the number that was typed before the key.
    Count,
    /// Show another text.
    Another,
    /// Say something in the prompt row.
    Say,
    /// Copy a text.
    Copy,
    /// Add a line at the end of the text.
    Add,
    /// End the program.
    Leave,
    /// Fail.
    Fail,
}

/// Numbered lines, one at each feed.
#[derive(Drop)]
pub struct Lines {
    /// How many were fed.
    pub given: u32,
    /// How many there are.
    pub most: u32,
    /// Whether a feed behind them fails.
    pub fails: bool,
    /// The number that was typed before `c`.
    pub counted: usize,
}

impl Lines {
    /// This number of lines.
    pub fn new(most: u32) -> Lines {
        Lines {
            given: 0,
            most,
            fails: false,
            counted: 0,
        }
    }
}

impl App for Lines {
    type Act = Act;

    fn feed(&mut self, rt: &HostRuntime) -> Result<Fed, Fault> {
        let alloc = rt.alloc();
        if self.given >= self.most {
            if self.fails {
                return Err(Fault::Own(String::from_str(alloc, "the lines are lost")?));
            }
            return Ok(Fed::EndForNow);
        }
        self.given = self.given.saturating_add(1);
        let number = self.given;
        Ok(Fed::Text(format!(in alloc; "line {number}\n")?))
    }

    fn act<S: OutputSink + Drop>(
        &mut self,
        act: Act,
        _rt: &HostRuntime,
        view: &mut View<S>,
    ) -> Result<Flow, Fault> {
        match act {
            Act::Tenth => view.go_to_line(9)?,
            Act::Count => self.counted = view.count().unwrap_or(1),
            Act::Another => {
                view.set_text(String::from_str(view.alloc(), "another text\nof two lines\n")?)?;
            }
            Act::Say => view.message(String::from_str(view.alloc(), "said")?)?,
            Act::Copy => view.copy("copied")?,
            Act::Add => self.most = self.most.saturating_add(1),
            Act::Leave => return Ok(Flow::Ended),
            Act::Fail => return Err(Fault::Own(String::from_str(view.alloc(), "it failed")?)),
        }
        Ok(Flow::On)
    }

    fn title(&self) -> &str {
        "lines"
    }

    // Where a number was counted, the prompt row says that.
    fn prompt(&self, alloc: Global, state: &PagerState) -> Result<Option<String>, AllocError> {
        if self.counted == 0 {
            return Ok(None);
        }
        let (counted, row) = (self.counted, state.upper_mark);
        Ok(Some(format!(in alloc; "counted {counted} at {row}")?))
    }
}

/// Its keys.
///
/// # Errors
///
/// Those of [`AppKeys::bind`].
pub fn keys(alloc: Global) -> Result<AppKeys<Act>, MinusError> {
    let mut keys = AppKeys::less(alloc)?;
    keys.bind(&["e"], "go to the tenth line", Act::Tenth)?;
    keys.bind(&["c"], "count", Act::Count)?;
    keys.bind(&["x"], "show another text", Act::Another)?;
    keys.bind(&["t"], "say something", Act::Say)?;
    keys.bind(&["a"], "add a line", Act::Add)?;
    keys.bind(&["s-c"], "copy a text", Act::Copy)?;
    keys.bind(&["s-z"], "leave", Act::Leave)?;
    keys.bind(&["s-x"], "fail", Act::Fail)?;
    Ok(keys)
}
