//! What the launcher reports of the terminal, by the environment.
ghost use Rattle.std.specs.Prelude.{◌≡◌};
ghost use Rattle.minus_app.specs.Sizes.{size_told};

use crate::fault::Fault;
use crate::size::Size;
use std::alloc::Global;
use std::env;
use std::io::IsTerminal;

/// The name of the variable in which `bin/minus-run` describes the terminal: `COLS ROWS FILE`.
const VARIABLE: &str = "MINUS_TTY";

/// The name of the variable that is `none` where the terminal takes no copied text.
const CLIPBOARD: &str = "MINUS_CLIPBOARD";

/// The terminal as the launcher reports it.
#[derive(Drop)]
pub struct Launch {
    /// Its size at the start.
    pub size: Size,
    /// The path of the file in which the launcher tells each new size; with none the size stays, and the program is not
    /// suspended.
    pub sizes: Option<String>,
    /// Whether the terminal takes a copied text, as far as is known.
    pub copies: bool,
}

// A size as it is told: a terminal that does not know its columns or rows, as a serial line, says 0.
fn size_told(cols: u16, rows: u16) -> Size
    ensures { result ≡ size_told cols rows }
{
    Size {
        rows: if rows == 0 { 24 } else { rows },
        cols: if cols == 0 { 80 } else { cols },
        resumes: 0,
    }
}

// What the variable says, where that is so: columns, rows, and a path that may have blanks.
fn parse_launch(alloc: Global, told: &str, copies: bool) -> Result<Option<Launch>, Fault> {
    let (cols, rest) = told.split_once(' ').unwrap_or((told, ""));
    let (rows, path) = rest.split_once(' ').unwrap_or((rest, ""));
    let (Ok(cols), Ok(rows)) = (cols.parse::<u16>(), rows.parse::<u16>()) else {
        return Ok(None);
    };
    let sizes = if path.is_empty() {
        None
    } else {
        Some(String::from_str(alloc, path)?)
    };
    Ok(Some(Launch {
        size: size_told(cols, rows),
        sizes,
        copies,
    }))
}

impl Launch {
    /// The terminal that the launcher reports; none where there is no launcher, or standard output is no terminal.
    ///
    /// # Errors
    ///
    /// [`Fault::Pager`] where there is no memory.
    pub fn read(rt: &HostRuntime) -> Result<Option<Launch>, Fault> {
        if !rt.stdout().is_terminal() {
            return Ok(None);
        }
        let copies = match env::var(rt, CLIPBOARD) {
            Ok(said) => said.as_str() != "none",
            Err(_) => true,
        };
        match env::var(rt, VARIABLE) {
            Ok(told) => parse_launch(rt.alloc(), told.as_str(), copies),
            Err(_) => Ok(None),
        }
    }
}
