//! The program's arguments.
ghost use Rattle.std.specs.Prelude.{◌≡◌, map, string_bytes};
ghost use Rattle.minus_script.specs.ProgramArguments.{mode_named, arguments_of};

use minus::parse_usize;

/// What the program prints.
#[derive(Clone, Copy, Debug, PartialEq, Eq)]
pub enum Mode {
    /// The page of the screen, row by row.
    Page,
    /// All bytes that the terminal is sent.
    Bytes,
}

/// The program's arguments, its name aside.
#[derive(Clone, Copy, Debug, PartialEq, Eq)]
pub struct Arguments {
    /// What to print.
    pub mode: Mode,
    /// The columns of the screen.
    pub cols: usize,
    /// The rows of the screen, the prompt's among them.
    pub rows: usize,
}

/// The mode with this name.
fn parse_mode(name: &str) -> Option<Mode>
    ensures { result ≡ mode_named name.now }
{
    match name {
        "page" => Some(Mode::Page),
        "bytes" => Some(Mode::Bytes),
        _ => None,
    }
}

/// The arguments, where the program's name is not among them: a mode's name, the columns and the
/// rows, and nothing else.
pub fn parse_arguments(arguments: &[String]) -> Option<Arguments>
    ensures { result ≡ arguments_of (map string_bytes arguments.now) }
{
    let [mode, cols, rows] = arguments else {
        return None;
    };
    let mode = parse_mode(mode.as_str())?;
    let cols = parse_usize(cols.as_str())?;
    let rows = parse_usize(rows.as_str())?;
    Some(Arguments { mode, cols, rows })
}
