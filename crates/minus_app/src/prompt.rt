//! What the prompt row of the program says.
ghost use Rattle.std.specs.Prelude.{◌≡◌, ◌+◌, min, option_map, string_bytes, IfOk};
ghost use Rattle.minus_app.specs.Prompt.{start_of, notice_text, prompt_text, IsLineNumber, IsPlace};

use minus::{PagerState, page_len};
use minus_view::{Place, place_text};
use std::alloc::{AllocError, Global};

/// What the prompt row says of the text besides the place of the page.
#[derive(Clone, Copy, PartialEq, Eq)]
pub enum Notice {
    /// Nothing.
    Nothing,
    /// The file has fewer bytes than were read of it.
    CutShort,
    /// There was no memory for the rest of the text, or for what a key asked for.
    OutOfMemory,
    /// No row matches the query.
    NotFound,
    /// The text is read on for what a key asked for.
    Reading,
    /// The terminal takes no text that is copied, as tmux where it is set so.
    NotCopied,
}

impl Notice {
    // What the prompt row says, of a text of this many bytes.
    fn text(self, alloc: Global, bytes: usize) -> Result<String, AllocError>
        ensures { IfOk result (λ text. string_bytes text ≡ notice_text self bytes) }
    {
        match self {
            Notice::Nothing => Ok(String::new(alloc)),
            Notice::CutShort => String::from_str(alloc, "(cut short) "),
            Notice::OutOfMemory => String::from_str(alloc, "(out of memory) "),
            Notice::NotFound => String::from_str(alloc, "(pattern not found) "),
            Notice::NotCopied => String::from_str(alloc, "(nothing copied: tmux) "),
            Notice::Reading => {
                let megabytes = bytes / 1_000_000;
                format!(in alloc; "(reading {megabytes} MB) ")
            }
        }
    }
}

// This number of rows behind a row, where there are as many.
fn row_after(row: usize, more: usize, count: usize) -> usize
    ensures { result ≡ min count (row + more) }
{
    if row >= count || count - row <= more {
        count
    } else {
        row + more
    }
}

// The number of the line of a row, counted from 1; 0 where there is no line.
fn line_number(state: &PagerState, row: usize) -> usize
    ensures { IsLineNumber state.now row result }
{
    let lines = state.screen.lines_to_row_map();
    let count = lines.len();
    match lines.row_to_line(row) {
        Some(line) if line < count => line + 1,
        _ => 0,
    }
}

/// Where a row begins, in bytes of the text; behind all rows, where the text ends.
pub fn start_of(state: &PagerState, row: usize) -> usize
    ensures { result ≡ start_of state.now row }
{
    match state.screen.row_place(row) {
        Some(place) => place.start,
        None => state.screen.orig_text().len(),
    }
}

/// Where in its text the page is.
pub fn place_of(state: &PagerState) -> Place
    ensures { IsPlace state.now result }
{
    let rows = state.screen.formatted_lines_count();
    let behind = row_after(state.upper_mark, page_len(state.rows), rows);
    let last = behind.saturating_sub(1);
    Place {
        first: line_number(state, state.upper_mark),
        last: line_number(state, last),
        lines: state.screen.lines_to_row_map().len(),
        end: start_of(state, behind),
        bytes: state.screen.orig_text().len(),
    }
}

/// The text of the prompt row, for this many columns: what is said of the text, and behind it what the application
/// says, or else the title, the displayed lines, counted from 1, how many lines there are, and the part of the text up
/// to the last displayed row, as `(cut short) notes.txt  24-46/120  38%`.
///
/// # Errors
///
/// [`AllocError`] where there is no memory.
pub fn prompt_text(
    alloc: Global,
    columns: usize,
    own: Option<&str>,
    title: &str,
    place: Place,
    notice: Notice,
) -> Result<String, AllocError>
    ensures { IfOk result (λ text. string_bytes text
        ≡ prompt_text columns (option_map (λ o. o.now) own.entry) title.now place notice) }
{
    let notice = notice.text(alloc, place.bytes)?;
    let room = columns.saturating_sub(notice.len());
    match own {
        Some(own) => format!(in alloc; "{notice}{own}"),
        None => {
            let place = place_text(alloc, room, title, place)?;
            format!(in alloc; "{notice}{place}")
        }
    }
}
