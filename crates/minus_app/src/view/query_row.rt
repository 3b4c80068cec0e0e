//! What is drawn into the row of the search prompt beside the session: the part with the cursor of a query that is
//! longer than the row, and at the row's end that a long text has no preview.
use crate::fault::Fault;
use crate::preview::MOST_PREVIEWED;
use crate::view::View;
use minus::{OutputSink, write_bytes};
use std::alloc::{AllocError, Global};
use unicode_width::{UnicodeWidthChar, UnicodeWidthStr};

// A part of a query, and how many columns of it stand before the cursor.
#[derive(Drop)]
struct Part {
    text: String,
    before: usize,
}

// The part of a query that has the cursor, which stands before the character at a place, counted from 0. The query is
// cut into parts of this many columns, one behind the other.
fn part_at(alloc: Global, query: &str, place: usize, columns: usize) -> Result<Part, AllocError> {
    let (mut text, mut before, mut width) = (String::new(alloc), 0_usize, 0_usize);
    for (at, c) in query.chars().enumerate() {
        let next = width.saturating_add(c.width().unwrap_or(0));
        if next > columns {
            if place < at {
                break;
            }
            text.clear();
            before = 0;
            width = 0;
        }
        text.push(c)?;
        width = width.saturating_add(c.width().unwrap_or(0));
        if at < place {
            before = width;
        }
    }
    Ok(Part { text, before })
}

impl<S: OutputSink + Drop> View<S> {
    // Shows the part of a query with its cursor, where the query is longer than the row of the search prompt. Out of
    // memory, the row stays as it is.
    fn show_part(&mut self) -> Result<(), Fault> {
        let state = self.session.state();
        let Some(search) = state.open_search() else {
            return Ok(());
        };
        let (query, columns) = (search.prompt.query(), state.cols.saturating_sub(2));
        if query.width() <= columns {
            return Ok(());
        }
        let place = search.prompt.cursor().saturating_sub(1);
        let Ok(part) = part_at(self.alloc, query, place, columns) else {
            return Ok(());
        };
        let (row, mark, text) = (state.rows, search.prompt.search_char(), part.text.as_str());
        let column = part.before.saturating_add(2);
        let drawn = format!(in self.alloc; "\x1b[{row};1H\x1b[2K{mark}{text}\x1b[{row};{column}H");
        if let Ok(drawn) = drawn {
            write_bytes(&mut self.terminal, drawn.as_bytes())?;
        }
        Ok(())
    }

    // What the row of the search prompt says of a text that is too long for a preview, where a query is previewed.
    fn preview_note(&self) -> Option<String> {
        let query = self.session.state().open_search()?.prompt.query();
        let len = self.text().len();
        if query.len() < 2 || len <= MOST_PREVIEWED {
            return None;
        }
        let megabytes = len / 1_000_000;
        format!(in self.alloc; " (Enter searches {megabytes} MB)").ok()
    }

    // Says at the end of the row of the search prompt that a long text has no preview, where the query leaves room for
    // that.
    fn show_note(&mut self) -> Result<(), Fault> {
        let (state, note) = (self.session.state(), self.preview_note());
        let (Some(search), Some(note)) = (state.open_search(), note) else {
            return Ok(());
        };
        let (row, text, prompt) = (state.rows, note.as_str(), &search.prompt);
        let before = state.cols.saturating_sub(note.len());
        if before < prompt.query().width().saturating_add(2) {
            return Ok(());
        }
        // (the cursor stays where the session has left it)
        let (column, cursor) = (before.saturating_add(1), prompt.cursor().saturating_add(1));
        let drawn = format!(in self.alloc; "\x1b[{row};{column}H{text}\x1b[{row};{cursor}H");
        if let Ok(drawn) = drawn {
            write_bytes(&mut self.terminal, drawn.as_bytes())?;
        }
        Ok(())
    }

    /// Draws what the row of the search prompt shows beside the session.
    pub(super) fn show_query_row(&mut self) -> Result<(), Fault> {
        self.show_part()?;
        self.show_note()
    }
}
