//! Calls of a screen: a text with its rows, in a layout and under a term.
use crate::layouts::{Search, parse_layout, split_counts, split_number};
use crate::printed::{push_line, push_made, text_of};
use crate::queries::Query;
use minus::parse_usize;
use minus_term::MinusError;
use minus_text::screen::searching::{view_after, view_of};
use minus_text::{
    AppendableBuffer, FormatOpts, FormatResult, Layout, ReusableRows, Rows, RowsView, Screen, Term,
    format_lines_into, format_text_block,
};
use std::alloc::{AllocError, Global};

/// Adds the rows of a text as they are displayed, with their matches, from one up to another.
pub(crate) fn push_rows(
    alloc: Global,
    out: &mut String,
    rows: RowsView<'_>,
    start: usize,
    end: usize,
) -> Result<(), AllocError> {
    for i in start..end.min(rows.len()) {
        if let Some(row) = rows.formatted_row(alloc, i)? {
            push_line(out, "= ", row.as_str())?;
        }
    }
    Ok(())
}

// Adds the rows that jumps go to, each with the matches above it, and the number of matches.
fn push_found(alloc: Global, out: &mut String, rows: RowsView<'_>) -> Result<(), AllocError> {
    let mut told = String::new(alloc);
    for i in 0..rows.match_count() {
        if let Some(row) = rows.match_row(i) {
            let above = rows.matches_above(row);
            told.push_str(format!(in alloc; "{row}:{above} ")?.as_str())?;
        }
    }
    let total = rows.match_total();
    push_made(out, "= ", format!(in alloc; "found {told}of {total}"))
}

// What a result tells: its lines, rows and unfinished rows, its longest line, the first row of its first line, and
// whether it was attached to a line.
fn told_of(alloc: Global, answer: &FormatResult) -> Result<String, AllocError> {
    let lines = answer.lines_formatted;
    let rows = answer.rows_formatted;
    let unfinished = answer.num_unterminated;
    let longest = answer.max_line_length;
    let end = if answer.clean_append {
        "clean"
    } else {
        "attached"
    };
    let from = answer.lines_to_row_map.get(0);
    format!(in alloc;
        "lines {lines} rows {rows} unfinished {unfinished} longest {longest} from {from:?} {end}"
    )
}

/// A screen for calls.
#[derive(Drop)]
pub struct Texts {
    alloc: Global,
    pub screen: Screen,
    pub layout: Layout,
    pub search: Option<Search>,
    pub query: Option<Query>,
    /// What the last change of the text told.
    told: Option<FormatResult>,
    /// The rows of a block.
    formed: Rows,
}

impl Texts {
    /// A screen without a text, of no columns.
    pub(crate) fn new(alloc: Global) -> Texts {
        Texts {
            alloc,
            screen: Screen::new(alloc),
            layout: Layout::plain(0),
            search: None,
            query: None,
            told: None,
            formed: Rows::new(alloc),
        }
    }

    /// Does a call, if there is one of this name, and adds what it answers.
    pub(crate) fn call(
        &mut self,
        out: &mut String,
        word: &str,
        rest: &str,
    ) -> Result<bool, MinusError> {
        match word {
            "screen" => {
                *self = Texts::new(self.alloc);
                self.layout = parse_layout(rest);
            }
            "layout" => self.layout = parse_layout(rest),
            "term" => self.search = Search::of(self.alloc, text_of(self.alloc, rest)?.as_str()),
            "noterm" => self.search = None,
            "set" | "push" | "append" | "reform" | "take" => {
                let text = text_of(self.alloc, rest)?;
                self.change(out, word, text.as_str())?;
            }
            "block" => self.block(out, rest)?,
            "alone" => self.format_alone(rest)?,
            "find" => self.find(rest)?,
            _ => return self.tell(out, word, rest),
        }
        Ok(true)
    }

    // Adds what a call answers that changes nothing.
    fn tell(&self, out: &mut String, word: &str, rest: &str) -> Result<bool, MinusError> {
        match word {
            "told" | "unfinished" | "matches" => self.push_told(out, word)?,
            "before" => self.push_before(out, rest)?,
            "formed" => {
                for row in &self.formed {
                    push_line(out, "= ", row.as_str())?;
                }
            }
            "counts" => self.push_counts(out)?,
            "text" => push_line(out, "= ", self.screen.orig_text())?,
            "line" => {
                let row = self
                    .screen
                    .lines_to_row_map()
                    .get(parse_usize(rest).unwrap_or(0));
                push_made(out, "= ", format!(in self.alloc; "{row:?}"))?;
            }
            "rows" => push_rows(self.alloc, out, self.screen.view(), 0, usize::MAX)?,
            "found" => push_found(self.alloc, out, self.screen.view())?,
            "searched" => self.push_searched(out, rest)?,
            "first" => self.push_first(out, rest)?,
            "next" => self.push_next(out, rest)?,
            _ => return Ok(false),
        }
        Ok(true)
    }

    // Changes the text, or forms it again, and keeps what is told of that.
    fn change(&mut self, out: &mut String, word: &str, text: &str) -> Result<(), MinusError> {
        let alloc = self.alloc;
        let term = self.search.as_ref().map(Search::term);
        let answer = match word {
            "set" => self.screen.set_text(alloc, text, self.layout, term)?,
            "push" => push(alloc, out, &mut self.screen, text, self.layout, term)?,
            "append" => {
                let (numbers, cols) = (self.layout.numbers, self.layout.cols);
                self.screen
                    .push_screen_buf(alloc, text, numbers, cols, term)?
            }
            "reform" => self.screen.reform(alloc, self.layout, term)?,
            _ => {
                let text = String::from_str(alloc, text)?;
                let (screen, answer) = Screen::of_text(alloc, text, self.layout, term)?;
                self.screen = screen;
                answer
            }
        };
        self.told = Some(answer);
        Ok(())
    }

    // Adds what the last change told, the unfinished rows of that alone, or the rows that match.
    fn push_told(&self, out: &mut String, word: &str) -> Result<(), AllocError> {
        let Some(answer) = &self.told else {
            return Ok(());
        };
        match word {
            "told" => push_made(out, "= ", told_of(self.alloc, answer)),
            "unfinished" => push_made(
                out,
                "= ",
                format!(in self.alloc; "{}", answer.num_unterminated),
            ),
            _ => push_made(
                out,
                "= ",
                format!(in self.alloc; "{:?}", answer.append_search_idx),
            ),
        }
    }

    // Adds the rows that are seen before a push, and what is found in them.
    fn push_before(&self, out: &mut String, rest: &str) -> Result<(), MinusError> {
        let text = text_of(self.alloc, rest)?;
        let (numbers, cols) = (self.layout.numbers, self.layout.cols);
        let term = self.search.as_ref().map(Search::term);
        let pending = self
            .screen
            .prepare_push(self.alloc, text.as_str(), numbers, cols, term)?;
        let rows = view_after(&self.screen, text.as_str(), &pending);
        push_rows(self.alloc, out, rows, 0, usize::MAX)?;
        push_found(self.alloc, out, rows)?;
        Ok(())
    }

    // Forms a text in a buffer behind this many lines and rows, of which the last ones are unfinished.
    fn format<B: AppendableBuffer>(
        &self,
        buffer: &mut B,
        counts: (usize, usize, usize),
        attachment: Option<&str>,
        text: &str,
    ) -> Result<FormatResult, MinusError> {
        let (lines, rows, unfinished) = counts;
        if lines > 9 || rows > 9 {
            return Err(MinusError::BadMode);
        }
        let opts = FormatOpts {
            buffer,
            text,
            attachment,
            line_numbers: self.layout.numbers,
            lines_count: lines,
            formatted_lines_count: rows,
            cols: self.layout.cols,
            prev_unterminated: unfinished,
            search_term: self.search.as_ref().map(Search::term),
            line_wrapping: self.layout.wrapping,
        };
        Ok(format_text_block(self.alloc, opts)?)
    }

    // Forms a block, over no rows and over two: lines, rows and unfinished rows before it, and the text that it is
    // attached to with a bar behind it, if there is one, and its own.
    fn block(&mut self, out: &mut String, rest: &str) -> Result<(), MinusError> {
        let Some((counts, rest)) = split_counts(rest) else {
            return Ok(());
        };
        let text = text_of(self.alloc, rest)?;
        match text.as_str().split_once('|') {
            Some((attachment, text)) => self.form_block(out, counts, Some(attachment), text),
            None => self.form_block(out, counts, None, text.as_str()),
        }
    }

    // Forms it, with what was read of it.
    fn form_block(
        &mut self,
        out: &mut String,
        counts: (usize, usize, usize),
        attachment: Option<&str>,
        text: &str,
    ) -> Result<(), MinusError> {
        let mut over = Rows::new(self.alloc);
        over.push(String::from_str(self.alloc, "a row that is longer")?)?;
        over.push(String::from_str(self.alloc, "b")?)?;
        let mut reused = ReusableRows::new(over);
        self.format(&mut reused, counts, attachment, text)?;
        let mut formed = Rows::new(self.alloc);
        let answer = self.format(&mut &mut formed, counts, attachment, text)?;
        if reused.finish().as_slice() != formed.as_slice() {
            push_line(out, "= ", "other rows are written over rows")?;
        }
        self.formed = formed;
        self.told = Some(answer);
        Ok(())
    }

    // Forms the rows of a text by itself in a buffer.
    fn format_alone(&mut self, rest: &str) -> Result<(), MinusError> {
        let text = text_of(self.alloc, rest)?;
        let term = self.search.as_ref().map(Search::term);
        let answer = format_lines_into(
            self.alloc,
            &mut self.formed,
            text.as_str(),
            self.layout,
            term,
        )?;
        self.told = Some(answer);
        Ok(())
    }

    // Keeps what a search finds in a screen of a text, which may be another one.
    fn find(&mut self, rest: &str) -> Result<(), MinusError> {
        let text = text_of(self.alloc, rest)?;
        let term = self.search.as_ref().map(Search::term);
        let mut other = Screen::new(self.alloc);
        other.set_text(self.alloc, text.as_str(), self.layout, None)?;
        let findings = other.search(self.alloc, term)?;
        self.screen.place_findings(self.alloc, findings, term)?;
        Ok(())
    }

    // Adds the numbers of lines and rows, and the columns of the longest line.
    fn push_counts(&self, out: &mut String) -> Result<(), AllocError> {
        let lines = self.screen.line_count();
        let rows = self.screen.formatted_lines_count();
        let longest = self.screen.get_max_line_length();
        push_made(
            out,
            "= ",
            format!(in self.alloc; "lines {lines} rows {rows} longest {longest}"),
        )
    }

    // Adds some rows as they are displayed where the text is searched for a term that it is not formed under: all rows,
    // or from one up to another.
    fn push_searched(&self, out: &mut String, rest: &str) -> Result<(), MinusError> {
        let term = self.search.as_ref().map(Search::term);
        match split_number(rest) {
            Some((start, rest)) => {
                let end = parse_usize(rest).unwrap_or(0);
                let findings = self.screen.search_rows(self.alloc, term, start, end)?;
                push_rows(
                    self.alloc,
                    out,
                    view_of(&self.screen, &findings),
                    start,
                    end,
                )?;
            }
            None => {
                let findings = self.screen.search(self.alloc, term)?;
                let rows = view_of(&self.screen, &findings);
                push_rows(self.alloc, out, rows, 0, usize::MAX)?;
                push_found(self.alloc, out, rows)?;
            }
        }
        Ok(())
    }

    // Adds the row that a search from a row goes to.
    fn push_first(&self, out: &mut String, rest: &str) -> Result<(), MinusError> {
        if let (Some(search), Some(mark)) = (&self.search, parse_usize(rest)) {
            let row = self.screen.first_match(self.alloc, search.term(), mark)?;
            push_made(out, "= ", format!(in self.alloc; "{row:?}"))?;
        }
        Ok(())
    }

    // Adds the place of the match to which a jump from a row by some matches goes.
    fn push_next(&self, out: &mut String, rest: &str) -> Result<(), AllocError> {
        match split_number(rest) {
            Some((mark, jump)) => {
                let place = self
                    .screen
                    .view()
                    .nth_match(mark, parse_usize(jump).unwrap_or(0));
                push_made(out, "= ", format!(in self.alloc; "{place:?}"))
            }
            None => Ok(()),
        }
    }
}

// Pushes a text, and adds the rows that are seen before that, where they are others than then.
fn push(
    alloc: Global,
    out: &mut String,
    screen: &mut Screen,
    text: &str,
    layout: Layout,
    term: Option<Term<'_>>,
) -> Result<FormatResult, MinusError> {
    let pending = screen.prepare_push(alloc, text, layout.numbers, layout.cols, term)?;
    let mut before = String::new(alloc);
    let rows = view_after(screen, text, &pending);
    push_rows(alloc, &mut before, rows, 0, usize::MAX)?;
    push_found(alloc, &mut before, rows)?;
    let answer = screen.place_push(alloc, text, pending, term)?;
    let mut then = String::new(alloc);
    push_rows(alloc, &mut then, screen.view(), 0, usize::MAX)?;
    push_found(alloc, &mut then, screen.view())?;
    if before.as_str() != then.as_str() {
        push_line(out, "= ", "other rows are seen before the push")?;
        out.push_str(before.as_str())?;
    }
    Ok(answer)
}
