//! A query that is edited.
use crate::search::keys::{QueryEdit, edit_of};
use crate::search::letters::{char_count, with_char, without_char};
use crate::search::words::{first_above, last_below};
use minus_term::{Event, MinusError};
use minus_text::{Patterns, word_starts};
use std::alloc::{AllocError, Global};
use std::marker::Model;

/// What an event did to a query.
#[derive(Clone, Copy, Debug, PartialEq, Eq)]
pub enum Fed {
    /// It changed neither the query nor the cursor.
    Unchanged,
    /// It moved the cursor.
    Moved,
    /// It changed the query.
    Edited,
    /// It took the query, which closes the prompt.
    Confirmed,
    /// It dropped the query, which closes the prompt.
    Cancelled,
}

// As many characters as a query may have.
const MOST: usize = 65_534;

/// A query that is edited: its characters, and a cursor from 1, at the first character, to one more than these are.
#[derive(Debug)]
pub struct QueryEditor {
    text: String,
    // how many characters the text has, so that a move need not count them
    len: usize,
    cursor: usize,
    // where the words of the text start, in characters from 1
    starts: Vec<usize>,
}

// Hand-written: a derived drop would stand again in the proof of each function that lets one go.
impl Drop for QueryEditor {
    fn drop(self) {
        let QueryEditor {
            text: _,
            len: _,
            cursor: _,
            starts: _,
        } = self;
    }
}

impl Model for QueryEditor {
    ghost use Rattle.std.specs.Prelude.{chars, string_bytes};
    ghost use Rattle.minus_state.specs.QueryEditor.{Editor, IsEditor};

    ghost Value = { Editor };

    ghost view = { λ e. record { query = chars (string_bytes e.text); cursor = e.cursor } };

    ghost invariant = { λ e.
        IsEditor (record { query = chars (string_bytes e.text); cursor = e.cursor }) e.len e.starts.items };
}

impl QueryEditor {
    ghost use Rattle.std.specs.Prelude.{◌≡◌, ◌+◌, ◌≤◌, false, length, string_bytes, chars};
    ghost use Rattle.std.specs.Prelude.{OnOk, OnErr, IfOk, IfErr};
    ghost use Rattle.minus_term.specs.Refusals.{refusal_of};
    ghost use Rattle.minus_text.specs.WordStarts.{AreWithin};
    ghost use Rattle.minus_state.specs.QueryKeys.{edit_of};
    ghost use Rattle.minus_state.specs.QueryEditor.{first_editor, editor_of, edited, moved, told_of, refuses, takes_memory};
    ghost use Rattle.minus_state.specs.QueryEditor.{told_between, starts_of, most, without, is_too_long};
    ghost use Rattle.minus_state.specs.QueryEditor.{IsRefusedEdit, IsRefusedQuery};

    /// An empty query, with its cursor at 1.
    ///
    /// # Errors
    ///
    /// [`AllocError`] where there is no memory for it.
    pub fn new(alloc: Global, patterns: &Patterns) -> Result<QueryEditor, AllocError>
        ensures { IfOk result (λ e. e ≡ first_editor) }
    {
        Ok(QueryEditor {
            text: String::new(alloc),
            len: 0,
            cursor: 1,
            starts: word_starts(alloc, patterns, "")?,
        })
    }

    /// This query, with its cursor behind the last character: to let a reader change an earlier one.
    ///
    /// # Errors
    ///
    /// [`MinusError::QueryFull`] exactly where it has more than 65,534 characters, and [`MinusError::Memory`] where
    /// there is no memory for the starts of its words.
    pub fn of_query(
        alloc: Global,
        patterns: &Patterns,
        query: String,
    ) -> Result<QueryEditor, MinusError>
        ensures ok { IfOk result (λ e. e ≡ editor_of (chars (string_bytes query))) }
        ensures taken { OnOk result (is_too_long (chars (string_bytes query)) ≡ false) }
        ensures refused { IfErr result (λ e. IsRefusedQuery (refusal_of e) (chars (string_bytes query))) }
    {
        let len = char_count(&query);
        if len > MOST {
            return Err(MinusError::QueryFull);
        }
        let starts = word_starts(alloc, patterns, &query)?;
        Ok(QueryEditor {
            text: query,
            len,
            cursor: len + 1,
            starts,
        })
    }

    /// A query with the characters and the cursor of this one.
    ///
    /// # Errors
    ///
    /// [`AllocError`] where there is no memory for it.
    pub fn copied(&self, alloc: Global) -> Result<QueryEditor, AllocError>
        ensures { IfOk result (λ e. e ≡ self.now) }
    {
        let mut starts = Vec::with_capacity(alloc, self.starts.len())?;
        starts.extend_from_slice(&self.starts)?;
        Ok(QueryEditor {
            text: String::from_str(alloc, &self.text)?,
            len: self.len,
            cursor: self.cursor,
            starts,
        })
    }

    /// The query.
    pub fn query(&self) -> &str
        ensures { chars result.now ≡ self.now.query }
    {
        self.text.as_str()
    }

    /// The cursor, in characters from 1: at most one more than the query has, and so at most 65,535.
    pub fn cursor(&self) -> usize
        ensures value { result ≡ self.now.cursor }
        ensures first { 1 ≤ result }
        ensures last { result ≤ length self.now.query + 1 }
        ensures few { result ≤ most + 1 }
    {
        self.cursor
    }

    /// Where the words of the query start, in characters from 1: at most at 65,535.
    pub fn word_index(&self) -> &[usize]
        ensures value { result.now ≡ starts_of self.now.query }
        ensures within { AreWithin (most + 1) result.now }
    {
        self.starts.as_slice()
    }

    // Where the cursor is after a move.
    pub(crate) fn moved(&self, edit: QueryEdit) -> usize
        ensures value { result ≡ moved self.now edit }
        ensures first { 1 ≤ result }
        ensures last { result ≤ length self.now.query + 1 }
        ensures few { result ≤ most + 1 }
    {
        match edit {
            QueryEdit::Left => (self.cursor - 1).max(1),
            QueryEdit::Right => self.cursor.min(self.len) + 1,
            QueryEdit::Start => 1,
            QueryEdit::End => self.len + 1,
            QueryEdit::WordLeft => last_below(&self.starts, self.cursor),
            QueryEdit::WordRight => first_above(&self.starts, self.cursor, self.len + 1),
            _ => self.cursor,
        }
    }

    // Moves the cursor.
    fn move_to(&mut self, cursor: usize) -> Fed
        requires first { 1 ≤ cursor }
        requires last { cursor ≤ length self.old.query + 1 }
        ensures new { self.new ≡ record self.old { cursor = cursor } }
        ensures told { result ≡ told_between self.old (record self.old { cursor = cursor }) }
    {
        if cursor == self.cursor {
            return Fed::Unchanged;
        }
        self.cursor = cursor;
        Fed::Moved
    }

    // Moves the cursor as an edit says that removes and inserts nothing.
    pub(crate) fn move_by(&mut self, edit: QueryEdit) -> Fed
        ensures new { self.new ≡ record self.old { cursor = moved self.old edit } }
        ensures told { result ≡ told_between self.old (record self.old { cursor = moved self.old edit }) }
    {
        self.move_to(self.moved(edit))
    }

    // Takes another text and cursor. An `Err` changes nothing.
    fn take(
        &mut self,
        alloc: Global,
        patterns: &Patterns,
        text: String,
        cursor: usize,
    ) -> Result<Fed, MinusError>
        requires few { length (chars (string_bytes text)) ≤ most }
        requires first { 1 ≤ cursor }
        requires last { cursor ≤ length (chars (string_bytes text)) + 1 }
        ensures new { OnOk result (self.new ≡ record { query = chars (string_bytes text); cursor = cursor }) }
        ensures told { IfOk result (λ f. f ≡ Fed.Edited) }
        ensures err { OnErr result (self.new ≡ self.old) }
        ensures memory { IfErr result (λ e. e ≡ MinusError.Memory) }
    {
        let starts = word_starts(alloc, patterns, &text)?;
        self.len = char_count(&text);
        self.text = text;
        self.cursor = cursor;
        self.starts = starts;
        Ok(Fed::Edited)
    }

    // Removes the character with a number, counted from 1, and puts the cursor there. An `Err` changes nothing.
    fn remove(&mut self, alloc: Global, patterns: &Patterns, at: usize) -> Result<Fed, MinusError>
        requires first { 1 ≤ at }
        requires last { at ≤ length self.old.query }
        ensures new { OnOk result (self.new ≡ record { query = without at self.old.query; cursor = at }) }
        ensures told { IfOk result (λ f.
            f ≡ told_between self.old (record { query = without at self.old.query; cursor = at })) }
        ensures edited { IfOk result (λ f. f ≡ Fed.Edited) }
        ensures err { OnErr result (self.new ≡ self.old) }
        ensures memory { IfErr result (λ e. e ≡ MinusError.Memory) }
    {
        let text = without_char(alloc, &self.text, at - 1)?;
        self.take(alloc, patterns, text, at)
    }

    // Inserts a character before the cursor. An `Err` changes nothing.
    fn insert(
        &mut self,
        alloc: Global,
        patterns: &Patterns,
        character: char,
    ) -> Result<Fed, MinusError>
        ensures new { OnOk result (self.new ≡ edited self.old (QueryEdit.Inserts character)) }
        ensures told { IfOk result (λ f. f ≡ told_of self.old (QueryEdit.Inserts character)) }
        ensures edited { IfOk result (λ f. f ≡ Fed.Edited) }
        ensures taken { OnOk result (refuses self.old (QueryEdit.Inserts character) ≡ false) }
        ensures err { OnErr result (self.new ≡ self.old) }
        ensures refused { IfErr result (λ e. IsRefusedEdit (refusal_of e) self.old (QueryEdit.Inserts character)) }
    {
        if self.len == MOST {
            return Err(MinusError::QueryFull);
        }
        let text = with_char(alloc, &self.text, self.cursor - 1, character)?;
        self.take(alloc, patterns, text, self.cursor + 1)
    }

    /// Edits the query as an event says, and tells what it did: [`edit_of`] lists the keys. Removing where there is no
    /// character, and a move to where the cursor is, are [`Fed::Unchanged`]. The query stays as it is where it is taken
    /// or dropped.
    ///
    /// An edit takes time linear in the query, whose text and starts of words are formed again. A move by a character
    /// or to an end takes constant time; one from word to word looks through the starts of the words.
    ///
    /// # Errors
    ///
    /// [`MinusError::QueryFull`] exactly where a character is typed to a query of 65,534 characters, and
    /// [`MinusError::Memory`] where there is no memory for an edit that removes or inserts: a move takes none. An `Err`
    /// changes nothing.
    pub fn feed(
        &mut self,
        alloc: Global,
        patterns: &Patterns,
        event: &Event,
    ) -> Result<Fed, MinusError>
        ensures new { OnOk result (self.new ≡ edited self.old (edit_of event.now)) }
        ensures told { IfOk result (λ f. f ≡ told_of self.old (edit_of event.now)) }
        ensures moved { IfOk result (λ f. f ≡ Fed.Moved → takes_memory (edit_of event.now) ≡ false) }
        ensures taken { OnOk result (refuses self.old (edit_of event.now) ≡ false) }
        ensures err { OnErr result (self.new ≡ self.old) }
        ensures refused { IfErr result (λ e. IsRefusedEdit (refusal_of e) self.old (edit_of event.now)) }
    {
        match edit_of(event) {
            QueryEdit::Cancels => Ok(Fed::Cancelled),
            QueryEdit::Confirms => Ok(Fed::Confirmed),
            QueryEdit::RemovesBefore => {
                if self.cursor == 1 {
                    return Ok(Fed::Unchanged);
                }
                self.remove(alloc, patterns, self.cursor - 1)
            }
            QueryEdit::RemovesUnder => {
                if self.cursor > self.len {
                    return Ok(Fed::Unchanged);
                }
                self.remove(alloc, patterns, self.cursor)
            }
            QueryEdit::Inserts(character) => self.insert(alloc, patterns, character),
            edit => Ok(self.move_by(edit)),
        }
    }
}
