//! A search prompt that is open.
ghost use Rattle.std.specs.Prelude.{◌≡◌, ◌∷◌, chars, string_bytes, IfOk};
ghost use Rattle.std.specs.Str.{encode_utf8_all};

use crate::search::SearchMode;
use crate::search::keys::QueryEdit;
use crate::search::query::{Fed, QueryEditor};
use crate::state::PagerState;
use minus_term::{Event, MinusError};
use minus_text::Patterns;
use std::alloc::{AllocError, Global};
use std::marker::Model;

/// A search prompt that is open: the direction of its search, and its query, which is edited.
#[derive(Debug)]
pub struct OpenPrompt {
    search_mode: SearchMode,
    search_char: char,
    editor: QueryEditor,
}

// Hand-written: a derived drop would stand again in the proof of each function that lets one go.
impl Drop for OpenPrompt {
    fn drop(self) {
        let OpenPrompt {
            search_mode: _,
            search_char: _,
            editor: _,
        } = self;
    }
}

impl Model for OpenPrompt {
    ghost use Rattle.std.specs.Prelude.{◌≡◌, Some};
    ghost use Rattle.minus_state.specs.OpenPrompts.{Prompt};
    ghost use Rattle.minus_state.specs.SearchMode.{char_of};

    ghost Value = { Prompt };

    ghost view = { λ p. record { mode = p.search_mode; editor = p.editor } };

    ghost invariant = { λ p. Some p.search_char ≡ char_of p.search_mode };
}

// The row of a prompt: its character and its query.
fn typed(alloc: Global, character: char, query: &str) -> Result<String, AllocError>
    ensures { IfOk result (λ row. string_bytes row ≡ encode_utf8_all (character ∷ chars query.now)) }
{
    format!(in alloc; "{character}{query}")
}

impl OpenPrompt {
    ghost use Rattle.std.specs.Prelude.{◌+◌, ◌≤◌, Some, false, length, OnOk, OnErr, IfErr};
    ghost use Rattle.minus_term.specs.Refusals.{refusal_of};
    ghost use Rattle.minus_text.specs.WordStarts.{AreWithin};
    ghost use Rattle.minus_state.specs.OpenPrompts.{prompt_of, fed, cursor_moved, IsUnopened};
    ghost use Rattle.minus_state.specs.QueryEditor.{told_of, moved, starts_of, refuses, takes_memory, most, IsRefusedEdit};
    ghost use Rattle.minus_state.specs.QueryKeys.{edit_of};
    ghost use Rattle.minus_state.specs.SearchMode.{char_of};
    ghost use Rattle.minus_state.specs.OpenSearches.{typed_in};

    /// The prompt of the search that a state began, with an empty query and its cursor at 1.
    ///
    /// # Errors
    ///
    /// [`MinusError::BadMode`] exactly where no search has begun: the direction is [`SearchMode::Unknown`]; and
    /// [`MinusError::Memory`] where there is no memory for it.
    pub fn new(alloc: Global, state: &PagerState) -> Result<OpenPrompt, MinusError>
        ensures ok { IfOk result (λ p. p ≡ prompt_of state.now.search_state.search_mode) }
        ensures refused { IfErr result (λ e. IsUnopened (refusal_of e) state.now.search_state.search_mode) }
    {
        let search_mode = state.search_state.search_mode;
        let Some(search_char) = search_mode.search_char() else {
            return Err(MinusError::BadMode);
        };
        let prompt = OpenPrompt::of_mode(alloc, &state.patterns, search_mode, search_char)?;
        Ok(prompt)
    }

    // The prompt of a search in a direction, which has this character.
    pub(crate) fn of_mode(
        alloc: Global,
        patterns: &Patterns,
        search_mode: SearchMode,
        search_char: char,
    ) -> Result<OpenPrompt, AllocError>
        requires { Some search_char ≡ char_of search_mode }
        ensures { IfOk result (λ p. p ≡ prompt_of search_mode) }
    {
        Ok(OpenPrompt {
            search_mode,
            search_char,
            editor: QueryEditor::new(alloc, patterns)?,
        })
    }

    /// A prompt with the query and the cursor of this one.
    ///
    /// # Errors
    ///
    /// [`AllocError`] where there is no memory for it.
    pub fn copied(&self, alloc: Global) -> Result<OpenPrompt, AllocError>
        ensures { IfOk result (λ p. p ≡ self.now) }
    {
        Ok(OpenPrompt {
            search_mode: self.search_mode,
            search_char: self.search_char,
            editor: self.editor.copied(alloc)?,
        })
    }

    /// The text of the prompt's row: the character of the search, and the query.
    ///
    /// # Errors
    ///
    /// [`AllocError`] where there is no memory for it.
    pub fn displayed(&self, alloc: Global) -> Result<String, AllocError>
        ensures { IfOk result (λ row. string_bytes row ≡ typed_in self.now) }
    {
        typed(alloc, self.search_char, self.editor.query())
    }

    /// The direction of the search.
    pub fn search_mode(&self) -> SearchMode
        ensures { result ≡ self.now.mode }
    {
        self.search_mode
    }

    /// The character that stands before the query: `/` for a search forward, `?` for one back.
    pub fn search_char(&self) -> char
        ensures { Some result ≡ char_of self.now.mode }
    {
        self.search_char
    }

    /// The query.
    pub fn query(&self) -> &str
        ensures { chars result.now ≡ self.now.editor.query }
    {
        self.editor.query()
    }

    /// The cursor, in characters from 1: at most one more than the query has, and so at most 65,535.
    pub fn cursor(&self) -> usize
        ensures value { result ≡ self.now.editor.cursor }
        ensures few { result ≤ most + 1 }
        ensures last { result ≤ length self.now.editor.query + 1 }
    {
        self.editor.cursor()
    }

    /// Where the words of the query start, in characters from 1: at most at 65,535.
    pub fn word_index(&self) -> &[usize]
        ensures value { result.now ≡ starts_of self.now.editor.query }
        ensures within { AreWithin (most + 1) result.now }
    {
        self.editor.word_index()
    }

    /// Where the cursor is after an edit that removes and inserts nothing, in characters from 1: at most 65,535.
    pub fn cursor_after(&self, edit: QueryEdit) -> usize
        ensures value { result ≡ moved self.now.editor edit }
        ensures few { result ≤ most + 1 }
    {
        self.editor.moved(edit)
    }

    // Moves the cursor as an edit says that removes and inserts nothing.
    pub(crate) fn move_by(&mut self, edit: QueryEdit)
        ensures { self.new ≡ cursor_moved self.old edit }
    {
        let _ = self.editor.move_by(edit);
    }

    /// Edits the query as an event says, and tells what it did, as [`QueryEditor::feed`] does. The fixed patterns are
    /// those of the state: [`PagerState::patterns`].
    ///
    /// # Errors
    ///
    /// [`MinusError::QueryFull`] exactly where a character is typed to a query of 65,534 characters, and
    /// [`MinusError::Memory`] where there is no memory for an edit that removes or inserts: a move takes none. An `Err`
    /// changes nothing.
    pub fn feed(
        &mut self,
        alloc: Global,
        patterns: &Patterns,
        event: &Event,
    ) -> Result<Fed, MinusError>
        ensures new { OnOk result (self.new ≡ fed self.old (edit_of event.now)) }
        ensures told { IfOk result (λ f. f ≡ told_of self.old.editor (edit_of event.now)) }
        ensures moved { IfOk result (λ f. f ≡ Fed.Moved → takes_memory (edit_of event.now) ≡ false) }
        ensures taken { OnOk result (refuses self.old.editor (edit_of event.now) ≡ false) }
        ensures err { OnErr result (self.new ≡ self.old) }
        ensures refused { IfErr result (λ e. IsRefusedEdit (refusal_of e) self.old.editor (edit_of event.now)) }
    {
        self.editor.feed(alloc, patterns, event)
    }
}
