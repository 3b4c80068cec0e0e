//! The search prompt of the pager, while it is open: what the program does with its keys, and the queries taken before.
//!
//! 1. A key that edits the line of text is done here: Ctrl-A, E, U and W.
//! 2. Enter takes the query; Up and Down put one from the history in its place; Esc and Ctrl-C leave the prompt.
//! 3. Any other key is the session's, which types it.
//! 4. A query that was taken leads to its match, once the text was read so far (`goals`).
//!
//! So `?err` and Enter, typed on row 40 of a text with matches in the rows 12 and 50, leads to row 12.
use crate::fault::Fault;
use crate::view::goals::Goal;
use crate::view::jumps::{first_match_from, jump_back, jump_to};
use crate::view::{Onward, View};
use minus::{
    CommandOf, Event, InputEvent, InputOf, IoCommand, KeyCode, KeyModifiers, MinusError,
    OutputSink, PagerState, SearchMode, write_bytes,
};
use minus_view::{SearchKey, press, search_key};
use regex::Regex;

// The query in the search prompt; an empty one where none is open.
fn query_of(state: &PagerState) -> &str {
    match state.open_search() {
        Some(search) => search.prompt.query(),
        None => "",
    }
}

/// The bytes by which the terminal cuts a query that is longer than its row, and does not scroll the page for it.
const WRAP_OFF: &str = "\x1b[?7l";

/// The bytes by which it wraps what is longer than a row again.
const WRAP_ON: &str = "\x1b[?7h";

// What stands at the front of a pattern whose capitals do not count.
const ANY_CASE: &str = "(?i)";

// The character of a key that is pressed with Ctrl.
fn controlled(event: &Event) -> Option<char> {
    match event {
        Event::Key(key) if key.modifiers == KeyModifiers::CONTROL => match key.code {
            KeyCode::Char(c) => Some(c),
            _ => None,
        },
        _ => None,
    }
}

// How many characters the word before a cursor and the blanks behind it have; the cursor is counted from 1.
fn word_len(query: &str, cursor: usize) -> usize {
    let (mut len, mut was_blank) = (0_usize, false);
    for c in query.chars().take(cursor.saturating_sub(1)) {
        if was_blank && c != ' ' {
            len = 0;
        }
        len = len.saturating_add(1);
        was_blank = c == ' ';
    }
    len
}

// Whether no row matches what was searched for.
fn has_missed(state: &PagerState) -> bool {
    state.term().is_some() && state.matches().is_empty()
}

impl<S: OutputSink + Drop> View<S> {
    /// Whether the search prompt is open.
    pub(crate) fn is_searching(&self) -> bool {
        self.session.state().open_search().is_some()
    }

    /// Lets the terminal cut long queries while the search prompt is open: others may write on it at any other time.
    pub(super) fn heed_prompt(&mut self, was_open: bool) -> Result<(), Fault> {
        let is_open = self.is_searching();
        if is_open != was_open {
            let bytes = if is_open { WRAP_OFF } else { WRAP_ON };
            write_bytes(&mut self.terminal, bytes.as_bytes())?;
        }
        self.show_query_row()
    }

    // Tells the session an event while no search prompt is open, which may open one.
    pub(super) fn tell_page(&mut self, event: Event) -> Result<Onward, Fault> {
        let told = self.session.state().search_mark();
        let onward = self.step_in_place(InputOf::Event(event))?;
        if self.is_searching() {
            self.begin_jump();
            self.queries.told_before = told;
            self.queries.history.begin();
        }
        self.follow_on()?;
        Ok(onward)
    }

    // Lets the prompt row report the match that it reported before the search prompt was open.
    fn restore_match(&mut self) -> Result<(), Fault> {
        let state = self.session.state();
        let told = self.queries.told_before;
        if told == state.search_mark() || told >= state.matches().len() {
            return Ok(());
        }
        let mark = state.upper_mark;
        let jump = jump_to(state, told);
        self.command(CommandOf::UserInput(InputEvent::MoveToNextMatch(jump)))?;
        self.command(CommandOf::Io(IoCommand::SetUpperMark(mark)))
    }

    // Closes the search prompt, and takes no query.
    fn close_search(&mut self) -> Result<(), Fault> {
        let _ = self.step(InputOf::Event(press(KeyCode::Esc, 0)))?;
        if self.is_searching() {
            return Ok(());
        }
        self.restore_match()
    }

    // Closes the search prompt, takes no query, and goes on following.
    fn leave_search(&mut self) -> Result<(), Fault> {
        self.close_search()?;
        self.follow_on()
    }

    // Closes the search prompt, and goes to the next match of what was searched for before, in its direction.
    fn repeat_search(&mut self) -> Result<(), Fault> {
        self.close_search()?;
        self.typed.count = None;
        self.next_match(true)?;
        self.follow_on()
    }

    // Goes to the match of the query that was taken at this page: the session has searched on, in both directions.
    fn go_to_match(&mut self, mark: usize) -> Result<(), Fault> {
        let state = self.session.state();
        if state.message.is_some() {
            return self.restore_match();
        }
        let is_back = state.search_state.search_mode == SearchMode::Reverse;
        let first = first_match_from(state, mark);
        if first < state.matches().len() || self.reading.is_whole {
            self.notices.was_missed = has_missed(state);
            if is_back {
                let back = jump_back(state, mark);
                return self.command(CommandOf::UserInput(back));
            }
            return Ok(());
        }
        if is_back && first > 0 {
            return self.lead_to(first - 1);
        }
        self.command(CommandOf::Io(IoCommand::SetUpperMark(mark)))?;
        self.head_for(Goal::Match(first))
    }

    /// Searches for a pattern from now on, or for none; the page stays. Out of memory, nothing changes, and the prompt
    /// row says so.
    pub(super) fn set_term(&mut self, term: Option<Regex>) -> Result<(), Fault> {
        match self.session.set_term(term) {
            Ok(()) => Ok(()),
            Err(MinusError::Memory) => {
                self.notices.was_short = true;
                Ok(())
            }
            Err(cause) => Err(Fault::Pager(cause)),
        }
    }

    /// Shows the matches again that are not shown any more.
    pub(super) fn show_hidden(&mut self) -> Result<(), Fault> {
        let Some(pattern) = self.queries.hidden.take() else {
            return Ok(());
        };
        let Ok(term) = Regex::new(self.alloc, pattern.as_str()) else {
            self.notices.was_short = true;
            return Ok(());
        };
        self.say_before("(searching)")?;
        self.set_term(Some(term))
    }

    // The pattern of a query, whose capitals may not count; none where it is none, or there is no memory for it.
    fn pattern_of(&self, query: &str) -> Option<Regex> {
        let front = if self.queries.leave_out_case(query) {
            ANY_CASE
        } else {
            ""
        };
        let source = format!(in self.alloc; "{front}{query}").ok()?;
        Regex::new(self.alloc, source.as_str()).ok()
    }

    // Keeps the pattern whose matches are not shown any more. Out of memory, the one before is kept.
    fn keep_hidden(&mut self, term: &Regex) {
        if let Ok(pattern) = String::from_str(self.alloc, term.as_str()) {
            self.queries.hidden = Some(pattern);
        }
    }

    /// Searches for the last query once more, whose capitals count now, or do not; the page stays. Out of memory, the
    /// matches stay.
    pub(super) fn search_again(&mut self) -> Result<(), Fault> {
        let Some(query) = &self.queries.last else {
            return Ok(());
        };
        let Some(term) = self.pattern_of(query.as_str()) else {
            return Ok(());
        };
        if self.queries.hidden.is_some() {
            self.keep_hidden(&term);
            return Ok(());
        }
        self.say_before("(searching)")?;
        self.set_term(Some(term))
    }

    // Whether the session's own key is not what a query is to be taken by: its capitals do not count, or it takes a
    // while, which is to be said before.
    fn is_searched_apart(&self) -> bool {
        let query = query_of(self.session.state());
        self.is_slow() || self.queries.leave_out_case(query)
    }

    // Goes to the match of the term that was set while the page began with a row: as of a query that was taken there.
    fn go_from(&mut self, mark: usize) -> Result<(), Fault> {
        let state = self.session.state();
        let first = first_match_from(state, mark);
        if state.search_state.search_mode == SearchMode::Reverse && first > 0 {
            return self.lead_to(first - 1);
        }
        self.head_for(Goal::Match(first))
    }

    // Searches for the query beside the search prompt, which is closed. One that is no pattern is the session's to
    // refuse.
    fn search_apart(&mut self, event: Event) -> Result<(), Fault> {
        let Some(term) = self.pattern_of(query_of(self.session.state())) else {
            return self.take_by_key(event);
        };
        let mark = self.session.state().upper_mark;
        let _ = self.step(InputOf::Event(press(KeyCode::Esc, 0)))?;
        self.say_before("(searching)")?;
        self.set_term(Some(term))?;
        self.go_from(mark)
    }

    // Lets the session take the query.
    fn take_by_key(&mut self, event: Event) -> Result<(), Fault> {
        let mark = self.session.state().upper_mark;
        let _ = self.step(InputOf::Event(event))?;
        if self.is_searching() {
            return Ok(());
        }
        self.go_to_match(mark)
    }

    // Keeps the query, and takes it. Out of memory, it is not kept.
    fn take_query(&mut self, event: Event) -> Result<(), Fault> {
        let query = query_of(self.session.state());
        let _ = self.queries.history.take(query);
        self.queries.last = String::from_str(self.alloc, query).ok();
        self.queries.hidden = None;
        if self.is_searched_apart() {
            self.search_apart(event)?;
        } else {
            self.take_by_key(event)?;
        }
        self.follow_on()
    }

    /// Searches for a query from the page on, as if it were typed; for an empty one, nothing.
    ///
    /// # Errors
    ///
    /// [`Fault::Pager`] where the session refuses.
    pub(crate) fn search(&mut self, query: &str) -> Result<(), Fault> {
        if query.is_empty() {
            return Ok(());
        }
        self.command(CommandOf::UserInput(InputEvent::Search(SearchMode::Forward)))?;
        self.queries.history.begin();
        for c in query.chars() {
            let _ = self.step(InputOf::Event(press(KeyCode::Char(c), 0)))?;
        }
        self.take_query(press(KeyCode::Enter, 0))
    }

    // Removes all characters of the query.
    fn erase(&mut self) -> Result<(), Fault> {
        let count = query_of(self.session.state()).chars().count();
        let _ = self.step(InputOf::Event(press(KeyCode::End, 0)))?;
        for _ in 0..count {
            let _ = self.step(InputOf::Event(press(KeyCode::Backspace, 0)))?;
        }
        Ok(())
    }

    // Removes the word before the cursor, and the blanks behind it.
    fn erase_word(&mut self) -> Result<(), Fault> {
        let count = match self.session.state().open_search() {
            Some(search) => word_len(search.prompt.query(), search.prompt.cursor()),
            None => 0,
        };
        for _ in 0..count {
            let _ = self.step(InputOf::Event(press(KeyCode::Backspace, 0)))?;
        }
        Ok(())
    }

    // Does what a key with Ctrl edits in a line of text, and answers whether it does.
    fn edit(&mut self, event: &Event) -> Result<bool, Fault> {
        match controlled(event) {
            Some('a') => {
                let _ = self.step(InputOf::Event(press(KeyCode::Home, 0)))?;
            }
            Some('e') => {
                let _ = self.step(InputOf::Event(press(KeyCode::End, 0)))?;
            }
            Some('u') => self.erase()?,
            Some('w') => self.erase_word()?,
            _ => return Ok(false),
        }
        Ok(true)
    }

    // Types the query that the history shows in the place of the one in the prompt. Out of memory, that one stays.
    fn retype(&mut self) -> Result<(), Fault> {
        let Ok(query) = String::from_str(self.alloc, self.queries.history.shown()) else {
            return Ok(());
        };
        self.erase()?;
        for c in query.chars() {
            let _ = self.step(InputOf::Event(press(KeyCode::Char(c), 0)))?;
        }
        Ok(())
    }

    // Puts an older query in the prompt, if there is one. Out of memory, the query stays.
    fn recall_older(&mut self) -> Result<(), Fault> {
        match self.queries.history.go_back(query_of(self.session.state())) {
            Ok(true) => self.retype(),
            _ => Ok(()),
        }
    }

    // Puts a newer query in the prompt, or what was typed, if the prompt has an older one.
    fn recall_newer(&mut self) -> Result<(), Fault> {
        if self.queries.history.go_on() {
            return self.retype();
        }
        Ok(())
    }

    /// Tells the open search prompt an event, but for those that are the program's. What was typed ahead has Ctrl-J for
    /// Enter.
    pub(super) fn tell_search(&mut self, event: Event) -> Result<Onward, Fault> {
        let event = match controlled(&event) {
            Some('j') => press(KeyCode::Enter, 0),
            _ => event,
        };
        if self.edit(&event)? {
            return Ok(Onward::On);
        }
        match search_key(&event, query_of(self.session.state()).is_empty()) {
            SearchKey::Types => return self.step(InputOf::Event(event)),
            SearchKey::Takes => self.take_query(event)?,
            SearchKey::Repeats => self.repeat_search()?,
            SearchKey::Leaves => self.leave_search()?,
            SearchKey::Suspends => {
                self.leave_search()?;
                return Ok(Onward::Suspended);
            }
            SearchKey::Older => self.recall_older()?,
            SearchKey::Newer => self.recall_newer()?,
        }
        Ok(Onward::On)
    }
}
