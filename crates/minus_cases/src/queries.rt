//! Calls of the editor of a query.
use crate::printed::push_made;
use minus::{
    Event, KeyCode, KeyEvent, KeyEventKind, MinusError, Patterns, QueryEditor, parse_key_event,
    parse_mouse_event, parse_usize,
};
use std::alloc::{AllocError, Global};

/// An editor with the fixed patterns that it needs.
#[derive(Drop)]
pub struct Query {
    patterns: Patterns,
    editor: QueryEditor,
}

// The event that a line says: a key that is pressed, released or repeated, the mouse, or a focus that goes.
fn event_of(text: &str) -> Option<Event> {
    match text {
        "focus off" => return Some(Event::FocusLost),
        "resize 9 9" => return Some(Event::Resize(9, 9)),
        _ => {}
    }
    if let Some(mouse) = text.strip_prefix("mouse ") {
        return Some(Event::Mouse(parse_mouse_event(mouse).ok()?));
    }
    let (kind, key) = match text.split_once(' ') {
        Some(("release", key)) => (KeyEventKind::Release, key),
        Some(("repeat", key)) => (KeyEventKind::Repeat, key),
        _ => (KeyEventKind::Press, text),
    };
    let key = parse_key_event(key).ok()?;
    Some(Event::Key(KeyEvent { kind, ..key }))
}

impl Query {
    /// The editor of a query that is typed; none where memory runs out, or a character is refused.
    pub(crate) fn typed(alloc: Global, text: &str) -> Option<Query> {
        let patterns = Patterns::new(alloc).ok()?;
        let mut editor = QueryEditor::new(alloc, &patterns).ok()?;
        for character in text.chars() {
            let typed = Event::Key(KeyEvent::from(KeyCode::Char(character)));
            editor.feed(alloc, &patterns, &typed).ok()?;
        }
        Some(Query { patterns, editor })
    }

    /// Presses a key this many times.
    pub(crate) fn press(&mut self, alloc: Global, text: &str) -> Result<(), MinusError> {
        let Some((key, times)) = text.split_once(' ') else {
            return Ok(());
        };
        for _ in 0..parse_usize(times).unwrap_or(0) {
            if let Some(event) = event_of(key) {
                self.editor.feed(alloc, &self.patterns, &event)?;
            }
        }
        Ok(())
    }

    /// Feeds an event, and adds what came of it, the cursor and the query.
    pub(crate) fn feed(
        &mut self,
        alloc: Global,
        out: &mut String,
        text: &str,
    ) -> Result<(), MinusError> {
        let Some(event) = event_of(text) else {
            return Ok(());
        };
        let fed = self.editor.feed(alloc, &self.patterns, &event)?;
        let cursor = self.editor.cursor();
        let query = self.editor.query();
        push_made(out, "= ", format!(in alloc; "{fed:?} {cursor} {query}"))?;
        Ok(())
    }

    /// Adds where the words of the query start.
    pub(crate) fn push_starts(&self, alloc: Global, out: &mut String) -> Result<(), AllocError> {
        push_made(
            out,
            "= ",
            format!(in alloc; "{:?}", self.editor.word_index()),
        )
    }
}
