//! Where the tabs of the displayed text stand in it, so that they are copied as tabs.
use minus_view::{Tab, Unmarked, take_marks};
use std::alloc::{AllocError, Global};

/// The tabs of a text, as far as it was added.
#[derive(Drop)]
pub struct Tabs {
    // Whether the text comes with marks of its tabs.
    is_marked: bool,
    places: Vec<Tab>,
    // The bytes of the text.
    len: usize,
}

/// How far the tabs of a text were kept.
#[derive(Clone, Copy)]
pub struct Kept {
    places: usize,
    len: usize,
}

impl Tabs {
    /// Those of no text; one that is added comes with marks or not.
    pub(super) fn new(alloc: Global, is_marked: bool) -> Tabs {
        Tabs {
            is_marked,
            places: Vec::new(alloc),
            len: 0,
        }
    }

    /// Where they stand, in bytes of the text.
    pub(super) fn places(&self) -> &[Tab] {
        self.places.as_slice()
    }

    /// Forgets the tabs of the text: another one of this many bytes, without marks, stands in its place.
    pub(super) fn begin(&mut self, len: usize) {
        self.places.clear();
        self.len = len;
    }

    /// How far they are kept.
    pub(super) fn kept(&self) -> Kept {
        Kept {
            places: self.places.len(),
            len: self.len,
        }
    }

    /// Forgets what was kept since.
    pub(super) fn go_back(&mut self, kept: Kept) {
        self.places.truncate(kept.places);
        self.len = kept.len;
    }

    // Keeps a tab that begins and ends this many bytes behind the text.
    fn keep(&mut self, tab: Tab) -> Result<(), AllocError> {
        self.places.push(Tab {
            start: self.len.saturating_add(tab.start),
            end: self.len.saturating_add(tab.end),
        })?;
        Ok(())
    }

    /// Takes the marks out of a text that is to be added, and keeps its tabs.
    ///
    /// # Errors
    ///
    /// [`AllocError`] where there is no memory; some of the tabs may be kept then.
    pub(super) fn take(&mut self, alloc: Global, text: String) -> Result<String, AllocError> {
        if !self.is_marked {
            return Ok(text);
        }
        let Unmarked { text, tabs } = take_marks(alloc, text.as_str())?;
        for tab in &tabs {
            self.keep(*tab)?;
        }
        self.len = self.len.saturating_add(text.len());
        Ok(text)
    }
}
