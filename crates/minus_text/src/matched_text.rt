//! The texts of rows with their matches, and what of them is shown in some columns.
ghost use Rattle.std.specs.Prelude.{◌≡◌, ◌++◌, Some, string_bytes, IfOk, OnOk};
ghost use Rattle.minus_text.specs.Crop.{cropped};
ghost use Rattle.minus_text.specs.Found.{IsPlaced};
ghost use Rattle.minus_text.specs.FoundRows.{matches_of, FoundStands, FoundStands-prop};
ghost use Rattle.minus_text.specs.ShownMatches.{marked_within, cropped_match};

use crate::crop::{Window, push_units};
use crate::push_text::PushText;
use crate::row_text::RowText;
use crate::search::found::FoundRow;
use crate::search::highlight::{HighlightMatchesArgs, push_marked};
use crate::search::shown_matches::{push_plain, shown_matches};
use std::alloc::{AllocError, Global};

/// The text of a row, and what was found in it. `RowsView::matched_text` makes it.
#[derive(Clone, Copy)]
pub struct MatchedText<'t> {
    pub(crate) text: RowText<'t>,
    pub(crate) found: Option<&'t FoundRow>,
    pub(crate) ghost placed: { FoundStands text.text.now found } by { FoundStands-prop text.text.now found },
}

// A row's text with those of its matches in reverse that are shown in some columns.
fn marked_text(
    alloc: Global,
    row: &str,
    found: &FoundRow,
    window: Window,
) -> Result<String, AllocError>
    requires { IsPlaced row.now (matches_of found.now) }
    ensures { IfOk result (λ text. string_bytes text
        ≡ marked_within window.left window.width (Some (matches_of found.now)) row.now) }
{
    let escapes = &found.escapes;
    let matches = &found.matches;
    if escapes.is_empty() {
        let shown = shown_matches(alloc, row, window, matches)?;
        let mut text = String::new(alloc);
        push_marked(&mut text, row, &shown)?;
        return Ok(text);
    }
    let shown = HighlightMatchesArgs::of_shown(alloc, row, escapes, matches, window)?;
    shown.to_string(alloc)
}

// Adds what is shown of a text in some columns.
fn push_text_in<T: PushText>(
    alloc: Global,
    out: &mut T,
    text: RowText<'_>,
    window: Window,
) -> Result<(), AllocError>
    ensures { OnOk result (T.bytes out.new
        ≡ T.bytes out.old ++ cropped window.left window.width text.entry.text.now) }
{
    if let Some(part) = text.shown_part(window.left, window.width) {
        return out.push_text(part);
    }
    let mut row = String::new(alloc);
    push_units(&mut row, text.text, window.left, window.width)?;
    out.push_text(row.as_str())
}

// Adds what is shown of a text in some columns, with those of its matches in reverse that are shown there.
fn push_found_in<T: PushText>(
    alloc: Global,
    out: &mut T,
    text: RowText<'_>,
    found: &FoundRow,
    window: Window,
) -> Result<(), AllocError>
    requires { IsPlaced text.text.now (matches_of found.now) }
    ensures { OnOk result (T.bytes out.new ≡ T.bytes out.old
        ++ cropped_match window.left window.width (matches_of found.now) text.entry.text.now) }
{
    if found.escapes.is_empty() && text.is_plain_in(window) {
        return push_plain(out, text.text, window, &found.matches);
    }
    let marked = marked_text(alloc, text.text, found, window)?;
    push_text_in(alloc, out, RowText::new(marked.as_str()), window)
}

impl<'t> MatchedText<'t> {
    ghost use Rattle.minus_text.specs.MatchedTexts.{text_within};

    // Adds what is shown of it to a row, or to the bytes of a drawing.
    fn push_to<T: PushText>(
        self,
        alloc: Global,
        out: &mut T,
        window: Window,
    ) -> Result<(), AllocError>
        ensures { OnOk result (T.bytes out.new ≡ T.bytes out.old
            ++ cropped window.left window.width (text_within window.left window.width self.entry)) }
    {
        match self.found {
            Some(found) => push_found_in(alloc, out, self.text, found, window),
            None => push_text_in(alloc, out, self.text, window),
        }
    }

    /// Adds to a row what is shown of it in some columns, as [`crate::crop_columns`] gives it, with those of its
    /// matches in reverse that take some of these columns. A match takes the columns of the text without escape
    /// sequences that begin in it.
    ///
    /// # Errors
    ///
    /// [`AllocError`] where there is no memory for it: a beginning of it may have been added.
    pub fn push_cropped(
        self,
        alloc: Global,
        row: &mut String,
        window: Window,
    ) -> Result<(), AllocError>
        ensures { OnOk result (string_bytes row.new ≡ string_bytes row.old
            ++ cropped window.left window.width (text_within window.left window.width self.entry)) }
    {
        self.push_to(alloc, row, window)
    }

    /// Adds this to the bytes of a drawing.
    ///
    /// # Errors
    ///
    /// [`AllocError`] where there is no memory for it: a beginning of it may have been added.
    pub fn write_cropped(
        self,
        alloc: Global,
        out: &mut Vec<u8>,
        window: Window,
    ) -> Result<(), AllocError>
        ensures { OnOk result (out.new.items ≡ out.old.items
            ++ cropped window.left window.width (text_within window.left window.width self.entry)) }
    {
        self.push_to(alloc, out, window)
    }
}
