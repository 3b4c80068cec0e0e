//! The style that a row is put with.
ghost use Rattle.std.specs.Prelude.{◌≡◌, ◌<◌, ◌≤◌, ◌==◌, true, false, length, take, slice_index, IsTrue};
ghost use Rattle.minus_text.specs.CarriedStyles.{carried_style, StylesStandBefore};
ghost use Rattle.minus_text.specs.Document.{pushed};
ghost use Rattle.minus_text.specs.Lines.{unfinished_line};
ghost use Rattle.minus_text.specs.Pending.{IsPending};
ghost use Rattle.minus_text.specs.RowText.{IsUnescapedFrom};
ghost use Rattle.minus_text.specs.Styles.{read_text};
ghost use Rattle.minus_text.specs.StylesStay.{CarriedStylesStay};
ghost use Rattle.minus_text.specs.StyleSources.{EndsStyles, IsStylePart, source_style};

use crate::formed_push::FormedPush;
use crate::push_text::PushText;
use crate::search::styles::StyleReader;
use crate::store::Store;
use crate::view::RowsView;
use memchr::{memchr, memrchr2};
use std::alloc::{AllocError, Global};

const ESC: u8 = 0x1b;

// A part of a text that gives the style behind the text: it is empty, or begins with ESC.
#[derive(Clone, Copy, Debug)]
pub(crate) struct StylePart<'t> {
    pub(crate) bytes: &'t [u8],
    // Whether a newline or a reset stands before the part, so that nothing before the text counts.
    pub(crate) is_ended: bool,
}

// Whether a text begins with a reset: `ESC[m` or `ESC[0m`.
fn begins_reset(bytes: &[u8]) -> bool
    ensures { IsTrue result → EndsStyles bytes.now }
{
    if bytes.len() < 3 || bytes[0] != ESC || bytes[1] != b'[' {
        return false;
    }
    if bytes[2] == b'm' {
        return true;
    }
    bytes.len() > 3 && bytes[2] == b'0' && bytes[3] == b'm'
}

// Whether a text begins with a newline or a reset.
fn ends_styles(bytes: &[u8]) -> bool
    requires { 0 < length bytes.now }
    ensures ended { IsTrue result → EndsStyles bytes.now }
    ensures same_line { result ≡ false → (slice_index bytes.now 0 == 10) ≡ false }
{
    bytes[0] == b'\n' || begins_reset(bytes)
}

// The part of a text that gives the style behind it. The text is read from its end, from ESC to ESC, up to a newline or
// a reset.
pub(crate) fn style_part(bytes: &[u8]) -> StylePart<'_>
    ensures { IsStylePart bytes.now result }
{
    let mut from = bytes.len();
    while let Some(at) = memrchr2(ESC, b'\n', &bytes[..from]) {
        if ends_styles(&bytes[at..]) {
            return StylePart {
                bytes: &bytes[from..],
                is_ended: true,
            };
        }
        from = at;
    }
    StylePart {
        bytes: &bytes[from..],
        is_ended: false,
    }
}

// What of a text gives the style at a place of it, in bytes: nothing, where it is known to have no ESC.
fn style_bytes(text: &str, unescaped: bool, at: usize) -> &[u8]
    requires place { at ≤ length text.now }
    requires known { unescaped ≡ true → IsUnescapedFrom 0 text.now }
    ensures { read_text result.now ≡ read_text (unfinished_line (take at text.now)) }
{
    if unescaped {
        return &[];
    }
    style_part(&text.as_bytes()[..at]).bytes
}

// Where the style of a row is read: the bytes of its line before it, as far as they count. Those of a store come first,
// and behind them those of a push that is not in its place yet.
#[derive(Clone, Copy, Debug)]
pub(crate) struct StyleSource<'s> {
    pub(crate) kept: &'s [u8],
    pub(crate) formed: &'s [u8],
}

impl<'s> StyleSource<'s> {
    ghost use Rattle.std.specs.Prelude.{[], ◌++◌, OnOk};

    // No style.
    pub(crate) const NONE: StyleSource<'static> = StyleSource {
        kept: &[],
        formed: &[],
    };

    // Whether it has no ESC, so that no style is read there.
    pub(crate) fn is_plain(self) -> bool
        ensures { IsTrue result → source_style self.entry ≡ [] }
    {
        memchr(ESC, self.kept).is_none() && memchr(ESC, self.formed).is_none()
    }

    // Whether it has no bytes.
    fn is_empty(self) -> bool
        ensures { IsTrue result → source_style self.entry ≡ [] }
    {
        self.kept.is_empty() && self.formed.is_empty()
    }

    // Adds the style to a row, or to the bytes of a drawing.
    pub(crate) fn push_to<T: PushText>(self, alloc: Global, out: &mut T) -> Result<(), AllocError>
        ensures { OnOk result (T.bytes out.new ≡ T.bytes out.old ++ source_style self.entry) }
    {
        if self.is_empty() {
            return Ok(());
        }
        let mut reader = StyleReader::new(alloc);
        reader.read_bytes(self.kept)?;
        reader.read_bytes(self.formed)?;
        out.push_text(reader.held())
    }
}

impl Store {
    // Where the style is read that is carried to a row, counted from 0. Where the layout carries none, it is nowhere.
    pub(crate) fn style_source(&self, i: usize) -> StyleSource<'_>
        ensures { source_style result ≡ carried_style self.now i }
    {
        if !self.layout().carry_style {
            return StyleSource::NONE;
        }
        let text = self.orig_text();
        match self.row_place(i) {
            Some(place) => StyleSource {
                kept: style_bytes(text, self.is_unescaped(), place.start),
                formed: &[],
            },
            None => StyleSource::NONE,
        }
    }
}

impl FormedPush {
    ghost use Rattle.std.specs.Prelude.{option_map};
    ghost use Rattle.std.specs.Str.{IsUtf8};
    ghost use Rattle.minus_text.specs.CarriedStyles.{style_before};
    ghost use Rattle.minus_text.specs.PushedPlaces.{formed_from};
    ghost use Rattle.minus_text.specs.StyleSources.{formed_place, formed_before, text_with};

    // What stands before a row that is formed, counted from 0, in what is formed.
    fn bytes_before(&self, i: usize) -> Option<&[u8]>
        ensures before { option_map (λ b. b.now) result
            ≡ option_map (formed_before self.now) (formed_place self.now i) }
        ensures text { IsUtf8 self.now.tail.text }
    {
        let at = self.start.finished.bytes + self.start.bytes;
        let bytes = self.tail.as_bytes();
        match self.formed.rows.get(i) {
            Some(row) => Some(&bytes[..row.start - at]),
            None => None,
        }
    }

    // Where the style is read that is carried to a row that is formed, counted from 0, behind the text of a store.
    fn style_source<'s>(&'s self, text: &'s str, unescaped: bool, i: usize) -> StyleSource<'s>
        requires place { formed_from self.now.start ≤ length text.now }
        requires known { unescaped ≡ true → IsUnescapedFrom 0 text.now }
        ensures { source_style result
            ≡ style_before (text_with text.now self.now) (formed_place self.now i) }
    {
        let Some(formed) = self.bytes_before(i) else {
            return StyleSource::NONE;
        };
        let part = style_part(formed);
        if part.is_ended {
            return StyleSource {
                kept: &[],
                formed: part.bytes,
            };
        }
        let at = self.start.finished.bytes + self.start.bytes;
        StyleSource {
            kept: style_bytes(text, unescaped, at),
            formed,
        }
    }
}

// Where the style is read that is carried to a row, counted from 0, of the rows that a push of a piece would leave.
fn source_after<'s>(
    store: &'s Store,
    piece: &str,
    push: &'s FormedPush,
    i: usize,
) -> StyleSource<'s>
    requires { IsPending store.now piece.now push.now.numbers push.now.cols push.now }
    ensures { source_style result ≡ carried_style
        (pushed store.now piece.now push.now.numbers push.now.cols) i }
{
    let text = store.orig_text();
    let kept = push.kept_rows();
    if i < kept {
        return store.style_source(i);
    }
    if !store.layout().carry_style {
        return StyleSource::NONE;
    }
    push.style_source(text, store.is_unescaped(), i - kept)
}

impl<'s> RowsView<'s> {
    ghost use Rattle.minus_text.specs.Views.{viewed};

    // Where the style is read that is carried to a row, counted from 0.
    pub(crate) fn style_source(self, i: usize) -> StyleSource<'s>
        ensures { source_style result ≡ carried_style (viewed self.entry).document i }
    {
        match self.next {
            Some(next) => source_after(self.store, next.text, next.pending.push(), i),
            None => self.store.style_source(i),
        }
    }
}

/// The style that is carried to a row is that of what stands before the row in its line.
pub fn styles_stand_before()
    ensures { StylesStandBefore }
{}

/// A row that a push keeps has the style that it had.
pub fn carried_styles_stay()
    ensures { CarriedStylesStay }
{}
