//! What is read of a description, segment by segment.
ghost use Rattle.std.specs.Prelude.{◌≡◌, List, ℕ, Option};
ghost use Rattle.minus_input.specs.Names.{key_named, action_named};
ghost use Rattle.minus_input.specs.Reading.{beginning, read_action, read_leading, read_last, read_segments};
ghost use Rattle.minus_input.specs.Segments.{segments};

use crate::names::{key_code_named, modifier_named, mouse_action_named};
use bitflags::Flags;
use minus_term::{DescriptionError, KeyCode, KeyModifiers, MouseEventKind};

/// What a segment that is no modifier can name.
pub(crate) trait Named: Copy {
    // What a segment names.
    ghost named: { List ℕ → Option Self };

    /// What this segment names.
    fn read(segment: &str) -> Option<Self>
        ensures { result ≡ named segment.now };
}

impl Named for KeyCode {
    ghost named = { key_named };

    fn read(segment: &str) -> Option<KeyCode> {
        key_code_named(segment)
    }
}

impl Named for MouseEventKind {
    ghost named = { action_named };

    fn read(segment: &str) -> Option<MouseEventKind> {
        mouse_action_named(segment)
    }
}

/// What the segments read so far say.
#[derive(Clone, Copy)]
pub struct KeySeq<C = KeyCode> {
    /// The modifiers.
    pub modifiers: KeyModifiers,
    /// The key, or the action of the mouse.
    pub code: Option<C>,
    /// Whether the next segment may be empty: it is the first one, or stands right after a modifier.
    pub may_be_empty: bool,
}

impl<C> Default for KeySeq<C> {
    fn default() -> KeySeq<C>
        ensures { result ≡ beginning }
    {
        KeySeq {
            modifiers: KeyModifiers::NONE,
            code: None,
            may_be_empty: true,
        }
    }
}

impl<C: Named> KeySeq<C> {
    /// Reads a segment that is neither empty nor a modifier.
    fn read_code(self, segment: &str) -> Result<KeySeq<C>, DescriptionError>
        ensures { result ≡ read_action C.named self segment.now }
    {
        let Some(code) = C::read(segment) else {
            return Err(DescriptionError::UnknownName);
        };
        if self.code.is_some() {
            return Err(DescriptionError::SecondKey);
        }
        Ok(KeySeq {
            code: Some(code),
            may_be_empty: false,
            ..self
        })
    }

    /// Reads a segment that a dash follows.
    fn read_leading(self, segment: &str) -> Result<KeySeq<C>, DescriptionError>
        ensures { result ≡ read_leading C.named self segment.now }
    {
        if segment.is_empty() {
            return if self.may_be_empty {
                Ok(KeySeq {
                    may_be_empty: false,
                    ..self
                })
            } else {
                Err(DescriptionError::EmptySegment)
            };
        }
        let Some(modifier) = modifier_named(segment) else {
            return self.read_code(segment);
        };
        if self.modifiers.contains(modifier) {
            return Err(DescriptionError::RepeatedModifier);
        }
        let mut modifiers = self.modifiers;
        modifiers.insert(modifier);
        Ok(KeySeq {
            modifiers,
            may_be_empty: true,
            ..self
        })
    }

    /// Reads the last segment.
    fn read_last(self, segment: &str) -> Result<KeySeq<C>, DescriptionError>
        ensures { result ≡ read_last C.named self segment.now }
    {
        if segment.is_empty() {
            return Ok(self);
        }
        self.read_code(segment)
    }

    /// Reads all the segments of a text.
    pub(crate) fn read_all(text: &str) -> Result<KeySeq<C>, DescriptionError>
        ensures { result ≡ read_segments C.named beginning (segments text.now) }
    {
        let mut seq = KeySeq::default();
        let mut rest = text;
        while let Some((segment, more)) = rest.split_once('-') {
            seq = seq.read_leading(segment)?;
            rest = more;
        }
        seq.read_last(rest)
    }
}
