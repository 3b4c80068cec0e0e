//! A shown text that is put together: whatever is put on it, it stays one.
ghost use Rattle.std.specs.Prelude.{encode_utf8, ◌≡◌, ◌++◌, [], true, false, chars, replicate, string_bytes, IfOk, Some};
ghost use Rattle.std.specs.Char.{IsScalar};
ghost use Rattle.std.specs.List.{list_all};
ghost use Rattle.minus_view.specs.Shown.{read, is_control, is_plain, IsShown, PutsLine};
ghost use Rattle.minus_view.specs.TabMarks.{tab_mark, tab_text};
ghost use Rattle.minus_view.specs.declared.shown.Spot.TheVariants.{Line};

use crate::shown::{Spot, is_control, read};
use std::alloc::{AllocError, Global};

/// The sequence that resets all styles.
pub(crate) const RESET: &str = "\x1b[0m";

// What stands before and behind the spaces of a marked tab, where no style is open and where one is: neither changes
// that.
const MARK: &str = "\x1b[m";

const STYLED_MARK: &str = "\x1b[:m";

/// A shown text, but that a style may be open at its end.
#[derive(Drop)]
pub(crate) struct Sheet {
    text: String,
    styled: bool,
    ghost shown: { read (chars (string_bytes text)) (Some (Line false)) ≡ Some (Line styled) },
}

// The character, or U+FFFD for a control character.
fn shown_char(c: char) -> char
    ensures shown { is_control result ≡ false }
    ensures scalar { IsScalar result }
    ensures same { is_control c ≡ false → result ≡ c }
{
    if is_control(c) {
        char::REPLACEMENT_CHARACTER
    } else {
        c
    }
}

impl Sheet {
    /// No text.
    pub(crate) fn new(alloc: Global) -> Sheet
        ensures text { string_bytes result.text ≡ [] }
        ensures styled { result.styled ≡ false }
    {
        Sheet {
            text: String::new(alloc),
            styled: false,
        }
    }

    /// The text.
    pub(crate) fn text(&self) -> &str
        ensures text { result.now ≡ string_bytes self.now.text }
        ensures shown { self.now.styled ≡ false → IsShown result.now }
    {
        self.text.as_str()
    }

    /// Whether a style is open at its end.
    pub(crate) fn is_styled(&self) -> bool
        ensures { result ≡ self.now.styled }
    {
        self.styled
    }

    /// Takes all text away.
    pub(crate) fn clear(&mut self)
        ensures text { string_bytes self.new.text ≡ [] }
        ensures styled { self.new.styled ≡ false }
    {
        self.styled = false;
        self.text.clear();
    }

    /// Puts a text on it that leads from the text's end to a place in a line; any other text is left out.
    pub(crate) fn put(&mut self, text: &str) -> Result<(), AllocError>
        ensures put { IfOk result (λ _. PutsLine text.now self.old.styled
            (string_bytes self.old.text) (string_bytes self.new.text) self.new.styled) }
    {
        if let Some(Spot::Line(styled)) = read(Spot::Line(self.styled), text) {
            self.text.push_str(text)?;
            self.styled = styled;
        }
        Ok(())
    }

    /// Puts printed ASCII characters on it; newlines too, where no style is open.
    pub(crate) fn put_plain(&mut self, newlines: bool, plain: &str) -> Result<(), AllocError>
        requires plain { list_all (is_plain newlines) plain.now ≡ true }
        requires reset { newlines ≡ true → self.old.styled ≡ false }
        ensures styled { self.new.styled ≡ self.old.styled }
        ensures put { IfOk result (λ _. string_bytes self.new.text ≡ string_bytes self.old.text ++ plain.now) }
    {
        self.text.push_str(plain)?;
        Ok(())
    }

    /// Puts this many spaces on it.
    pub(crate) fn put_spaces(&mut self, count: usize) -> Result<(), AllocError>
        ensures styled { self.new.styled ≡ self.old.styled }
        ensures put { IfOk result (λ _.
            string_bytes self.new.text ≡ string_bytes self.old.text ++ replicate count 32) }
    {
        let mut left = count;
        while 0 < left {
            self.put_plain(false, " ")?;
            left -= 1;
        }
        Ok(())
    }

    // Puts a mark on it.
    fn put_mark(&mut self) -> Result<(), AllocError>
        ensures styled { IfOk result (λ _. self.new.styled ≡ self.old.styled) }
        ensures put { IfOk result (λ _. self.old.styled ≡ false
            → string_bytes self.new.text ≡ string_bytes self.old.text ++ tab_mark) }
    {
        if self.styled {
            self.put(STYLED_MARK)
        } else {
            self.put(MARK)
        }
    }

    /// Puts a tab on it, as this many spaces, between marks or not.
    pub(crate) fn put_tab(&mut self, marked: bool, count: usize) -> Result<(), AllocError>
        ensures styled { IfOk result (λ _. self.new.styled ≡ self.old.styled) }
        ensures put { IfOk result (λ _. self.old.styled ≡ false
            → string_bytes self.new.text ≡ string_bytes self.old.text ++ tab_text marked count) }
    {
        if !marked {
            return self.put_spaces(count);
        }
        self.put_mark()?;
        self.put_spaces(count)?;
        self.put_mark()
    }

    /// Puts a character on it; U+FFFD stands for a control character.
    pub(crate) fn put_char(&mut self, c: char) -> Result<(), AllocError>
        ensures styled { self.new.styled ≡ self.old.styled }
        ensures put { IfOk result (λ _. is_control c ≡ false
            → string_bytes self.new.text ≡ string_bytes self.old.text ++ encode_utf8 c) }
    {
        let shown = shown_char(c);
        self.text.push(shown)?;
        Ok(())
    }

    /// Resets a style that is open.
    pub(crate) fn close(&mut self) -> Result<(), AllocError>
        ensures styled { IfOk result (λ _. self.new.styled ≡ false) }
        ensures kept { self.old.styled ≡ false → string_bytes self.new.text ≡ string_bytes self.old.text }
    {
        if self.styled {
            self.put(RESET)?;
        }
        Ok(())
    }

    /// Ends its line; a style that is open is reset.
    pub(crate) fn put_newline(&mut self) -> Result<(), AllocError>
        ensures styled { IfOk result (λ _. self.new.styled ≡ false) }
    {
        self.close()?;
        self.put("\n")
    }
}
