//! Changes of a state's text and of its layout, each at once.
use crate::change::AppendStyle;
use crate::state::search_mark::search_mark_anew;
use crate::state::term::kept_pattern;
use crate::state::{PagerState, searching};
use minus_term::MinusError;
use minus_text::Layout;
use std::alloc::Global;

impl PagerState {
    ghost use Rattle.std.specs.Prelude.{◌≡◌, length, if◌then◌else◌, OnOk, OnErr, IfOk, IfErr};
    ghost use Rattle.minus_text.specs.Document.{rows_of};
    ghost use Rattle.minus_state.specs.Appending.{append_style, lengthened};
    ghost use Rattle.minus_state.specs.Aside.{aside_of};
    ghost use Rattle.minus_state.specs.Control.{reformed, laid_as};
    ghost use Rattle.minus_state.specs.States.{control_of, IsFormed};

    /// Makes room for this number of bytes of text more: in the displayed text, or, while help is open, in the one that
    /// is saved. All that a caller reads stays as it is, whether there is room or not. The room is used by appends; it
    /// goes where the text is formed again, as at another size.
    ///
    /// # Errors
    ///
    /// [`MinusError::Memory`] where there is no memory for it.
    pub fn reserve(&mut self, bytes: usize) -> Result<(), MinusError>
        ensures saved { aside_of self.new.saved ≡ aside_of self.old.saved }
        ensures rest { self.new ≡ record self.old { saved = self.new.saved } }
        ensures memory { IfErr result (λ e. e ≡ MinusError.Memory) }
    {
        match &mut self.saved {
            Some(saved) => saved.text.reserve(bytes)?,
            None => self.screen.reserve(bytes)?,
        }
        Ok(())
    }

    // How a text was appended, where this was the first row that it might change.
    fn append_style(&self, first: usize, keeps_rows: bool) -> AppendStyle
        ensures { result ≡ (if keeps_rows
            then AppendStyle.PartialUpdate (first, length (rows_of self.now.screen.document))
            else AppendStyle.FullRedraw) }
    {
        if keeps_rows {
            return AppendStyle::PartialUpdate((first, self.screen.formatted_lines_count()));
        }
        AppendStyle::FullRedraw
    }

    /// Adds this text at the end of the displayed text, and answers how. The mark stays where it is; the rows that are
    /// formed, and no others, are searched for the term.
    ///
    /// # Errors
    ///
    /// [`MinusError::Memory`] where there is no memory, and nothing has changed.
    pub fn append_str(&mut self, alloc: Global, text: &str) -> Result<AppendStyle, MinusError>
        ensures control { OnOk result (IsFormed self.old →
            control_of self.new ≡ lengthened (control_of self.old) text.now) }
        ensures formed { OnOk result (IsFormed self.old → IsFormed self.new) }
        ensures style { IfOk result (λ style. IsFormed self.old →
            style ≡ append_style (control_of self.old) text.now) }
        ensures err { OnErr result (self.new ≡ self.old) }
        ensures memory { IfErr result (λ e. e ≡ MinusError.Memory) }
    {
        let first = self.first_changed();
        let columns = self.prefix();
        let term = searching(&self.patterns, kept_pattern(&self.term));
        let _ = self
            .screen
            .push_screen_buf(alloc, text, self.line_numbers, self.cols, term)?;
        let keeps_rows = self.prefix() == columns;
        self.search_mark = self.search_mark_behind(self.screen.view(), keeps_rows);
        Ok(self.append_style(first, keeps_rows))
    }

    // Forms the rows again in a layout, and searches them for the term.
    fn reform(&mut self, alloc: Global, layout: Layout) -> Result<(), MinusError>
        requires cols { layout.cols ≡ self.old.cols }
        requires numbers { layout.numbers ≡ self.old.line_numbers }
        ensures control { OnOk result (control_of self.new
            ≡ reformed (laid_as (control_of self.old) layout)) }
        ensures formed { OnOk result (IsFormed self.new) }
        ensures err { OnErr result (self.new ≡ self.old) }
        ensures memory { IfErr result (λ e. e ≡ MinusError.Memory) }
    {
        let term = searching(&self.patterns, kept_pattern(&self.term));
        let _ = self.screen.reform(alloc, layout, term)?;
        self.search_mark = search_mark_anew(self.screen.view(), self.upper_mark);
        self.tell_mode();
        Ok(())
    }

    /// Puts another text in the place of the displayed one. The mark stays where it is.
    ///
    /// # Errors
    ///
    /// [`MinusError::Memory`] where there is no memory, and nothing has changed.
    pub fn set_text(&mut self, alloc: Global, text: &str) -> Result<(), MinusError>
        ensures control { OnOk result (control_of self.new
            ≡ reformed (record (control_of self.old) { text = text.now })) }
        ensures formed { OnOk result (IsFormed self.new) }
        ensures err { OnErr result (self.new ≡ self.old) }
        ensures memory { IfErr result (λ e. e ≡ MinusError.Memory) }
    {
        let layout = self.layout();
        let term = searching(&self.patterns, kept_pattern(&self.term));
        let _ = self.screen.set_text(alloc, text, layout, term)?;
        self.search_mark = search_mark_anew(self.screen.view(), self.upper_mark);
        self.tell_mode();
        Ok(())
    }

    /// Wraps lines that are too long for the columns, or lets each be one row. The mark stays where it is.
    ///
    /// # Errors
    ///
    /// [`MinusError::Memory`] where there is no memory, and nothing has changed.
    pub fn set_line_wrapping(&mut self, alloc: Global, wrapping: bool) -> Result<(), MinusError>
        ensures control { OnOk result (control_of self.new
            ≡ reformed (record (control_of self.old) { wrapping = wrapping })) }
        ensures formed { OnOk result (IsFormed self.new) }
        ensures err { OnErr result (self.new ≡ self.old) }
        ensures memory { IfErr result (λ e. e ≡ MinusError.Memory) }
    {
        let layout = Layout {
            wrapping,
            ..self.layout()
        };
        self.reform(alloc, layout)
    }

    /// Puts each row with the style that its line carries to it, and ends the row with a reset where it leaves a style
    /// open; or puts rows as their texts are. A style does not go on from line to line. The mark stays where it is.
    ///
    /// # Errors
    ///
    /// [`MinusError::Memory`] where there is no memory, and nothing has changed.
    pub fn set_carry_style(&mut self, alloc: Global, carry_style: bool) -> Result<(), MinusError>
        ensures control { OnOk result (control_of self.new
            ≡ reformed (record (control_of self.old) { carry_style = carry_style })) }
        ensures formed { OnOk result (IsFormed self.new) }
        ensures err { OnErr result (self.new ≡ self.old) }
        ensures memory { IfErr result (λ e. e ≡ MinusError.Memory) }
    {
        let layout = Layout {
            carry_style,
            ..self.layout()
        };
        self.reform(alloc, layout)
    }

    /// Searches for the term in each line, so that matches go over the ends of rows, or in each row by itself. The mark
    /// stays where it is, and the prompt row reports the first row that matches at it or behind it.
    ///
    /// # Errors
    ///
    /// [`MinusError::Memory`] where there is no memory, and nothing has changed.
    pub fn set_match_lines(&mut self, alloc: Global, match_lines: bool) -> Result<(), MinusError>
        ensures control { OnOk result (control_of self.new
            ≡ reformed (record (control_of self.old) { match_lines = match_lines })) }
        ensures formed { OnOk result (IsFormed self.new) }
        ensures err { OnErr result (self.new ≡ self.old) }
        ensures memory { IfErr result (λ e. e ≡ MinusError.Memory) }
    {
        let layout = Layout {
            match_lines,
            ..self.layout()
        };
        self.reform(alloc, layout)
    }

    /// Forms the rows again, for the columns and the numbers that the state has now.
    ///
    /// # Errors
    ///
    /// [`MinusError::Memory`] where there is no memory, and nothing has changed.
    pub fn reformat_display(&mut self, alloc: Global) -> Result<(), MinusError>
        ensures control { OnOk result (control_of self.new ≡ reformed (control_of self.old)) }
        ensures formed { OnOk result (IsFormed self.new) }
        ensures err { OnErr result (self.new ≡ self.old) }
        ensures memory { IfErr result (λ e. e ≡ MinusError.Memory) }
    {
        self.reform(alloc, self.layout())
    }
}
