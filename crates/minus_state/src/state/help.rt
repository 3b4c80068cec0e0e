//! Help, which is shown in the place of the text.
ghost use Rattle.std.specs.Prelude.{◌≡◌, string_bytes, OnOk, OnErr, IfErr};
ghost use Rattle.minus_state.specs.Aside.{aside_of};
ghost use Rattle.minus_state.specs.Help.{text_aside, more_aside};

use crate::change::{Change, MessageChange, NextText, Redraw, boxed};
use crate::state::PagerState;
use minus_term::MinusError;
use minus_text::{Layout, LineNumbers};
use std::alloc::{AllocError, Global};

// What the prompt says while help is open.
const PROMPT: &str = "HELP -- Press q or Shift-m to return to pager";

/// What is saved while help is open.
#[derive(Debug, Drop)]
pub struct Saved {
    /// The text that was displayed, as it was replaced or added to since.
    pub text: String,
    /// Whether lines that are too long for the columns are wrapped.
    pub wrapping: bool,
    /// Whether rows begin with the numbers of their lines.
    pub numbers: LineNumbers,
    /// The first row of text on the page, counted from 0.
    pub upper_mark: usize,
    /// The columns that are cut off at the left where lines are not wrapped.
    pub left_mark: usize,
    /// What the prompt says.
    pub prompt: String,
    /// Whether the page goes on with what is appended.
    pub follow: bool,
}

/// Whether help is opened or left.
#[derive(Drop)]
pub enum HelpChange {
    /// Neither: what is saved stays so.
    Stays,
    /// Help is opened: this is saved. It stands in a box, since it is large and most changes have none.
    Opens(Box<Saved>),
    /// Help is left: nothing is saved.
    Closes,
}

impl HelpChange {
    ghost use Rattle.minus_state.specs.Changes.{help_after};

    // Puts what is saved in its place.
    pub(crate) fn put(self, place: &mut Option<Saved>)
        ensures { aside_of place.new ≡ help_after self (aside_of place.old) }
    {
        match self {
            HelpChange::Stays => {}
            HelpChange::Opens(saved) => *place = Some(Box::into_inner(saved)),
            HelpChange::Closes => *place = None,
        }
    }
}

// Puts another text in the place of the one that is saved, if one is.
pub(crate) fn replace_aside(saved: &mut Option<Saved>, text: String)
    ensures { aside_of saved.new ≡ text_aside (string_bytes text) (aside_of saved.old) }
{
    if let Some(saved) = saved {
        saved.text = text;
    }
}

// Adds a text to the one that is saved, if one is. An `Err` changes nothing.
pub(crate) fn add_aside(saved: &mut Option<Saved>, text: &str) -> Result<(), MinusError>
    ensures ok { OnOk result (aside_of saved.new ≡ more_aside text.now (aside_of saved.old)) }
    ensures err { OnErr result (aside_of saved.new ≡ aside_of saved.old) }
    ensures memory { IfErr result (λ e. e ≡ MinusError.Memory) }
{
    if let Some(saved) = saved {
        saved.text.push_str(text)?;
    }
    Ok(())
}

impl PagerState {
    ghost use Rattle.std.specs.Prelude.{not, IfOk};
    ghost use Rattle.std.specs.Option.{option_map};
    ghost use Rattle.minus_state.specs.Changes.{Leads};
    ghost use Rattle.minus_state.specs.Help.{help_open, put_aside, opened, closed, shown_help, left_help, prompt_restored, toggled_with, with_text};
    ghost use Rattle.minus_state.specs.Aside.{aside_in};
    ghost use Rattle.minus_state.specs.States.{control_of, IsFormed};
    ghost use Rattle.minus_state.specs.Appending.{with_more};
    ghost use Rattle.minus_state.specs.RedrawExtent.{whole_where, added_redraw};

    /// Whether help is open.
    pub fn help_open(&self) -> bool
        ensures { result ≡ help_open (control_of self.now) }
    {
        self.saved.is_some()
    }

    // What is saved as help is opened.
    fn put_aside(&self, alloc: Global) -> Result<Saved, AllocError>
        ensures { IfOk result (λ s. aside_in s ≡ put_aside (control_of self.now)) }
    {
        Ok(Saved {
            text: self.copied_text(alloc)?,
            wrapping: self.line_wrapping(),
            numbers: self.line_numbers,
            upper_mark: self.upper_mark,
            left_mark: self.left_mark,
            prompt: String::from_str(alloc, &self.prompt)?,
            follow: self.follow,
        })
    }

    // The state with help opened on a text.
    fn helped(&self, alloc: Global, text: String) -> Result<Change, MinusError>
        ensures next { IfOk result (λ c. Leads self.now c
            (opened (control_of self.now) (string_bytes text))) }
        ensures redraw { IfOk result (λ c. c.redraw ≡ Redraw.Whole) }
        ensures memory { IfErr result (λ e. e ≡ MinusError.Memory) }
    {
        let layout = Layout {
            cols: self.cols,
            wrapping: false,
            numbers: LineNumbers::Disabled,
            match_lines: self.match_lines(),
            carry_style: self.carry_style(),
        };
        let prompt = String::from_str(alloc, PROMPT)?;
        let saved = boxed(alloc, self.put_aside(alloc)?)?;
        let mut change = self.formed_anew(alloc, text, layout, 0)?;
        change.left = 0;
        change.follow = false;
        change.prompt = Some(prompt);
        change.message = MessageChange::Goes;
        change.help = HelpChange::Opens(saved);
        Ok(change)
    }

    // The state with help left, of what was saved.
    fn unhelped(&self, alloc: Global, saved: &Saved) -> Result<Change, MinusError>
        ensures next { IfOk result (λ c. Leads self.now c
            (closed (control_of self.now) (aside_in saved.now))) }
        ensures redraw { IfOk result (λ c. c.redraw ≡ Redraw.Whole) }
        ensures memory { IfErr result (λ e. e ≡ MinusError.Memory) }
    {
        let layout = Layout {
            cols: self.cols,
            wrapping: saved.wrapping,
            numbers: saved.numbers,
            match_lines: self.match_lines(),
            carry_style: self.carry_style(),
        };
        let text = String::from_str(alloc, &saved.text)?;
        let prompt = String::from_str(alloc, &saved.prompt)?;
        let mut change = self.formed_anew(alloc, text, layout, saved.upper_mark)?;
        change.left = saved.left_mark;
        change.follow = saved.follow;
        change.prompt = Some(prompt);
        change.message = MessageChange::Goes;
        change.help = HelpChange::Closes;
        Ok(change)
    }

    /// The state with help left where it is open.
    ///
    /// # Errors
    ///
    /// [`MinusError::Memory`] where there is no memory for it.
    pub fn left_help(&self, alloc: Global) -> Result<Change, MinusError>
        ensures next { IfOk result (λ c. Leads self.now c
            (left_help (control_of self.now) (control_of self.now).help)) }
        ensures redraw { IfOk result (λ c. c.redraw ≡ whole_where (help_open (control_of self.now))) }
        ensures memory { IfErr result (λ e. e ≡ MinusError.Memory) }
    {
        match &self.saved {
            Some(saved) => self.unhelped(alloc, saved),
            None => Ok(self.redrawn(Redraw::Stays)),
        }
    }

    /// The state with help left where it is open, and else without the message.
    ///
    /// # Errors
    ///
    /// [`MinusError::Memory`] where there is no memory for it.
    pub fn prompt_restored(&self, alloc: Global) -> Result<Change, MinusError>
        ensures next { IfOk result (λ c. Leads self.now c
            (prompt_restored (control_of self.now) (control_of self.now).help)) }
        ensures redraw { IfOk result (λ c. c.redraw ≡ whole_where (help_open (control_of self.now))) }
        ensures memory { IfErr result (λ e. e ≡ MinusError.Memory) }
    {
        match &self.saved {
            Some(saved) => self.unhelped(alloc, saved),
            None => Ok(self.unmessaged()),
        }
    }

    /// The state with help left where it is open, and else opened with a text, an empty one where none is given.
    ///
    /// # Errors
    ///
    /// [`MinusError::Memory`] where there is no memory for it.
    pub fn help_toggled(&self, alloc: Global, text: Option<String>) -> Result<Change, MinusError>
        ensures next { IfOk result (λ c. Leads self.now c
            (toggled_with (control_of self.now) (option_map string_bytes text))) }
        ensures redraw { IfOk result (λ c. c.redraw ≡ Redraw.Whole) }
        ensures memory { IfErr result (λ e. e ≡ MinusError.Memory) }
    {
        if let Some(saved) = &self.saved {
            return self.unhelped(alloc, saved);
        }
        self.helped(alloc, text.unwrap_or(String::new(alloc)))
    }

    /// The state with another text; while help is open, with another one saved.
    ///
    /// # Errors
    ///
    /// [`MinusError::Memory`] where there is no memory for it.
    pub fn replaced(&self, alloc: Global, text: String) -> Result<Change, MinusError>
        ensures next { IfOk result (λ c. Leads self.now c
            (with_text (control_of self.now) (string_bytes text))) }
        ensures redraw { IfOk result (λ c. c.redraw ≡ whole_where (not (help_open (control_of self.now)))) }
        ensures memory { IfErr result (λ e. e ≡ MinusError.Memory) }
    {
        if self.help_open() {
            let mut change = self.redrawn(Redraw::Stays);
            change.text = NextText::SavedWhole(text);
            return Ok(change);
        }
        self.with_text(alloc, text)
    }

    /// The state with a text added to its text; while help is open, to the one saved, for which `place` takes
    /// memory. Its mark stays.
    ///
    /// # Errors
    ///
    /// [`MinusError::Memory`] where there is no memory for it.
    pub fn added(&self, alloc: Global, text: String) -> Result<Change, MinusError>
        ensures next { IfOk result (λ c. Leads self.now c
            (with_more (control_of self.now) (string_bytes text))) }
        ensures redraw { IfOk result (λ c. IsFormed self.now →
            c.redraw ≡ added_redraw (control_of self.now) (string_bytes text)) }
        ensures memory { IfErr result (λ e. e ≡ MinusError.Memory) }
    {
        if self.help_open() {
            let mut change = self.redrawn(Redraw::Stays);
            change.text = NextText::SavedMore(text);
            return Ok(change);
        }
        self.appended(alloc, text)
    }

    /// Opens help on a text, at its first row; what was displayed is saved. Where help is open, all stays as it is.
    ///
    /// # Errors
    ///
    /// [`MinusError::Memory`] where there is no memory, and nothing has changed.
    pub fn show_help(&mut self, alloc: Global, text: &str) -> Result<(), MinusError>
        ensures control { OnOk result (IsFormed self.old → control_of self.new
            ≡ shown_help (control_of self.old) (control_of self.old).help text.now) }
        ensures formed { IsFormed self.old → IsFormed self.new }
        ensures err { OnErr result (control_of self.new ≡ control_of self.old) }
        ensures memory { IfErr result (λ e. e ≡ MinusError.Memory) }
    {
        if self.help_open() {
            return Ok(());
        }
        let change = self.helped(alloc, String::from_str(alloc, text)?)?;
        self.place(alloc, change)
    }

    /// Leaves help: what was saved returns, the mark too, and the message goes. Where help is not open, all stays
    /// as it is.
    ///
    /// # Errors
    ///
    /// [`MinusError::Memory`] where there is no memory, and nothing has changed.
    pub fn exit_help(&mut self, alloc: Global) -> Result<(), MinusError>
        ensures control { OnOk result (IsFormed self.old → control_of self.new
            ≡ left_help (control_of self.old) (control_of self.old).help) }
        ensures formed { IsFormed self.old → IsFormed self.new }
        ensures err { OnErr result (control_of self.new ≡ control_of self.old) }
        ensures memory { IfErr result (λ e. e ≡ MinusError.Memory) }
    {
        let change = self.left_help(alloc)?;
        self.place(alloc, change)
    }
}
