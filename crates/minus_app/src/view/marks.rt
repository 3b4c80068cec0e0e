//! The places that are kept under letters, and the keys that are typed behind another.
use crate::app::Neighbour;
use crate::fault::Fault;
use crate::view::goals::Goal;
use crate::view::typed::Pending;
use crate::view::{Onward, View};
use minus::{CommandOf, Event, InputEvent, InputOf, KeyCode, KeyModifiers, OutputSink};
use minus_view::Case;

/// A place that is kept under a letter.
#[derive(Clone, Copy)]
pub struct Mark {
    letter: char,
    // In bytes of the text.
    byte: usize,
}

// The character that a key types.
fn typed(event: &Event) -> Option<char> {
    match event {
        Event::Key(key) if key.modifiers != KeyModifiers::CONTROL => match key.code {
            KeyCode::Char(c) => Some(c),
            _ => None,
        },
        _ => None,
    }
}

impl<S: OutputSink + Drop> View<S> {
    // Keeps the place of the page under a letter. Out of memory it does not, and the prompt row says so.
    fn set_mark(&mut self, letter: char) {
        let byte = self.place();
        for mark in &mut self.places.marks {
            if mark.letter == letter {
                mark.byte = byte;
                return;
            }
        }
        if self.places.marks.push(Mark { letter, byte }).is_err() {
            self.notices.was_short = true;
        }
    }

    // The place that is kept under a letter; that of `'` is where the last jump began, and that of `^` the first one.
    fn marked(&self, letter: char) -> Option<usize> {
        match letter {
            '\'' => Some(self.places.before),
            '^' => Some(0),
            _ => {
                let mark = self.places.marks.iter().find(|mark| mark.letter == letter)?;
                Some(mark.byte)
            }
        }
    }

    // Goes to the place that is kept under a letter, if one is. That of `$` is the end, for which the text is read on.
    fn go_to_mark(&mut self, letter: char) -> Result<(), Fault> {
        if letter == '$' {
            self.begin_jump();
            return self.head_for(Goal::End);
        }
        let Some(byte) = self.marked(letter) else {
            return self.say("no such mark (Return)");
        };
        self.begin_jump();
        self.command(CommandOf::FollowOutput(false))?;
        self.put_at(byte)
    }

    // Turns line numbers on or off.
    fn turn_numbers(&mut self) -> Result<(), Fault> {
        let numbers = !self.session.state().line_numbers;
        let said = if numbers.is_on() {
            "the lines have numbers (Return)"
        } else {
            "the lines have no numbers (Return)"
        };
        self.say_before("(laying out)")?;
        self.step_in_place(InputOf::Command(CommandOf::UserInput(InputEvent::UpdateLineNumber(
            numbers,
        ))))?;
        self.say(said)
    }

    // Cuts long lines at the screen's edge, or wraps them.
    fn turn_wrapping(&mut self) -> Result<(), Fault> {
        let is_cut = self.session.state().line_wrapping();
        let said = if is_cut {
            "long lines are cut (Return)"
        } else {
            "long lines are wrapped (Return)"
        };
        self.say_before("(laying out)")?;
        self.step_in_place(InputOf::Command(CommandOf::UserInput(InputEvent::HorizontalScroll(
            !is_cut,
        ))))?;
        self.say(said)
    }

    // Lets the capitals of a query count, or not so: of the last one, too.
    fn turn_case(&mut self, case: Case) -> Result<(), Fault> {
        self.queries.case = if self.queries.case == case {
            Case::Exact
        } else {
            case
        };
        let said = match self.queries.case {
            Case::Exact => "capitals count in searches (Return)",
            Case::Smart => "capitals count in searches that have one (Return)",
            Case::Ignored => "capitals do not count in searches (Return)",
        };
        self.search_again()?;
        self.say(said)
    }

    // Sets the option of a letter.
    fn set_option(&mut self, letter: char) -> Result<(), Fault> {
        match letter {
            'N' | 'n' => self.turn_numbers(),
            'S' => self.turn_wrapping(),
            'i' => self.turn_case(Case::Smart),
            'I' => self.turn_case(Case::Ignored),
            'F' => self.say("-F is for the start of the pager (Return)"),
            _ => self.say("no such option here (Return)"),
        }
    }

    // Does what a letter behind `:` says.
    fn do_command(&mut self, letter: char) -> Result<Onward, Fault> {
        match letter {
            'q' | 'Q' => Ok(Onward::Ended),
            'n' => Ok(Onward::Turns(Neighbour::Next)),
            'p' => Ok(Onward::Turns(Neighbour::Before)),
            'e' => {
                self.typed.pending = Some(Pending::Line);
                Ok(Onward::On)
            }
            _ => Ok(Onward::On),
        }
    }

    /// Does what a key says that was typed behind another. Esc, Ctrl-C and any other key without a character ask for
    /// nothing.
    pub(super) fn take_key(&mut self, pending: Pending, event: Event) -> Result<Onward, Fault> {
        let Some(letter) = typed(&event) else {
            return Ok(Onward::On);
        };
        match pending {
            Pending::SetMark => self.set_mark(letter),
            Pending::GoToMark => self.go_to_mark(letter)?,
            Pending::Option => self.set_option(letter)?,
            Pending::Command => return self.do_command(letter),
            Pending::End if letter == 'Z' => return Ok(Onward::Ended),
            Pending::End => (),
            Pending::Line => self.typed.pending = Some(Pending::Line),
        }
        Ok(Onward::On)
    }
}
