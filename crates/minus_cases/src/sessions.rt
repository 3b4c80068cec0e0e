//! Sessions that run the lines of cases.
use crate::calls::call;
use crate::commands::{input_of, wait};
use crate::driven::Driven;
use crate::kept::{
    CaseKeys, CaseKinds, DRAWN, Noted, NotesBytes, NotesCall, NotesExit, begin_notes,
};
use crate::layouts::Search;
use crate::lines::{Line, Starts, parse_line};
use crate::printed::{answered, print_state, push_line, push_made, text_of};
use crate::texts::Texts;
use minus::{
    CommandOf, Core, DefaultInputClassifier, Event, InputClassifier, InputOf, MinusError, PagedOf,
    PagerOf, RunMode, WithTty, init_core_with, page_all_with, parse_usize,
};
use minus_script::{DefaultKeys, ScriptFault, parse_script};
use regex::Regex;
use std::alloc::{AllocError, Global};

type Session = Core<WithTty<NotesBytes>, CaseKinds>;

// Where a case stands.
#[derive(Drop)]
enum Stands {
    /// No size was said yet, or the session ended.
    Nowhere,
    /// The pager waits for its start, on this many columns and rows.
    Waits(PagerOf<CaseKinds>, usize, usize),
    /// The session runs.
    Runs(Session),
    /// Parts are driven manually.
    Parts(Driven),
    /// Functions are called.
    Calls(Texts),
}

/// Runs the lines of cases, one behind the other.
#[derive(Drop)]
pub struct Cases {
    alloc: Global,
    stands: Stands,
    noted: Noted,
    out: String,
}

impl Cases {
    /// No case yet.
    pub(crate) fn new(alloc: Global) -> Result<Cases, AllocError> {
        Ok(Cases {
            alloc,
            stands: Stands::Nowhere,
            noted: begin_notes(alloc)?,
            out: String::new(alloc),
        })
    }

    /// Runs all lines, and answers what is printed.
    pub(crate) fn run_all(mut self, lines: &[u8]) -> Result<String, ScriptFault> {
        let Ok(text) = str::from_utf8(lines) else {
            return Err(ScriptFault::Line(0));
        };
        for line in text.lines() {
            self.out.push_str("> ")?;
            self.out.push_str(line)?;
            self.out.push('\n')?;
            self.run_line(line)?;
        }
        Ok(self.out)
    }

    // Runs a line, and prints what came of it.
    fn run_line(&mut self, line: &str) -> Result<(), ScriptFault> {
        if let Some(size) = line.strip_prefix("pager ") {
            self.noted = begin_notes(self.alloc)?;
            self.stands = match parse_size(size) {
                Some((cols, rows)) => Stands::Waits(PagerOf::new(self.alloc), cols, rows),
                None => Stands::Nowhere,
            };
            return Ok(());
        }
        if line == "calls" {
            self.stands = Stands::Calls(Texts::new(self.alloc));
            return Ok(());
        }
        if let Stands::Calls(texts) = &mut self.stands {
            return call_line(self.alloc, texts, &mut self.out, line);
        }
        if let Some(help) = line.strip_prefix("helptext ") {
            self.set_help(help)?;
        } else if let Some(term) = line.strip_prefix("term ") {
            self.set_term(Search::of(self.alloc, text_of(self.alloc, term)?.as_str()))?;
        } else if line == "noterm" {
            self.set_term(None)?;
        } else if let Some(parsed) = parse_line(line) {
            self.ask(parsed)?;
        } else {
            self.run_script(line)?;
        }
        self.print_notes()?;
        self.print_page()?;
        Ok(())
    }

    // Does what a line of a script says.
    fn run_script(&mut self, line: &str) -> Result<(), ScriptFault> {
        let Ok(inputs) = parse_script(self.alloc, line.as_bytes()) else {
            push_line(&mut self.out, "faulty", "")?;
            return Ok(());
        };
        for input in inputs {
            if let Some(input) = input_of(input) {
                self.give(input)?;
            }
        }
        Ok(())
    }

    // Sets the default bindings with another help text.
    fn set_help(&mut self, written: &str) -> Result<(), AllocError> {
        let help = Some(text_of(self.alloc, written)?);
        let keys = CaseKeys {
            keys: DefaultKeys::new(self.alloc)?,
            help,
        };
        self.give(InputOf::Command(CommandOf::SetInputClassifier(keys)))
    }

    // Searches for a term, or for none.
    fn set_term(&mut self, search: Option<Search>) -> Result<(), AllocError> {
        let set = match &mut self.stands {
            Stands::Runs(session) => session.set_term(search.map(pattern_of)),
            Stands::Parts(driven) => driven.set_term(search),
            _ => Ok(()),
        };
        match set {
            Ok(()) => Ok(()),
            Err(refusal) => self.print_refusal(&refusal),
        }
    }

    // Does what a line asks for.
    fn ask(&mut self, line: Line) -> Result<(), AllocError> {
        match line {
            Line::Command(command) => self.give(InputOf::Command(command)),
            Line::Event(event) => self.give(InputOf::Event(event)),
            Line::Hook(hook, id) => {
                let noted = self.noted.clone()?;
                let callback = NotesCall {
                    noted,
                    id,
                    alloc: self.alloc,
                };
                self.give(InputOf::Command(CommandOf::AddHook(hook, id, callback)))
            }
            Line::AtExit => {
                let callback = NotesExit {
                    noted: self.noted.clone()?,
                    alloc: self.alloc,
                };
                self.give(InputOf::Command(CommandOf::AddExitCallback(callback)))
            }
            Line::Ask(event, is_exact) => self.answer(event, is_exact),
            Line::Sink(calls) => {
                if let Ok(mut notes) = self.noted.try_borrow_mut() {
                    notes.calls = calls;
                    notes.count = 0;
                }
                Ok(())
            }
            Line::Start(starts) => self.start(starts),
            Line::Exchange(cols, rows) => self.exchange(cols, rows),
            Line::Drive(is_drawn) => self.drive(is_drawn),
            Line::Finish => self.finish(),
        }
    }

    // Gives an input to the session, or lets it wait in the pager.
    fn give(&mut self, input: InputOf<CaseKinds>) -> Result<(), AllocError> {
        let given = match (&mut self.stands, input) {
            (Stands::Waits(pager, _, _), InputOf::Command(command)) => wait(pager, command),
            (Stands::Parts(driven), InputOf::Command(command)) => {
                driven.take(&mut self.out, command)
            }
            (Stands::Runs(session), input) => match session.step(input) {
                Ok(answer) => return answered(self.alloc, &mut self.out, &answer),
                Err(refusal) => Err(refusal),
            },
            _ => Err(MinusError::BadMode),
        };
        match given {
            Ok(()) => Ok(()),
            Err(refusal) => self.print_refusal(&refusal),
        }
    }

    fn print_refusal(&mut self, refusal: &MinusError) -> Result<(), AllocError> {
        push_made(
            &mut self.out,
            "r ",
            format!(in self.alloc; "{}", refusal.number()),
        )
    }

    // A sink that notes what it is sent.
    fn sink(&self, is_terminal: bool) -> Result<WithTty<NotesBytes>, AllocError> {
        let noted = self.noted.clone()?;
        Ok(WithTty::new(NotesBytes { noted }, is_terminal))
    }

    // The keys that a session is started with.
    fn keys(&self) -> Result<CaseKeys, AllocError> {
        Ok(CaseKeys {
            keys: DefaultKeys::new(self.alloc)?,
            help: None,
        })
    }

    // Starts the pager that waits, or prints its text.
    fn start(&mut self, starts: Starts) -> Result<(), AllocError> {
        let stood = std::mem::replace(&mut self.stands, Stands::Nowhere);
        let Stands::Waits(pager, cols, rows) = stood else {
            return self.print_refusal(&MinusError::BadMode);
        };
        match starts {
            Starts::Shown => self.show(pager, cols, rows, true),
            Starts::Bare => self.show(pager, cols, rows, false),
            Starts::Printed => self.print(pager, cols, rows, true),
            Starts::BarePrinted => self.print(pager, cols, rows, false),
        }
    }

    // Starts a pager.
    fn show(
        &mut self,
        pager: PagerOf<CaseKinds>,
        cols: usize,
        rows: usize,
        is_terminal: bool,
    ) -> Result<(), AllocError> {
        let keys = self.keys()?;
        let sink = self.sink(is_terminal)?;
        match init_core_with(pager, RunMode::Dynamic, sink, cols, rows, keys) {
            Ok(session) => {
                self.stands = Stands::Runs(session);
                Ok(())
            }
            Err(refused) => self.print_refusal(&refused.cause),
        }
    }

    // Prints the text of a pager, or starts it.
    fn print(
        &mut self,
        pager: PagerOf<CaseKinds>,
        cols: usize,
        rows: usize,
        is_terminal: bool,
    ) -> Result<(), AllocError> {
        let keys = self.keys()?;
        let sink = self.sink(is_terminal)?;
        match page_all_with(pager, sink, cols, rows, keys) {
            Ok(PagedOf::Started(session)) => {
                self.stands = Stands::Runs(session);
                Ok(())
            }
            Ok(PagedOf::Written(_)) => push_line(&mut self.out, "a ", "written"),
            Err(refused) => self.print_refusal(&refused.cause),
        }
    }

    // Makes parts of the size of the pager that waits.
    fn drive(&mut self, is_drawn: bool) -> Result<(), AllocError> {
        let Stands::Waits(_, cols, rows) = &self.stands else {
            return Ok(());
        };
        let (cols, rows) = (*cols, *rows);
        let sink = self.sink(true)?;
        if let Some(driven) = Driven::new(self.alloc, cols, rows, sink, is_drawn) {
            self.stands = Stands::Parts(driven);
        }
        Ok(())
    }

    // Puts another sink in the place of the session's.
    fn exchange(&mut self, cols: usize, rows: usize) -> Result<(), AllocError> {
        let sink = self.sink(true)?;
        let Stands::Runs(session) = &mut self.stands else {
            return Ok(());
        };
        match session.set_output_sink(sink, cols, rows) {
            Ok(_) => Ok(()),
            Err(refused) => self.print_refusal(&refused.cause),
        }
    }

    // Ends the session.
    fn finish(&mut self) -> Result<(), AllocError> {
        let Stands::Runs(session) = std::mem::replace(&mut self.stands, Stands::Nowhere) else {
            return Ok(());
        };
        let (_, cleaned) = session.finish();
        match cleaned {
            Ok(()) => Ok(()),
            Err(cause) => self.print_refusal(&MinusError::from(cause)),
        }
    }

    // Prints what an event asks for.
    fn answer(&mut self, event: Event, is_exact: bool) -> Result<(), AllocError> {
        let Stands::Runs(session) = &self.stands else {
            return Ok(());
        };
        let asked = if is_exact {
            DefaultInputClassifier.classify_input(event, session.state())
        } else {
            session.classifier().classify_input(event, session.state())
        };
        match asked {
            Some(asked) => push_made(&mut self.out, "k ", format!(in self.alloc; "{asked:?}")),
            None => push_line(&mut self.out, "k ", "nothing"),
        }
    }

    // Prints what was noted, and lets it go.
    fn print_notes(&mut self) -> Result<(), AllocError> {
        let Ok(mut notes) = self.noted.try_borrow_mut() else {
            return Ok(());
        };
        if let Ok(drawn) = str::from_utf8(&notes.drawn) {
            push_line(&mut self.out, "d ", drawn)?;
        }
        push_made(
            &mut self.out,
            "s ",
            format!(in self.alloc; "{}", notes.settled),
        )?;
        for line in &notes.called {
            push_line(&mut self.out, "o ", line)?;
            if line.as_str() != DRAWN {
                push_line(&mut self.out, "a ", line)?;
            }
        }
        notes.drawn.clear();
        notes.settled = 0;
        notes.called.clear();
        Ok(())
    }

    // Prints the page and the state of the session.
    fn print_page(&mut self) -> Result<(), ScriptFault> {
        if let Stands::Parts(driven) = &self.stands {
            driven.print(&mut self.out)?;
        }
        let Stands::Runs(session) = &self.stands else {
            return Ok(());
        };
        let page = session.page()?;
        for row in &page.rows {
            push_line(&mut self.out, "p ", row)?;
        }
        if let Some(column) = page.cursor {
            push_made(&mut self.out, "c ", format!(in self.alloc; "{column}"))?;
        }
        print_state(self.alloc, &mut self.out, session.state())?;
        Ok(())
    }
}

fn parse_size(text: &str) -> Option<(usize, usize)> {
    let (cols, rows) = text.split_once(' ')?;
    Some((parse_usize(cols)?, parse_usize(rows)?))
}

// Does a call, and adds what it answers, or the number by which it is refused.
fn call_line(
    alloc: Global,
    texts: &mut Texts,
    out: &mut String,
    line: &str,
) -> Result<(), ScriptFault> {
    match call(alloc, texts, out, line) {
        Ok(true) => {}
        Ok(false) => push_line(out, "faulty", "")?,
        Err(refusal) => push_made(out, "= ", format!(in alloc; "refused {}", refusal.number()))?,
    }
    Ok(())
}

fn pattern_of(search: Search) -> Regex {
    search.pattern
}
