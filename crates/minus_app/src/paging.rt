//! Running an application: on the terminal that the launcher reports, or else its text is handed on.
use crate::app::{App, TITLE};
use crate::fault::Fault;
use crate::keyboard::Keyboard;
use crate::keys::AppKeys;
use crate::launch::Launch;
use crate::links::Links;
use crate::options::Options;
use crate::program::{Program, Terminal};
use crate::text::Text;
use minus::WithTty;
use std::fs::File;
use std::io::{Stdout, Write};
use std::process::ExitCode;

/// Prints a text that is not paged, as a usage, on standard output. Under the launcher, whose terminal is in raw mode,
/// each newline goes to the first column too.
///
/// # Errors
///
/// [`Fault::Io`] where standard output refuses it, and [`Fault::Pager`] where there is no memory.
pub fn print(rt: &HostRuntime, text: &str) -> Result<(), Fault> {
    let end = match Launch::read(rt)? {
        Some(_) => "\r\n",
        None => "\n",
    };
    let mut out = rt.stdout();
    for line in text.lines() {
        out.write_all(line.as_bytes())?;
        out.write_all(end.as_bytes())?;
    }
    Ok(out.flush()?)
}

// The terminal that a launcher reports.
fn terminal_of(
    rt: &HostRuntime,
    launch: Launch,
) -> Result<Terminal<WithTty<Links<Stdout>>, File>, Fault> {
    Ok(Terminal {
        pages: WithTty::new(Links::new(rt.alloc(), rt.stdout()), true),
        beside: WithTty::new(Links::new(rt.alloc(), rt.stdout()), true),
        keyboard: Keyboard::open(rt)?,
        launch,
    })
}

/// Pages the text of an application, with its keys, on the terminal that the launcher `bin/minus-run` reports, up to a
/// key that ends the program. Where there is no launcher, or standard output is no terminal, the text is handed on
/// there ([`App::hand_on`]).
///
/// # Errors
///
/// Those of the application; [`Fault::NoEnd`] where no key ends the program; [`Fault::Io`] where the terminal or the
/// clock failed, and [`Fault::Pager`] where the session refuses. The screen is handed back in each.
pub fn run<A: App>(
    rt: &HostRuntime,
    app: A,
    keys: AppKeys<A::Act>,
    options: Options<'_>,
) -> Result<(), Fault> {
    if !keys.some_end() {
        return Err(Fault::NoEnd);
    }
    let mut app = app;
    let Some(launch) = Launch::read(rt)? else {
        return app.hand_on(rt);
    };
    let terminal = terminal_of(rt, launch)?;
    let Some(mut program) = Program::start(rt, app, keys, &options, terminal)? else {
        return Ok(());
    };
    let served = program.serve(rt);
    let cleaned = program.finish();
    served?;
    cleaned
}

/// Pages a text with the default keys and those of `less`; one that fits the terminal is printed, and not paged.
///
/// # Errors
///
/// Those of [`run`].
pub fn page_all(rt: &HostRuntime, text: String) -> Result<(), Fault> {
    let alloc = rt.alloc();
    let options = Options {
        prints: true,
        ..Options::new()
    };
    run(
        rt,
        Text::fixed(alloc, text, TITLE)?,
        AppKeys::less(alloc)?,
        options,
    )
}

/// The status of a program, for its `main`: 0, or 1 where it failed, which is said on standard error behind its name.
pub fn end_program(rt: &HostRuntime, name: &str, ended: Result<(), Fault>) -> ExitCode {
    match ended {
        Ok(()) => ExitCode::SUCCESS,
        Err(fault) => {
            let _ = eprintln!(rt; "{name}: {fault}");
            ExitCode::from(1)
        }
    }
}
