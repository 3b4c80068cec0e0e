//! Pages a file or standard input on the terminal, as `less` does; `bin/minus` runs it.
#![tactic(auto)]

mod exit_status;
mod files;
mod paging;
mod words;

use crate::exit_status::Refusal;
use crate::paging::page;
use crate::words::{read_words, set_words, texts};
use minus_app::print;
use minus_view::{Arguments, parse_arguments};
use std::process::ExitCode;

/// How the program is called.
const USAGE: &str = "\
usage: minus [OPTION ..] [FILE | -] ..

Pages files on the terminal, or standard input. What MINUS sets, or else LESS, is read before the options of less:

  -N          number the lines
  -S          cut long lines at the screen's edge, and do not wrap them
  -F          print a text that fits the screen, and do not page it
  -X          leave the last page on the terminal
  -i -I       capitals do not count in queries without capitals; in none
  -e -E       end at the end of the text, where it is reached for a second time; at once
  -p PATTERN  begin at the first match
  +LINE +G    begin at this line, counted from 1; at the end
  +F          follow the end of the text
  --mouse     take the mouse

Keys: those of less: j k scroll, Space b page, g G go to the top and the end, F follows the end, / ? search on and back,
n N go to the next match and the one before, q ends; h lists all.
";

// Does what the words ask for.
fn answer(rt: &HostRuntime) -> Result<(), Refusal> {
    let words = read_words(rt)?;
    let words = texts(rt.alloc(), &words)?;
    let set = set_words(rt)?;
    match parse_arguments(set.as_str(), &words) {
        Ok(Arguments::Page(paging)) => page(rt, &paging)?,
        Ok(Arguments::Help) => print(rt, USAGE)?,
        Ok(Arguments::Version) => print(rt, "minus 0.1.0\n")?,
        Err(fault) => return Err(Refusal::of_words(rt.alloc(), &fault)?),
    }
    Ok(())
}

fn main(rt: HostRuntime) -> ExitCode {
    match answer(&rt) {
        Ok(()) => ExitCode::SUCCESS,
        Err(refusal) => {
            let _ = eprintln!(&rt; "minus: {refusal}");
            ExitCode::from(refusal.status())
        }
    }
}
