//! The programs of `minus_callers`, each run once.
use crate::facts::assert_holds;
use crate::sessions::{PROMPT_ROW, TEN_LINES, has_page, session_on, terminal};
use minus::{Event, InputOf, parse_key_event};
use minus_callers::{fetch, page_beginning, page_report, push_line, push_lines};
use std::alloc::{AllocError, Global};
use std::cell::Cell;
use std::rc::Rc;

// The prompt row where the text is followed.
const FOLLOWING: &str = "\x1b[2;40;37mminus            \x1b[1m[F]\x1b[0m";

// Whether the lines that were pushed are followed, also by one more.
fn follows(alloc: Global) -> bool {
    let Some(mut session) = session_on(alloc, terminal(alloc), 20, 4) else {
        return false;
    };
    push_lines(&mut session, alloc, &["one", "two", "three", "four"]).is_ok()
        && has_page(&session, &["two", "three", "four", FOLLOWING])
        && push_line(&mut session, alloc, "five").is_ok()
        && has_page(&session, &["three", "four", "five", FOLLOWING])
}

#[test]
fn a_follower_shows_the_last_lines(rt: HostRuntime) {
    assert_holds(&rt, follows(rt.alloc()));
}

// Whether the key of a report goes to the line of its summary.
fn goes_to_the_summary(alloc: Global) -> bool {
    let Ok(key) = parse_key_event("s") else {
        return false;
    };
    match page_report(alloc, terminal(alloc), 20, 4, TEN_LINES, 6) {
        Ok(mut session) => {
            has_page(&session, &["l0", "l1", "l2", PROMPT_ROW])
                && session.step(InputOf::Event(Event::Key(key))).is_ok()
                && has_page(&session, &["l6", "l7", "l8", PROMPT_ROW])
        }
        Err(_) => false,
    }
}

#[test]
fn the_key_of_a_report_goes_to_its_summary(rt: HostRuntime) {
    assert_holds(&rt, goes_to_the_summary(rt.alloc()));
}

// A cell that tells whether the page came to the end, twice.
fn shared_cell(alloc: Global) -> Result<(Rc<Cell<bool>>, Rc<Cell<bool>>), AllocError> {
    let cell = Rc::new(alloc, Cell::new(false))?;
    let other = cell.clone()?;
    Ok((cell, other))
}

// Whether more is fetched once the page shows the end of the text, and only then.
fn fetches(alloc: Global) -> bool {
    let (Ok((at_end, noted)), Ok(end)) = (shared_cell(alloc), parse_key_event("s-g")) else {
        return false;
    };
    let (Ok(early), Ok(more)) = (
        String::from_str(alloc, "\nl10"),
        String::from_str(alloc, "\nl11"),
    ) else {
        return false;
    };
    match page_beginning(alloc, terminal(alloc), 20, 4, TEN_LINES, noted) {
        Ok(mut session) => {
            matches!(fetch(&mut session, &at_end, early), Ok(false))
                && session.step(InputOf::Event(Event::Key(end))).is_ok()
                && matches!(fetch(&mut session, &at_end, more), Ok(true))
                && session.state().screen.formatted_lines_count() == 11
        }
        Err(_) => false,
    }
}

#[test]
fn more_is_fetched_at_the_end(rt: HostRuntime) {
    assert_holds(&rt, fetches(rt.alloc()));
}
