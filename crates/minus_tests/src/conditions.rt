//! Conditions of incremental search: boxed ones, and what one sees. Where memory runs out, each answer is `false`.
use crate::facts::assert_holds;
use crate::sessions::{TEN_LINES, takes, terminal};
use minus::{
    Calls, Command, CommandOf, Core, InputOf, KeptCondition, NeverShows, OutputSink, Pager,
    RunMode, SearchCondition, SearchOpts, init_core,
};
use minus_part_tests::asked::press;
use minus_part_tests::shown::is_debugged;
use minus_script::ScriptKinds;
use std::alloc::Global;

// A condition that says yes to one query. It is made where it is used, since no function may hand out a box that it
// makes.
macro_rules! boxed {
    ($alloc:expr, $query:expr) => {
        Box::new($alloc, |opts: &SearchOpts<'_>| {
            opts.string.as_str() == $query
        })
    };
}

// Whether these are the rows of text on a session's page, which has a prompt row below them.
fn has_text<S: OutputSink + Drop, P: Calls>(session: &Core<S, P>, rows: &[&str; 3]) -> bool {
    match session.page() {
        Ok(page) => match page.rows.as_slice() {
            [first, second, third, _] => {
                first.as_str() == rows[0] && second.as_str() == rows[1] && third.as_str() == rows[2]
            }
            _ => false,
        },
        Err(_) => false,
    }
}

// The page before a search, and where `l7` leads.
const FIRST: [&str; 3] = ["l0", "l1", "l2"];

const AT_L7: [&str; 3] = ["\x1b[7ml7\x1b[27m", "l8", "l9"];

// Whether a session takes these keys, and has this text on its page then.
fn leads_to<S: OutputSink + Drop, P: Calls>(
    session: &mut Core<S, P>,
    keys: &[&str],
    rows: &[&str; 3],
) -> bool {
    takes(session, keys) && has_text(session, rows)
}

// Whether the page shows where the query leads to which a condition says yes, and no other query.
fn shows_the_one<S: OutputSink + Drop, P: Calls>(session: &mut Core<S, P>) -> bool {
    leads_to(session, &["/", "l"], &FIRST)
        && leads_to(session, &["7"], &AT_L7)
        && leads_to(session, &["x"], &FIRST)
}

// Whether a session asks the condition that was set last in its pager, one that says yes to `l7`.
fn asks_the_pagers_last(alloc: Global) -> bool {
    let (Ok(first), Ok(last)) = (boxed!(alloc, "l"), boxed!(alloc, "l7")) else {
        return false;
    };
    let (first, last): (SearchCondition, SearchCondition) = (first, last);
    let mut pager = Pager::new(alloc);
    let is_told = pager
        .set_incremental_search_condition(KeptCondition::new(first))
        .is_ok()
        && pager
            .set_incremental_search_condition(KeptCondition::new(last))
            .is_ok()
        && pager.set_text(TEN_LINES).is_ok();
    match init_core(pager, RunMode::Static, terminal(alloc), 20, 4) {
        Ok(mut session) => is_told && shows_the_one(&mut session),
        Err(_) => false,
    }
}

#[test]
fn a_start_keeps_the_last_condition(rt: HostRuntime) {
    assert_holds(&rt, asks_the_pagers_last(rt.alloc()));
}

// Whether a session goes by the default while its search prompt is open, as a condition waits that says no, and by that
// condition once the prompt was closed.
fn goes_by_a_waiting_one(alloc: Global) -> bool {
    let Ok(none) = boxed!(alloc, "") else {
        return false;
    };
    let none: SearchCondition = none;
    let set = Command::IncrementalSearchCondition(KeptCondition::new(none));
    let mut pager = Pager::new(alloc);
    let is_told = pager.set_text(TEN_LINES).is_ok();
    match init_core(pager, RunMode::Static, terminal(alloc), 20, 4) {
        Ok(mut session) => {
            is_told
                && leads_to(&mut session, &["/"], &FIRST)
                && session.step(InputOf::Command(set)).is_ok()
                && leads_to(&mut session, &["l", "7"], &AT_L7)
                && leads_to(&mut session, &["esc"], &FIRST)
                && leads_to(&mut session, &["/", "l", "7"], &FIRST)
        }
        Err(_) => false,
    }
}

#[test]
fn a_condition_waits_for_the_prompt_to_close(rt: HostRuntime) {
    assert_holds(&rt, goes_by_a_waiting_one(rt.alloc()));
}

// Whether a condition is shown this at a search forward for `l7`: the press of a key, and the cursor.
fn is_shown(opts: &SearchOpts<'_>, key: &str, cursor: u16) -> bool {
    opts.ev == Some(press(key))
        && opts.string.as_str() == "l7"
        && opts.cursor_position == cursor
        && opts.word_index.len() == 1
        && opts.search_char == '/'
        && (opts.cols, opts.rows) == (20, 4)
}

// Whether a session of ten lines that asks a condition takes these keys, and has this text on its page then, at each
// stop. It is a macro, so that the box is made where it is used.
macro_rules! leads_by {
    ($alloc:expr, $condition:expr, $($keys:expr => $rows:expr),*) => {{
        let Ok(condition) = Box::new($alloc, $condition) else {
            return false;
        };
        let condition: SearchCondition = condition;
        let mut pager = Pager::new($alloc);
        let is_told = pager
            .set_incremental_search_condition(KeptCondition::new(condition))
            .is_ok()
            && pager.set_text(TEN_LINES).is_ok();
        match init_core(pager, RunMode::Static, terminal($alloc), 20, 4) {
            Ok(mut session) => is_told $(&& leads_to(&mut session, &$keys, &$rows))*,
            Err(_) => false,
        }
    }};
}

// Whether a condition sees the cursor before it follows an insertion.
fn sees_an_insertion(alloc: Global) -> bool {
    leads_by!(
        alloc,
        |opts: &SearchOpts<'_>| is_shown(opts, "7", 2),
        ["/", "l", "7"] => AT_L7
    )
}

// Whether it sees the cursor where a removal has left it.
fn sees_a_removal(alloc: Global) -> bool {
    leads_by!(
        alloc,
        |opts: &SearchOpts<'_>| is_shown(opts, "backspace", 3),
        ["/", "l", "7", "x"] => FIRST,
        ["backspace"] => AT_L7
    )
}

#[test]
fn a_condition_sees_the_edit(rt: HostRuntime) {
    assert_holds(&rt, sees_an_insertion(rt.alloc()));
    assert_holds(&rt, sees_a_removal(rt.alloc()));
}

// Whether a command that registers a condition is shown by its name alone.
fn is_told_by_its_name(alloc: Global) -> bool {
    let command: CommandOf<ScriptKinds> = CommandOf::IncrementalSearchCondition(NeverShows);
    is_debugged(alloc, &command, "IncrementalSearchCondition")
}

#[test]
fn commands_do_not_tell_their_conditions(rt: HostRuntime) {
    assert_holds(&rt, is_told_by_its_name(rt.alloc()));
}
