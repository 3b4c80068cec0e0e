//! Texts that are written where they fit the terminal, or where there is none, and paged else.
use crate::facts::assert_holds;
use crate::sessions::has_page;
use minus::{ExitCallback, KeptExit, PagedOf, Pager, RunMode, WithTty, page_all};
use minus_part_tests::stubborn::{Refusal, Refused, Stubborn, write};
use std::alloc::Global;
use std::cell::Cell;
use std::rc::Rc;

// A pager with a text, which is paged anyway where it fits, or not.
fn pager_of(alloc: Global, text: &str, is_paged: bool) -> Option<Pager> {
    let mut pager = Pager::new(alloc);
    let is_told = pager.set_text(text).is_ok() && pager.set_run_no_overflow(is_paged).is_ok();
    is_told.then_some(pager)
}

// Whether a text is written so on 20 columns and three rows, or where there is no terminal.
fn writes(alloc: Global, text: &str, is_terminal: bool, written: &str) -> bool {
    let Some(pager) = pager_of(alloc, text, false) else {
        return false;
    };
    match page_all(pager, WithTty::new(Vec::new(alloc), is_terminal), 20, 3) {
        Ok(PagedOf::Written(sink)) => sink.inner.as_slice() == written.as_bytes(),
        _ => false,
    }
}

#[test]
fn a_text_is_written_where_there_is_no_terminal(rt: HostRuntime) {
    assert_holds(&rt, writes(rt.alloc(), "x\n", false, "x\n\n"));
    assert_holds(&rt, writes(rt.alloc(), "a\nb\nc\nd", false, "a\nb\nc\nd\n"));
}

#[test]
fn rows_that_fit_are_written(rt: HostRuntime) {
    assert_holds(&rt, writes(rt.alloc(), "a\nb\nc", true, "\ra\n\rb\n\rc\n"));
}

// Whether a text is paged, and its first page has these rows.
fn pages(alloc: Global, text: &str, is_paged: bool, rows: &[&str]) -> bool {
    let Some(pager) = pager_of(alloc, text, is_paged) else {
        return false;
    };
    match page_all(pager, WithTty::new(Vec::new(alloc), true), 20, 3) {
        Ok(PagedOf::Started(session)) => {
            session.mode() == RunMode::Static && has_page(&session, rows)
        }
        _ => false,
    }
}

#[test]
fn rows_that_do_not_fit_are_paged(rt: HostRuntime) {
    let rows = &["a", "b", crate::sessions::PROMPT_ROW];
    assert_holds(&rt, pages(rt.alloc(), "a\nb\nc\nd", false, rows));
    assert_holds(&rt, pages(rt.alloc(), "a\nb\nc", true, rows));
}

// How often a boxed callback of an exit is called as a text is paged, or written.
fn calls(alloc: Global, text: &str) -> Option<u64> {
    let mut pager = pager_of(alloc, text, false)?;
    let Ok(log) = Rc::new(alloc, Cell::new(0_u64)) else {
        return None;
    };
    let Ok(at_exit) = log.clone() else {
        return None;
    };
    let Ok(exit) = Box::new(alloc, move || {
        at_exit.set(at_exit.get().wrapping_add(1))
    }) else {
        return None;
    };
    let exit: ExitCallback = exit;
    if pager.add_exit_callback(KeptExit::new(exit)).is_err() {
        return None;
    }
    let paged = page_all(pager, WithTty::new(Vec::new(alloc), true), 20, 3);
    paged.is_ok().then_some(log.get())
}

#[test]
fn an_exit_is_called_where_rows_fit(rt: HostRuntime) {
    assert_holds(&rt, calls(rt.alloc(), "a\nb\nc") == Some(1));
    assert_holds(&rt, calls(rt.alloc(), "a\nb\nc\nd") == Some(0));
}

// Whether a sink that refuses its second write comes back with what it took, and without the pager.
fn is_broken_off(alloc: Global) -> bool {
    let Some(pager) = pager_of(alloc, "a\nb", false) else {
        return false;
    };
    let calls: Refused = write(2, Refusal::Broken);
    match page_all(pager, Stubborn::terminal(alloc, calls), 20, 3) {
        Ok(_) => false,
        Err(refused) => {
            refused.cause.number() == 14
                && refused.pager.is_none()
                && refused.sink.inner.held.len() < "\ra\n\rb\n".len()
        }
    }
}

#[test]
fn a_refused_text_hands_the_sink_back(rt: HostRuntime) {
    assert_holds(&rt, is_broken_off(rt.alloc()));
}
