//! A text that is written where it fits the terminal, or where there is none, and paged else.
ghost use Rattle.std.specs.Prelude.{◌≡◌, ◌<◌, ◌++◌, [], get_or, length, Some, None, if◌then◌else◌, codes, option_map, slice_get, string_bytes, OnOk, OnErr, IfOk, IfErr};
ghost use Rattle.std.specs.Io.KnownBytes.{Appends};
ghost use Rattle.minus_term.specs.Counts.{AppendsFront, Stays, Rises};
ghost use Rattle.minus_term.specs.FullRedraw.{row_ops};
ghost use Rattle.minus_term.specs.Written.{written_all};
ghost use Rattle.minus_state.specs.Control.{text_rows};
ghost use Rattle.minus_state.specs.States.{IsFormed, control_of};
ghost use Rattle.minus_input.specs.DefaultClassifier.{IsDefault};
ghost use Rattle.minus.specs.StaticPager.{ended_rows, rows_that_fit, IsWrittenOn, IsUnwritten, IsShownAll, IsNotShownAll};
ghost use Rattle.minus.specs.StaticPager.{IsPaged, IsFirstPaged, IsUnpaged};

use crate::hooks::{ExitCall, HookCall};
use crate::init::{StartErrorOf, first_register, open, prepare};
use crate::input::{ActionCall, Classifier};
use crate::search::ConditionCall;
use crate::session::Core;
use crate::starts::{First, first_of};
use crate::state::{PagerState, RunMode};
use minus_commands::pager::{PagerOf, alloc_of};
use minus_commands::parts::{Boxes, Calls, Keyed, Parts};
use minus_term::{MinusError, OutputSink, draw_bytes, write_bytes, write_row};
use minus_text::Row;
use minus_text::search::styles::closing;
use std::alloc::{AllocError, Global};
use std::io;

/// The result of a text that is paged where it does not fit, over the kinds of what a session keeps.
#[derive(Drop)]
pub enum PagedOf<S, P: Parts> {
    /// It was written on this sink, and nothing is paged.
    Written(S),
    /// This session pages it.
    Started(Core<S, P>),
}

/// The result of a text, where a session keeps what its caller boxes, or a register of bindings.
pub type Paged<S> = PagedOf<S, Boxes>;

// A row as it is printed, whole: as it is stored, and ended where styles are carried.
fn printed_row(alloc: Global, state: &PagerState, row: usize) -> Result<Option<Row>, AllocError>
    requires { IsFormed state.now }
    ensures { IfOk result (λ printed. option_map string_bytes printed
        ≡ slice_get (ended_rows (control_of state.now)) row) }
{
    let Some(mut text) = state.screen.formatted_row(alloc, row)? else {
        return Ok(None);
    };
    if state.carry_style() {
        let end = closing(alloc, text.as_bytes())?;
        text.push_str(end)?;
    }
    Ok(Some(text))
}

// Adds a row as it is printed, and goes to the next.
fn push_printed_row(
    alloc: Global,
    out: &mut Vec<u8>,
    state: &PagerState,
    row: usize,
) -> Result<(), AllocError>
    requires formed { IsFormed state.now }
    requires inside { row < length (text_rows (control_of state.now)) }
    ensures { OnOk result (out.new.items
        ≡ out.old.items ++ written_all (row_ops (get_or (ended_rows (control_of state.now)) row []))) }
{
    match printed_row(alloc, state, row)? {
        Some(text) => write_row(out, &text),
        None => Ok(()),
    }
}

// The rows of a text as they are printed, one below another, where they are no more than those of the terminal.
fn fitting_rows(alloc: Global, state: &PagerState) -> Result<Option<Vec<u8>>, AllocError>
    requires { IsFormed state.now }
    ensures { IfOk result (λ rows. option_map (λ r. r.items) rows ≡ rows_that_fit (control_of state.now)) }
{
    let count = state.screen.formatted_lines_count();
    if count > state.rows {
        return Ok(None);
    }
    let mut bytes = Vec::new(alloc);
    for i in 0..count {
        push_printed_row(alloc, &mut bytes, state, i)?;
    }
    Ok(Some(bytes))
}

// Writes a text and a newline.
fn write_line<S: OutputSink>(sink: &mut S, text: &str) -> io::Result<()>
    ensures ok { OnOk result (Appends (S.seen sink.old).bytes (S.seen sink.new).bytes (text.now ++ codes "\n")) }
    ensures stays { OnOk result (Stays (S.seen sink.old).refusals (S.seen sink.new).refusals) }
    ensures err { OnErr result (AppendsFront (S.seen sink.old).bytes (S.seen sink.new).bytes
        (text.now ++ codes "\n")) }
    ensures rises { OnErr result (Rises (S.seen sink.old).refusals (S.seen sink.new).refusals) }
{
    write_bytes(sink, text.as_bytes())?;
    draw_bytes(sink, b"\n")?;
    Ok(())
}

// Writes a text and a newline where there is no terminal.
fn write_text<S: OutputSink + Drop, P: Parts>(
    sink: S,
    text: &str,
) -> Result<PagedOf<S, P>, StartErrorOf<S, P>>
    ensures ok { IfOk result (λ paged. IsWrittenOn S.seen sink paged (Some (text.now ++ codes "\n"))) }
    ensures err { IfErr result (λ e. IsUnwritten S.seen sink e (Some (text.now ++ codes "\n"))) }
{
    let mut sink = sink;
    if let Err(cause) = write_line(&mut sink, text) {
        return Err(StartErrorOf {
            sink,
            pager: None,
            cause: MinusError::Draw(cause),
        });
    }
    Ok(PagedOf::Written(sink))
}

// Writes rows that fit the terminal, and calls what is called at an exit.
fn write_rows<S: OutputSink + Drop, P: Calls>(
    sink: S,
    first: First<P>,
    rows: &[u8],
) -> Result<PagedOf<S, P>, StartErrorOf<S, P>>
    ensures ok { IfOk result (λ paged. IsWrittenOn S.seen sink paged (Some rows.now)) }
    ensures err { IfErr result (λ e. IsUnwritten S.seen sink e (Some rows.now)) }
{
    let mut sink = sink;
    if let Err(cause) = draw_bytes(&mut sink, rows) {
        return Err(StartErrorOf {
            sink,
            pager: None,
            cause: MinusError::Draw(cause),
        });
    }
    let First { mut parts, .. } = first;
    parts.exit_callbacks.run();
    Ok(PagedOf::Written(sink))
}

// The rows, unless they are to be paged anyway.
fn unless_paged(rows: Option<Vec<u8>>, is_paged: bool) -> Option<Vec<u8>>
    ensures { option_map (λ r. r.items) result ≡ (if is_paged then None else option_map (λ r. r.items) rows) }
{
    if is_paged {
        return None;
    }
    rows
}

// Writes what fits, or begins a session.
fn write_or_open<S: OutputSink + Drop, P: Calls>(
    alloc: Global,
    sink: S,
    first: First<P>,
    rows: Option<Vec<u8>>,
) -> Result<PagedOf<S, P>, StartErrorOf<S, P>>
    requires { option_map (λ r. r.items) rows ≡ rows_that_fit (control_of first.parts.state) }
    ensures shown { IfOk result (λ paged. IsShownAll S.seen first.parts sink paged) }
    ensures refused { IfErr result (λ e. IsNotShownAll S.seen first.parts sink e) }
{
    if !sink.is_tty() {
        return write_text(sink, first.parts.state.screen.orig_text());
    }
    let rows = unless_paged(rows, first.parts.run_no_overflow);
    if let Some(rows) = rows {
        return write_rows(sink, first, &rows);
    }
    match open(alloc, RunMode::Static, sink, first) {
        Ok(session) => Ok(PagedOf::Started(session)),
        Err(refused) => Err(refused),
    }
}

/// Pages a text that does not fit the terminal, of this many columns and rows, with a classifier of the caller's: takes
/// over the commands that wait in a pager, as a start does, and calls the callbacks of [`Hook::PrePagerStart`]. Where
/// the sink is no terminal, it writes the text and a newline. Where the text has at most as many rows as the terminal,
/// and is not to be paged anyway, it writes these one below another, whole, each behind a carriage return, and
/// calls the callbacks of an exit. Otherwise it goes on as a start in the mode `Static`.
///
/// [`Hook::PrePagerStart`]: crate::Hook::PrePagerStart
///
/// # Errors
///
/// Those of a start; [`MinusError::Draw`] too where the sink refused what was to be written in the place of a session:
/// a beginning of it was written, and the sink comes back without the pager.
pub fn page_all_with<S: OutputSink + Drop, P: Calls>(
    pager: PagerOf<P>,
    sink: S,
    cols: usize,
    rows: usize,
    classifier: P::Classifier,
) -> Result<PagedOf<S, P>, StartErrorOf<S, P>>
    ensures paged { IfOk result (λ paged. IsPaged S.seen pager cols rows classifier sink paged) }
    ensures refused { IfErr result (λ e. IsUnpaged S.seen pager cols rows sink e) }
{
    let first = match first_of(&pager, RunMode::Static, cols, rows, classifier) {
        Ok(first) => first,
        Err(cause) => return Err(StartErrorOf::early(pager, sink, cause)),
    };
    let fitting = match fitting_rows(alloc_of(&pager), &first.parts.state) {
        Ok(fitting) => fitting,
        Err(_) => return Err(StartErrorOf::early(pager, sink, MinusError::Memory)),
    };
    let alloc = alloc_of(&pager);
    let ready = prepare(first, pager);
    write_or_open(alloc, sink, ready, fitting)
}

/// Pages a text that does not fit the terminal: [`page_all_with`], whose errors it has, with a register of the default
/// bindings where the pager was given no classifier. A [`Pager`](crate::Pager) leads to a [`Paged`].
pub fn page_all<
    S: OutputSink + Drop,
    H: HookCall + Drop,
    E: ExitCall + Drop,
    Q: ConditionCall + Drop,
    C: ActionCall + Drop,
>(
    pager: PagerOf<Keyed<H, E, Q, C>>,
    sink: S,
    cols: usize,
    rows: usize,
) -> Result<PagedOf<S, Keyed<H, E, Q, C>>, StartErrorOf<S, Keyed<H, E, Q, C>>>
    ensures paged { IfOk result (λ paged. IsFirstPaged IsDefault S.seen pager cols rows sink paged) }
    ensures refused { IfErr result (λ e. IsUnpaged S.seen pager cols rows sink e) }
{
    match first_register(alloc_of(&pager), RunMode::Static, cols, rows) {
        Ok(register) => page_all_with(pager, sink, cols, rows, Classifier::Register(register)),
        Err(cause) => Err(StartErrorOf::early(pager, sink, cause)),
    }
}
