//! The public calls that draw a state on a sink.
ghost use Rattle.std.specs.Prelude.{◌≡◌, OnOk, OnErr, IfOk, IfErr};
ghost use Rattle.std.specs.List.{flat_map};
ghost use Rattle.std.specs.Io.KnownBytes.{Appends};
ghost use Rattle.minus_term.specs.Counts.{Stays, RisesBy};
ghost use Rattle.minus_term.specs.FullRedraw.{prompt_ops, row_ops};
ghost use Rattle.minus_term.specs.Writes.{WriteRefuses};
ghost use Rattle.minus_term.specs.Written.{written_all};
ghost use Rattle.minus_state.specs.ClampedMark.{clamp, moved_to};
ghost use Rattle.minus_state.specs.Changes.{IsFormedFor, shown_by};
ghost use Rattle.minus_state.specs.NextTexts.{Belongs};
ghost use Rattle.minus_draw.specs.DrawsFormed.{DrawsFormed, RefusesFormed};
ghost use Rattle.minus_draw.specs.Drawings.{whole_page, page_rows, append_from, scroll_to};
ghost use Rattle.minus_state.specs.States.{IsFormed, control_of};

use crate::append_drawing::push_append;
use crate::drawings::{Drawing, WholePage, draw_page};
use minus_state::change::{Change, Redraw};
use minus_state::state::PagerState;
use minus_state::state::after::write_after;
use minus_term::{MinusError, OutputSink, draw_bytes, write_prompt_row};
use std::alloc::{AllocError, Global};

/// Draws the prompt row in the last of this many rows. An empty one is not put.
///
/// # Errors
///
/// [`MinusError::Memory`] where there is none for the bytes: nothing was written then. [`MinusError::Draw`] where the
/// sink refused a write or the flush: a beginning of the bytes was written.
pub fn write_prompt<W: OutputSink>(
    alloc: Global,
    out: &mut W,
    text: &str,
    rows: u16,
) -> Result<(), MinusError>
    ensures ok { OnOk result (Appends (W.seen out.old).bytes (W.seen out.new).bytes
        (written_all (prompt_ops rows text.now))) }
    ensures stays { OnOk result (Stays (W.seen out.old).refusals (W.seen out.new).refusals) }
    ensures settled { OnOk result (RisesBy (W.seen out.old).settles (W.seen out.new).settles 1) }
    ensures err { IfErr result (λ e. WriteRefuses W.seen e out.old out.new (written_all (prompt_ops rows text.now))) }
{
    let mut bytes = Vec::new(alloc);
    write_prompt_row(&mut bytes, rows, text)?;
    draw_bytes(out, &bytes)?;
    Ok(())
}

// The mark of a state as it is clamped, and the bytes that draw the whole page there.
fn drawn_whole(alloc: Global, state: &PagerState) -> Result<(usize, Vec<u8>), AllocError>
    ensures mark { IfOk result (λ d. IsFormed state.now → d.0 ≡ (clamp (control_of state.now)).mark) }
    ensures bytes { IfOk result (λ d. IsFormed state.now →
        d.1.items ≡ written_all (whole_page (clamp (control_of state.now)))) }
{
    let clamped = state.moved_to(state.upper_mark);
    let (_, bytes) = draw_page(alloc, state, Drawing::Page(WholePage::Plain), &clamped)?;
    Ok((clamped.mark, bytes))
}

// The mark of a state as it is moved, as far as the text goes, and the bytes that draw the rows that come onto its
// page.
fn drawn_scroll(
    alloc: Global,
    state: &PagerState,
    mark: usize,
) -> Result<(usize, Vec<u8>), AllocError>
    ensures mark { IfOk result (λ d. IsFormed state.now → d.0 ≡ (moved_to (control_of state.now) mark).mark) }
    ensures bytes { IfOk result (λ d. IsFormed state.now →
        d.1.items ≡ written_all (scroll_to (control_of state.now) mark)) }
{
    let change = state.moved_to(mark);
    let drawing = Drawing::of(state, &change);
    let (_, bytes) = draw_page(alloc, state, drawing, &change)?;
    Ok((change.mark, bytes))
}

/// Draws the whole page of a state, whose mark is clamped first: at most the one at which the last page is full.
///
/// # Errors
///
/// [`MinusError::Memory`] where there is none for the bytes: nothing was written then. [`MinusError::Draw`] where the
/// sink refused a write or the flush: a beginning of the bytes was written. The state stays as it was.
pub fn draw_full<W: OutputSink>(
    alloc: Global,
    out: &mut W,
    state: &mut PagerState,
) -> Result<(), MinusError>
    ensures control { OnOk result (IsFormed state.old → control_of state.new ≡ clamp (control_of state.old)) }
    ensures formed { IsFormed state.old → IsFormed state.new }
    ensures beside { state.new ≡ record state.old { upper_mark = state.new.upper_mark } }
    ensures ok { OnOk result (DrawsFormed W.seen state.old out.old
        (whole_page (clamp (control_of state.old))) out.new) }
    ensures stays { OnOk result (Stays (W.seen out.old).refusals (W.seen out.new).refusals) }
    ensures settled { OnOk result (RisesBy (W.seen out.old).settles (W.seen out.new).settles 1) }
    ensures err { IfErr result (λ e. RefusesFormed W.seen e state.old out.old
        (whole_page (clamp (control_of state.old))) out.new) }
    ensures kept { OnErr result (state.new ≡ state.old) }
{
    let (mark, bytes) = drawn_whole(alloc, state)?;
    draw_bytes(out, &bytes)?;
    state.upper_mark = mark;
    Ok(())
}

/// Moves the mark of a state, as far as the text goes, and draws the rows that come onto its page. The new mark is put
/// into the one that was asked for.
///
/// # Errors
///
/// [`MinusError::Memory`] where there is none for the bytes: nothing was written then. [`MinusError::Draw`] where the
/// sink refused a write or the flush: a beginning of the bytes was written. The marks stay as they were.
pub fn draw_for_change<W: OutputSink>(
    alloc: Global,
    out: &mut W,
    state: &mut PagerState,
    new_upper_mark: &mut usize,
) -> Result<(), MinusError>
    ensures control { OnOk result (IsFormed state.old →
        control_of state.new ≡ moved_to (control_of state.old) new_upper_mark.old) }
    ensures formed { IsFormed state.old → IsFormed state.new }
    ensures beside { state.new ≡ record state.old { upper_mark = state.new.upper_mark } }
    ensures mark { OnOk result (new_upper_mark.new ≡ state.new.upper_mark) }
    ensures ok { OnOk result (DrawsFormed W.seen state.old out.old
        (scroll_to (control_of state.old) new_upper_mark.old) out.new) }
    ensures stays { OnOk result (Stays (W.seen out.old).refusals (W.seen out.new).refusals) }
    ensures settled { OnOk result (RisesBy (W.seen out.old).settles (W.seen out.new).settles 1) }
    ensures err { IfErr result (λ e. RefusesFormed W.seen e state.old out.old
        (scroll_to (control_of state.old) new_upper_mark.old) out.new) }
    ensures kept { OnErr result (state.new ≡ state.old) }
    ensures mark_kept { OnErr result (new_upper_mark.new ≡ new_upper_mark.old) }
{
    let (mark, bytes) = drawn_scroll(alloc, state, *new_upper_mark)?;
    draw_bytes(out, &bytes)?;
    *new_upper_mark = mark;
    state.upper_mark = mark;
    Ok(())
}

/// Draws the rows of text of a state's page from a row of the text on, counted from 0, where there were this many rows
/// of text before: each is cleared, and put where it is there now.
///
/// # Errors
///
/// [`MinusError::Memory`] where there is none for the bytes: nothing was written then. [`MinusError::Draw`] where the
/// sink refused a write or the flush: a beginning of the bytes was written.
pub fn draw_append_text<W: OutputSink>(
    alloc: Global,
    out: &mut W,
    state: &PagerState,
    first: usize,
    old_count: usize,
) -> Result<(), MinusError>
    ensures ok { OnOk result (DrawsFormed W.seen state.now out.old
        (append_from (control_of state.now) first old_count) out.new) }
    ensures stays { OnOk result (Stays (W.seen out.old).refusals (W.seen out.new).refusals) }
    ensures settled { OnOk result (RisesBy (W.seen out.old).settles (W.seen out.new).settles 1) }
    ensures err { IfErr result (λ e. RefusesFormed W.seen e state.now out.old
        (append_from (control_of state.now) first old_count) out.new) }
{
    let change = state.redrawn(Redraw::Stays);
    let mut bytes = Vec::new(alloc);
    push_append(state, alloc, &mut bytes, &change, first, old_count)?;
    draw_bytes(out, &bytes)?;
    Ok(())
}

// The bytes that put the rows of text on the page that a change of a state leads to.
fn written_page(alloc: Global, state: &PagerState, change: &Change) -> Result<Vec<u8>, AllocError>
    requires { Belongs state.now.screen.document change.now.text }
    ensures { IfOk result (λ bytes. IsFormedFor state.now change.now →
        bytes.items ≡ written_all (flat_map row_ops (shown_by state.now change.now))) }
{
    let mut bytes = Vec::new(alloc);
    write_after(state, alloc, &mut bytes, change, 0)?;
    Ok(bytes)
}

// The mark of a state as it is clamped, and the bytes that put the rows of text on the page there.
fn written_rows(alloc: Global, state: &PagerState) -> Result<(usize, Vec<u8>), AllocError>
    ensures mark { IfOk result (λ d. IsFormed state.now → d.0 ≡ (clamp (control_of state.now)).mark) }
    ensures bytes { IfOk result (λ d. IsFormed state.now →
        d.1.items ≡ written_all (page_rows (clamp (control_of state.now)))) }
{
    let change = state.moved_to(state.upper_mark);
    let bytes = written_page(alloc, state, &change)?;
    Ok((change.mark, bytes))
}

/// Writes the rows of text of a state's page, each between a carriage return and a newline. The mark of the state is
/// clamped first: at most the one at which the last page is full.
///
/// # Errors
///
/// [`MinusError::Memory`] where there is none for the bytes: nothing was written then. [`MinusError::Draw`] where the
/// sink refused a write or the flush: a beginning of the bytes was written. The state stays as it was.
pub fn write_from_pagerstate<W: OutputSink>(
    alloc: Global,
    out: &mut W,
    state: &mut PagerState,
) -> Result<(), MinusError>
    ensures control { OnOk result (IsFormed state.old → control_of state.new ≡ clamp (control_of state.old)) }
    ensures formed { IsFormed state.old → IsFormed state.new }
    ensures beside { state.new ≡ record state.old { upper_mark = state.new.upper_mark } }
    ensures ok { OnOk result (DrawsFormed W.seen state.old out.old
        (page_rows (clamp (control_of state.old))) out.new) }
    ensures stays { OnOk result (Stays (W.seen out.old).refusals (W.seen out.new).refusals) }
    ensures settled { OnOk result (RisesBy (W.seen out.old).settles (W.seen out.new).settles 1) }
    ensures err { IfErr result (λ e. RefusesFormed W.seen e state.old out.old
        (page_rows (clamp (control_of state.old))) out.new) }
    ensures kept { OnErr result (state.new ≡ state.old) }
{
    let (mark, bytes) = written_rows(alloc, state)?;
    draw_bytes(out, &bytes)?;
    state.upper_mark = mark;
    Ok(())
}
