//! The setup of a terminal and its cleanup.
ghost use Rattle.std.specs.Prelude.{◌≡◌, ◌↔◌, [], true, false, OnOk, OnErr, IfErr, IsOk, IsErrOf, if◌then◌else◌};
ghost use Rattle.std.specs.Io.KnownBytes.{Appends};
ghost use Rattle.minus_term.specs.Counts.{Stays, Rises, RisesBy, AppendsFront};
ghost use Rattle.minus_term.specs.Operations as op;
ghost use Rattle.minus_term.specs.Written.{written};
ghost use Rattle.minus_term.specs.Terminal.{setup_bytes, cleanup_bytes, SetupBreaksOff, CleanupBreaksOff};

use crate::error::{CleanupError, SetupError, TermError};
use crate::sink::{OutputSink, draw_bytes};

const ALTERNATE_SCREEN: &[u8] = b"\x1b[?1049h";

const MAIN_SCREEN: &[u8] = b"\x1b[?1049l";

const MOUSE_ON: &[u8] = b"\x1b[?1000h\x1b[?1002h\x1b[?1003h\x1b[?1015h\x1b[?1006h";

const MOUSE_OFF: &[u8] = b"\x1b[?1006l\x1b[?1015l\x1b[?1003l\x1b[?1002l\x1b[?1000l";

const CURSOR_ON: &[u8] = b"\x1b[?25h";

const CURSOR_OFF: &[u8] = b"\x1b[?25l";

// Writes some bytes and settles the sink.
fn send<S: OutputSink>(out: &mut S, bytes: &[u8]) -> Result<(), TermError>
    ensures ok { OnOk result (Appends (S.seen out.old).bytes (S.seen out.new).bytes bytes.now) }
    ensures stays { OnOk result (Stays (S.seen out.old).refusals (S.seen out.new).refusals) }
    ensures settled { OnOk result (RisesBy (S.seen out.old).settles (S.seen out.new).settles 1) }
    ensures err { OnErr result (AppendsFront (S.seen out.old).bytes (S.seen out.new).bytes bytes.now) }
    ensures rises { OnErr result (Rises (S.seen out.old).refusals (S.seen out.new).refusals) }
{
    draw_bytes(out, bytes)?;
    Ok(())
}

/// Sets a terminal up: to the alternate screen, with the mouse's events told, the cursor hidden. The sink is settled
/// after each of the three.
///
/// # Errors
///
/// [`SetupError::InvalidTerminal`] where the sink is no terminal, and nothing was written then. Otherwise that of the
/// three that the sink refused a write or the flush of: those before it were written, and a beginning of it.
pub fn setup<S: OutputSink>(out: &mut S) -> Result<(), SetupError>
    ensures ok { OnOk result (Appends (S.seen out.old).bytes (S.seen out.new).bytes setup_bytes) }
    ensures stays { OnOk result (Stays (S.seen out.old).refusals (S.seen out.new).refusals) }
    ensures settled { OnOk result (RisesBy (S.seen out.old).settles (S.seen out.new).settles 3) }
    ensures terminal { IsErrOf result SetupError.InvalidTerminal ↔ ((S.seen out.old).terminal ≡ false) }
    ensures untouched { IsErrOf result SetupError.InvalidTerminal → out.new ≡ out.old }
    ensures broken { IfErr result (λ e. SetupBreaksOff e (S.seen out.old).bytes (S.seen out.new).bytes) }
    ensures rises { OnErr result ((S.seen out.old).terminal ≡ true →
        Rises (S.seen out.old).refusals (S.seen out.new).refusals) }
{
    if !out.is_tty() {
        return Err(SetupError::InvalidTerminal);
    }
    if let Err(cause) = send(out, ALTERNATE_SCREEN) {
        return Err(SetupError::AlternateScreen(cause));
    }
    if let Err(cause) = send(out, MOUSE_ON) {
        return Err(SetupError::EnableMouseCapture(cause));
    }
    if let Err(cause) = send(out, CURSOR_OFF) {
        return Err(SetupError::HideCursor(cause));
    }
    Ok(())
}

/// Cleans a terminal up, if asked to: the cursor shown, the mouse's events no longer told, back to the main screen. The
/// sink is settled after each of the three.
///
/// # Errors
///
/// That of the three that the sink refused a write or the flush of: those before it were written, and a beginning of
/// it.
pub fn cleanup<S: OutputSink>(out: &mut S, cleanup_screen: bool) -> Result<(), CleanupError>
    ensures ok { OnOk result (Appends (S.seen out.old).bytes (S.seen out.new).bytes
        (if cleanup_screen then cleanup_bytes else [])) }
    ensures tried { AppendsFront (S.seen out.old).bytes (S.seen out.new).bytes cleanup_bytes }
    ensures stays { OnOk result (Stays (S.seen out.old).refusals (S.seen out.new).refusals) }
    ensures settled { OnOk result (RisesBy (S.seen out.old).settles (S.seen out.new).settles
        (if cleanup_screen then 3 else 0)) }
    ensures off { cleanup_screen ≡ false → IsOk result }
    ensures untouched { cleanup_screen ≡ false → out.new ≡ out.old }
    ensures broken { IfErr result (λ e. CleanupBreaksOff e (S.seen out.old).bytes (S.seen out.new).bytes) }
    ensures rises { OnErr result (Rises (S.seen out.old).refusals (S.seen out.new).refusals) }
{
    if !cleanup_screen {
        return Ok(());
    }
    if let Err(cause) = send(out, CURSOR_ON) {
        return Err(CleanupError::ShowCursor(cause));
    }
    if let Err(cause) = send(out, MOUSE_OFF) {
        return Err(CleanupError::DisableMouseCapture(cause));
    }
    if let Err(cause) = send(out, MAIN_SCREEN) {
        return Err(CleanupError::LeaveAlternateScreen(cause));
    }
    Ok(())
}
