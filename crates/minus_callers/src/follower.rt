//! A follower: it pushes lines while the text is followed.
ghost use Rattle.std.specs.Prelude.{◌++◌, ℕ, List, OnOk, map};
ghost use Rattle.minus.specs.Core.{seen_of};
ghost use Rattle.minus_callers.specs.Follower.{Follows, FollowsThen, ended, ended_all};

use minus::{Calls, CommandOf, Core, InputOf, MinusError, OutputSink};
use std::alloc::Global;

/// Lets a session go to its last page, and on with what is pushed. While its search prompt is open this waits.
///
/// # Errors
///
/// Those of [`Core::step`].
pub fn follow<S: OutputSink + Drop, P: Calls>(session: &mut Core<S, P>) -> Result<(), MinusError>
    ensures { OnOk result (FollowsThen (seen_of session.old) (seen_of session.new)
        (seen_of session.old).control.text) }
{
    let _ = session.step(InputOf::Command(CommandOf::FollowOutput(true)))?;
    Ok(())
}

/// Adds a line at the end of a text. Where the text is followed, it is so afterwards.
///
/// # Errors
///
/// [`MinusError::Memory`], and those of [`Core::step`].
pub fn push_line<S: OutputSink + Drop, P: Calls>(
    session: &mut Core<S, P>,
    alloc: Global,
    line: &str,
) -> Result<(), MinusError>
    ensures { OnOk result ((text : List ℕ) → Follows text (seen_of session.old) →
        Follows (text ++ ended line.now) (seen_of session.new)) }
{
    let text = format!(in alloc; "{line}\n")?;
    let _ = session.step(InputOf::Command(CommandOf::AppendData(text)))?;
    Ok(())
}

/// Follows a text, and adds these lines at its end, one after another.
///
/// # Errors
///
/// Those of [`push_line`]: the lines before one that is refused stay.
pub fn push_lines<S: OutputSink + Drop, P: Calls>(
    session: &mut Core<S, P>,
    alloc: Global,
    lines: &[&str],
) -> Result<(), MinusError>
    ensures { OnOk result (FollowsThen (seen_of session.old) (seen_of session.new)
        ((seen_of session.old).control.text ++ ended_all (map (λ l. l.now) lines.now))) }
{
    follow(session)?;
    for line in lines {
        push_line(session, alloc, line)?;
    }
    Ok(())
}
