//! Callbacks of hooks and exits that are called.
ghost use Rattle.std.specs.Prelude.{◌≡◌, Some};
ghost use Rattle.minus_commands.specs.Callbacks.{callbacks_of, CallsHook};
ghost use Rattle.minus_commands.specs.Reads.{kept_of};
ghost use Rattle.minus_commands.specs.Table.{end_hook, is_at_end};
ghost use Rattle.std.specs.Option.{unwrap_or};
ghost use Rattle.minus_state.specs.Hooks.{CallsAlone};
ghost use Rattle.minus_state.specs.States.{control_of, IsFormed};

use crate::parts::{Calls, PartsOf};
use minus_state::state::PagerState;
use minus_term::hooks::Hook;

/// Calls the callbacks of a hook, and no others.
pub fn call_hook<P: Calls>(parts: &mut PartsOf<P>, hook: Hook)
    ensures kept { kept_of parts.new ≡ kept_of parts.old }
    ensures called { CallsHook (Some hook) (callbacks_of parts.old) (callbacks_of parts.new) }
    ensures rest { parts.new ≡ record parts.old { hooks = parts.new.hooks } }
{
    parts.hooks.run_hooks(hook, &parts.state);
}

/// The hook whose callbacks are called where a state was changed by what moves the mark, or moves none, if one is.
pub fn end_hook(is_move: bool, state: &PagerState) -> Option<Hook>
    ensures { IsFormed state.now → result ≡ end_hook is_move (is_at_end (control_of state.now)) }
{
    if is_move && state.shows_end() {
        return Some(Hook::EofReached);
    }
    None
}

/// Calls the callbacks of a hook, if one is due, and no others.
pub fn call_due<P: Calls>(parts: &mut PartsOf<P>, hook: Option<Hook>)
    ensures kept { kept_of parts.new ≡ kept_of parts.old }
    ensures called { CallsHook hook (callbacks_of parts.old) (callbacks_of parts.new) }
    ensures rest { parts.new ≡ record parts.old { hooks = parts.new.hooks } }
{
    if let Some(hook) = hook {
        call_hook(parts, hook);
    }
}

/// Puts another typed prefix in its place, if it is another one, and calls what is called before an exit.
pub fn leave<P: Calls>(parts: &mut PartsOf<P>, prefix: Option<String>)
    ensures state { parts.new.state ≡ record parts.old.state {
      prefix_num = unwrap_or prefix parts.old.state.prefix_num;
    } }
    ensures kept { kept_of parts.new ≡ kept_of parts.old }
    ensures called { CallsAlone Hook.PrePagerExit (callbacks_of parts.old).hooks (callbacks_of parts.new).hooks }
    ensures classifier { parts.new.classifier ≡ parts.old.classifier }
    ensures condition { parts.new.condition ≡ parts.old.condition }
{
    parts.state.place_prefix(prefix);
    call_hook(parts, Hook::PrePagerExit);
    parts.exit_callbacks.run();
}
