//! The modules of `minus` have its names, too. (`tools/test_names.py` reads that each stands at the root.)

// Names by their modules.
mod modules {
    pub use minus::error::{
        CleanupError, DescriptionError, MinusError, RegexError, SetupError, TermError,
    };
    pub use minus::help::{format_help_table_from_entries, format_key};
    pub use minus::hooks::{ExitCallback, ExitCallbacks, Hook, HookCallback, Hooks};
    pub use minus::input::crossterm_event::{
        Event, KeyCode, KeyEvent, KeyEventKind, KeyEventState, KeyModifiers, MouseButton,
        MouseEvent, MouseEventKind,
    };
    pub use minus::input::{
        Classifier, DefaultInputClassifier, EventWrapper, HashedEventRegister, InputClassifier,
        InputEvent, generate_default_bindings, modifier_of, parse_key_event, parse_mouse_event,
    };
    pub use minus::screen::{Line, OwnedTextBlock, Row, Rows, Screen, TextBlock};
    pub use minus::search::{
        IncrementalSearchOpts, InputStatus, OpenPrompt, SearchCondition, SearchMode, SearchOpts,
        incremental_preview, next_nth_match, search_opts,
    };
    pub use minus::sink::{OutputSink, WithTty, cleanup, setup};
    pub use minus::state::{ExitStrategy, PagerState, RunMode, SearchState, Selection};
}

use crate::facts::assert_holds;

#[test]
fn a_name_is_one_thing_in_both_places(rt: HostRuntime) {
    let modifier = minus::modifier_of('c');
    assert_holds(&rt, modifier == modules::modifier_of('c'));
    assert_holds(&rt, modifier == Some(modules::KeyModifiers::CONTROL));
}
