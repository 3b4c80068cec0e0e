//! Laws: what is proved of the definitions that contracts cite. Each is a function that does nothing, with the law as
//! its contract. Those of steps stand here, all others in the files of their rules.
ghost use Rattle.minus.specs.Joined.{AppendsJoin, WorkedAppendsJoin};
ghost use Rattle.minus.specs.Says.{says_of};
ghost use Rattle.minus.specs.Works.{AloneWithNoPrompt};
ghost use Rattle.minus.specs.Core.{seen_of};
ghost use Rattle.minus.specs.DefaultKeys.{EventsAskByTheTable, JMovesByThePrefix};
ghost use Rattle.minus_input.specs.DefaultClassifier.{IsDefault};

pub use crate::exchange::an_exchange_leaves_its_page;
pub use crate::init::a_start_leaves_its_page;
use crate::input::{Classifier, InputClassifier, KeptAction};
use crate::search::{ConditionCall, KeptCondition};
use crate::session::Session;
pub use minus_commands::laws::{by_hand_as_by_the_table, help_leaves_no_trace, resizes_are_full};
pub use minus_draw::laws::{drawings_join, keys_are_drawn};
pub use minus_input::default_bindings::{
    defaults_have_one_answer, j_scrolls_down, keys_do_as_listed,
};
pub use minus_input::description::each_text_has_one_meaning;
pub use minus_input::equality::{
    equal_events_hash_equally, keys_go_by_their_equality, mouse_goes_by_kind_and_modifiers,
    resizes_are_one_key, wild_is_itself_alone,
};
pub use minus_input::lookups::{bound_keys_are_found, removed_keys_are_gone};
pub use minus_input::usize_of_is_what_parse_reads;
pub use minus_state::{
    markers_alone_are_added, prompt_fills_its_row, selection_adds_markers_alone,
    shown_rows_are_closed, shown_rows_fit,
};
pub use minus_term::event::equality::{
    equal_keys_hash_equally, keys_of_one_normal_form_are_equal, letters_with_shift_are_capitals,
};
pub use minus_term::{
    append_puts_few, append_shows_its_page, closing_puts_few, closing_shows_its_page,
    cursor_shows_its_page, edit_puts_few, edit_shows_its_page, full_redraw_puts_few,
    full_redraw_shows_its_page, opening_puts_none, opening_shows_its_page, play_is_monotone,
    scroll_puts_few, scroll_shows_its_page, the_unknown_screen_stands_for_all,
};
pub use minus_text::search::highlight::{
    highlights_add_markers_alone, only_matches_are_highlighted,
};
pub use minus_text::search::line_finds::{
    finds_stand_in_rows, jumps_go_to_all_rows, line_finds_ascend, line_finds_stand,
    lines_form_again, match_total_is_of_lines, unwrapped_lines_are_rows, worked_lines,
};
pub use minus_text::search::styles::{
    ended_texts_are_closed, readings_begin_anew, styled_rows_look_as_their_line, styles_stay,
};
pub use minus_text::search::{found_rows_go_on, parts_show_their_matches, rows_show_their_matches};
pub use minus_text::{
    carried_styles_stay, cropped_texts_fit, fitted_texts_fill, line_map_ascends, lines_are_cut,
    numbers_toggle_twice, parts_are_of_lines, pieces_join, pieces_push_joined, pushes_join,
    rows_are_determined, rows_fit, rows_go_on, rows_stand_in_lines, styles_stand_before,
    words_are_cut_at_joints,
};

/// A law: with no search prompt open, and while nothing waits, an input is performed alone.
pub fn an_input_is_alone_with_no_prompt<Q: ConditionCall, K: InputClassifier>()
    ensures { AloneWithNoPrompt (says_of Q.judges K.says) }
{}

/// A law: neighbouring appends leave the same in one go, as one append of all their texts, while help is open, or while
/// the page stays at its first row and nothing is searched for: where they are read in by a start, and, with no
/// search prompt open and unless the page goes on with what is appended, where they are performed.
pub fn appends_join<Q, K>()
    ensures taken { AppendsJoin Q K }
    ensures worked { WorkedAppendsJoin }
{}

/// A law: as long as a session's classifier is a register of the default bindings, an event asks for what their table
/// has for it, and for nothing else.
pub fn events_ask_by_the_table<S>(session: &Session<S>)
    ensures { EventsAskByTheTable ⟦<KeptCondition as ConditionCall>⟧.judges
        ⟦<Classifier<KeptAction> as InputClassifier>⟧.says IsDefault (seen_of session.now) }
{}

/// A law: as long as a session's classifier is a register of the default bindings, the key `j` moves the mark down by
/// as many rows as the typed prefix says, by one where it says none.
pub fn j_moves_by_the_prefix<S>(session: &Session<S>)
    ensures { JMovesByThePrefix ⟦<KeptCondition as ConditionCall>⟧.judges
        ⟦<Classifier<KeptAction> as InputClassifier>⟧.says IsDefault (seen_of session.now) }
{}
