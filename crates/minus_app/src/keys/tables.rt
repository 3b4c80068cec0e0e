//! Which keys lead to what: those of `less`, and those that end the program.
use crate::view_action::ViewAction;
use minus::DefaultAction;

// The keys of the default bindings that end the program.
pub(super) const ENDS: [&str; 2] = ["q", "c-c"];

// The default keys that no terminal tells from others: it sends a Backspace for them.
pub(super) const UNTOLD: [&str; 2] = ["c-h", "c-s-h"];

// The keys of `less` that have no default binding, each with the default action that does what `less` does.
pub(super) const KEYS_OF_LESS: [(&str, DefaultAction); 5] = [
    ("b", DefaultAction::PageUp),
    ("f", DefaultAction::PageDown),
    ("s-f", DefaultAction::ToggleFollow),
    ("<", DefaultAction::Top),
    (">", DefaultAction::Bottom),
];

// The keys of `less` that are bound to something else by default, or to nothing, each with the default action that does
// what `less` does.
pub(super) const DEFAULTS_OF_LESS: [(&[&str], DefaultAction); 5] = [
    (
        &["e", "c-e", "c-n", "c-j", "s-j"],
        DefaultAction::ScrollDown,
    ),
    (&["y", "c-y", "c-p", "c-k", "s-k"], DefaultAction::ScrollUp),
    (&["s-f"], DefaultAction::ToggleFollow),
    (&["h", "s-h"], DefaultAction::Help),
    (&["s-q"], DefaultAction::Quit),
];

// The other keys of `less`.
pub(super) const VIEWS_OF_LESS: [(&[&str], ViewAction); 21] = [
    (
        &["space", "f", "c-f", "c-v", "z", "pagedown"],
        ViewAction::PageDown,
    ),
    (&["b", "c-b", "w", "m-v", "pageup"], ViewAction::PageUp),
    (&["d", "c-d"], ViewAction::HalfPageDown),
    (&["u", "c-u"], ViewAction::HalfPageUp),
    (&["g", "<", "m-<", "home"], ViewAction::FirstLine),
    (&["s-g", ">", "m->", "end"], ViewAction::LastLine),
    (&["p", "%"], ViewAction::Percent),
    (&["right", "m-)"], ViewAction::Right),
    (&["left", "m-("], ViewAction::Left),
    (&["n"], ViewAction::NextMatch),
    (&["s-n"], ViewAction::PreviousMatch),
    (&["r", "c-r", "c-l"], ViewAction::Redraw),
    (&["c-c"], ViewAction::Interrupt),
    (&["m"], ViewAction::SetMark),
    (&["'"], ViewAction::GoToMark),
    (&["=", "c-g"], ViewAction::TellPlace),
    (&["dash"], ViewAction::SetOption),
    (&[":"], ViewAction::Command),
    (&["s-z"], ViewAction::EndTwice),
    (&["m-u"], ViewAction::TurnMatches),
    (&["&", "!", "|", "#", "s", "s-e"], ViewAction::PassLine),
];
