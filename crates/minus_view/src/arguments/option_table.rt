//! The table of options, by their letters and by their names.
ghost use Rattle.std.specs.Prelude.{◌≡◌};
ghost use Rattle.minus_view.specs.OptionTable.{is_idle_letter, letter_setting, letter_value, kind_of, letter_kind, is_idle_name, name_setting, name_value, name_other, name_kind};

use super::{AtEnd, Case};

/// What an option without a value sets.
#[derive(Clone, Copy)]
pub(super) enum Setting {
    /// Nothing here.
    Idle,
    Numbers(bool),
    Chops,
    Prints,
    Leaves,
    Squeezes,
    Mouse(bool),
    Case(Case),
    AtEnd(AtEnd),
}

/// What the value of an option is.
#[derive(Clone, Copy)]
pub(super) enum Valued {
    /// A number that means nothing here.
    Number,
    /// A text that means nothing here.
    Text,
    Tabs,
    Pattern,
    Prompt,
    /// A command behind `+`.
    Command,
}

/// What an option is.
#[derive(Clone, Copy)]
pub(super) enum Kind {
    Sets(Setting),
    Takes(Valued),
    /// Options begin, which are set back or not.
    Begins(bool),
    Help,
    Version,
    Unknown,
}

// Whether a letter stands for nothing here: an option of `less`, a digit, a blank or a `$`.
fn is_idle_letter(letter: u8) -> bool
    ensures { result ≡ is_idle_letter letter }
{
    matches!(
        letter,
        b' ' | b'\t' | b'$' | b'0'..=b'9'
            | b'a'
            | b'A'
            | b'B'
            | b'c'
            | b'C'
            | b'd'
            | b'f'
            | b'g'
            | b'G'
            | b'J'
            | b'K'
            | b'L'
            | b'm'
            | b'M'
            | b'q'
            | b'Q'
            | b'r'
            | b'R'
            | b'u'
            | b'U'
            | b'w'
            | b'W'
            | b'~'
    )
}

// What an option sets that has this letter and no value.
fn letter_setting(letter: u8) -> Option<Setting>
    ensures { result ≡ letter_setting letter }
{
    match letter {
        b'N' => Some(Setting::Numbers(true)),
        b'n' => Some(Setting::Numbers(false)),
        b'S' => Some(Setting::Chops),
        b'F' => Some(Setting::Prints),
        b'X' => Some(Setting::Leaves),
        b's' => Some(Setting::Squeezes),
        b'i' => Some(Setting::Case(Case::Smart)),
        b'I' => Some(Setting::Case(Case::Ignored)),
        b'e' => Some(Setting::AtEnd(AtEnd::EndsAtSecond)),
        b'E' => Some(Setting::AtEnd(AtEnd::EndsAtFirst)),
        _ if is_idle_letter(letter) => Some(Setting::Idle),
        _ => None,
    }
}

// What the value of an option is that has this letter.
fn letter_value(letter: u8) -> Option<Valued>
    ensures { result ≡ letter_value letter }
{
    match letter {
        b'x' => Some(Valued::Tabs),
        b'p' => Some(Valued::Pattern),
        b'P' => Some(Valued::Prompt),
        b'+' => Some(Valued::Command),
        b'b' | b'h' | b'j' | b'y' | b'z' | b'#' => Some(Valued::Number),
        b'D' | b'k' | b'o' | b'O' | b't' | b'T' | b'"' => Some(Valued::Text),
        _ => None,
    }
}

// An option that sets something, or one that has a value, or neither.
fn kind_of(setting: Option<Setting>, valued: Option<Valued>, other: Kind) -> Kind
    ensures { result ≡ kind_of setting valued other }
{
    match (setting, valued) {
        (Some(setting), _) => Kind::Sets(setting),
        (None, Some(valued)) => Kind::Takes(valued),
        (None, None) => other,
    }
}

/// The option of a letter.
pub(super) fn letter_kind(letter: u8) -> Kind
    ensures { result ≡ letter_kind letter }
{
    let other = match letter {
        b'?' => Kind::Help,
        b'V' => Kind::Version,
        _ => Kind::Unknown,
    };
    kind_of(letter_setting(letter), letter_value(letter), other)
}

// What an option sets that has this name and no value.
fn name_setting(name: &str) -> Option<Setting>
    ensures { result ≡ name_setting name.now }
{
    match name {
        "LINE-NUMBERS" => Some(Setting::Numbers(true)),
        "line-numbers" => Some(Setting::Numbers(false)),
        "chop-long-lines" => Some(Setting::Chops),
        "quit-if-one-screen" => Some(Setting::Prints),
        "no-init" => Some(Setting::Leaves),
        "squeeze-blank-lines" => Some(Setting::Squeezes),
        "mouse" | "MOUSE" => Some(Setting::Mouse(true)),
        "no-mouse" => Some(Setting::Mouse(false)),
        "ignore-case" => Some(Setting::Case(Case::Smart)),
        "IGNORE-CASE" => Some(Setting::Case(Case::Ignored)),
        "quit-at-eof" => Some(Setting::AtEnd(AtEnd::EndsAtSecond)),
        "QUIT-AT-EOF" => Some(Setting::AtEnd(AtEnd::EndsAtFirst)),
        _ if is_idle_name(name) => Some(Setting::Idle),
        _ => None,
    }
}

// What the value of an option is that has this name.
fn name_value(name: &str) -> Option<Valued>
    ensures { result ≡ name_value name.now }
{
    match name {
        "tabs" => Some(Valued::Tabs),
        "pattern" => Some(Valued::Pattern),
        "prompt" => Some(Valued::Prompt),
        "buffers"
        | "jump-target"
        | "line-num-width"
        | "max-back-scroll"
        | "max-forw-scroll"
        | "shift"
        | "status-col-width"
        | "wheel-lines"
        | "window" => Some(Valued::Number),
        "LOG-FILE"
        | "color"
        | "lesskey-file"
        | "lesskey-src"
        | "log-file"
        | "quotes"
        | "rscroll"
        | "tag"
        | "tag-file" => Some(Valued::Text),
        _ => None,
    }
}

// Whether an option of this name has no value and means nothing here.
fn is_idle_name(name: &str) -> bool
    ensures { result ≡ is_idle_name name.now }
{
    matches!(
        name,
        "CLEAR-SCREEN"
            | "HILITE-SEARCH"
            | "HILITE-UNREAD"
            | "LONG-PROMPT"
            | "QUIET"
            | "RAW-CONTROL-CHARS"
            | "SEARCH-SKIP-SCREEN"
            | "SILENT"
            | "UNDERLINE-SPECIAL"
            | "auto-buffers"
            | "clear-screen"
            | "dumb"
            | "file-size"
            | "follow-name"
            | "force"
            | "hilite-search"
            | "hilite-unread"
            | "incsearch"
            | "long-prompt"
            | "no-histdups"
            | "no-keypad"
            | "no-lessopen"
            | "old-bot"
            | "quiet"
            | "quit-on-intr"
            | "raw-control-chars"
            | "save-marks"
            | "search-skip-screen"
            | "silent"
            | "status-column"
            | "tilde"
            | "underline-special"
            | "use-backslash"
            | "use-color"
    )
}

// What an option is that has this name, sets nothing and has no value.
fn name_other(name: &str) -> Kind
    ensures { result ≡ name_other name.now }
{
    match name {
        "help" => Kind::Help,
        "version" => Kind::Version,
        _ => Kind::Unknown,
    }
}

/// The option of a name.
pub(super) fn name_kind(name: &str) -> Kind
    ensures { result ≡ name_kind name.now }
{
    kind_of(name_setting(name), name_value(name), name_other(name))
}
