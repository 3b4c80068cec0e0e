//! The texts and numbers of the errors.
use crate::facts::{assert_at, assert_holds};
use crate::shown::{is_debugged, is_shown};
use minus_term::{
    CleanupError, DescriptionError, Hook, MinusError, RegexError, SetupError, TermError,
};
use std::alloc::Global;
use std::io::ErrorKind;
use std::{fmt, io};

// The fault of an operation on a terminal.
fn broken() -> TermError {
    TermError::from(io::Error::from(ErrorKind::BrokenPipe))
}

// Whether an error has this number and text.
fn is_named(alloc: Global, error: &MinusError, number: u8, text: &str) -> bool {
    error.number() == number && is_shown(alloc, error, text)
}

const NAMED: [(&MinusError, u8, &str); 7] = [
    (&MinusError::Memory, 1, "refused 1"),
    (&MinusError::NewlineInPrompt, 2, "refused 2"),
    (&MinusError::BadSize(1, 2), 5, "refused 5"),
    (&MinusError::BadMode, 9, "refused 9"),
    (&MinusError::Failed, 10, "refused 10"),
    (&MinusError::Ended, 11, "refused 11"),
    (
        &MinusError::Conversion,
        0,
        "Failed to convert between some primitives",
    ),
];

#[test]
fn names_each_error(rt: HostRuntime) {
    for (error, number, text) in &NAMED {
        assert_at(&rt, text, is_named(rt.alloc(), error, *number, text));
    }
}

// Whether an error that has a cause has this number and text.
fn has_name(alloc: Global, error: MinusError, number: u8, text: &str) -> bool {
    is_named(alloc, &error, number, text)
}

#[test]
fn names_each_error_with_a_cause(rt: HostRuntime) {
    let alloc = rt.alloc();
    let setup = MinusError::from(SetupError::InvalidTerminal);
    let cleanup = MinusError::from(CleanupError::ShowCursor(broken()));
    let draw = MinusError::from(io::Error::from(ErrorKind::BrokenPipe));
    let event = MinusError::HandleEvent(broken());
    let cursor = MinusError::from(broken());
    let format = MinusError::from(fmt::Error);
    let are_named = has_name(alloc, setup, 12, "Failed to initialize the terminal")
        & has_name(alloc, cleanup, 13, "Failed to clean up the terminal")
        & has_name(alloc, draw, 14, "Failed to draw the new data")
        & has_name(alloc, event, 0, "Failed to handle terminal event")
        & has_name(alloc, cursor, 0, "Failed to do an operation on the cursor")
        & has_name(
            alloc,
            format,
            16,
            "Failed to send formatted data to the pager",
        );
    assert_holds(&rt, are_named);
}

// Whether an error of a setup has this text.
fn is_setup(alloc: Global, error: SetupError, text: &str) -> bool {
    is_shown(alloc, &error, text)
}

#[test]
fn names_each_error_of_a_setup(rt: HostRuntime) {
    let alloc = rt.alloc();
    let invalid = SetupError::InvalidTerminal;
    let are_named = is_setup(
        alloc,
        invalid,
        "The standard output is not a valid terminal",
    ) & is_setup(
        alloc,
        SetupError::AlternateScreen(broken()),
        "Failed to switch to alternate screen",
    ) & is_setup(
        alloc,
        SetupError::RawMode(broken()),
        "Failed to enable raw mode",
    ) & is_setup(
        alloc,
        SetupError::HideCursor(broken()),
        "Failed to hide the cursor",
    ) & is_setup(
        alloc,
        SetupError::EnableMouseCapture(broken()),
        "Failed to enable mouse capture",
    ) & is_setup(
        alloc,
        SetupError::TerminalSize(broken()),
        "Couldn't determine the terminal size",
    );
    assert_holds(&rt, are_named);
}

// Whether an error of a cleanup has this text.
fn is_cleanup(alloc: Global, error: CleanupError, text: &str) -> bool {
    is_shown(alloc, &error, text)
}

#[test]
fn names_each_error_of_a_cleanup(rt: HostRuntime) {
    let alloc = rt.alloc();
    let are_named = is_cleanup(
        alloc,
        CleanupError::DisableMouseCapture(broken()),
        "Failed to disable mouse capture",
    ) & is_cleanup(
        alloc,
        CleanupError::ShowCursor(broken()),
        "Failed to show the cursor",
    ) & is_cleanup(
        alloc,
        CleanupError::DisableRawMode(broken()),
        "Failed to disable raw mode",
    ) & is_cleanup(
        alloc,
        CleanupError::LeaveAlternateScreen(broken()),
        "Failed to switch back to main screen",
    );
    assert_holds(&rt, are_named);
}

#[test]
fn names_a_cause_by_its_own_text(rt: HostRuntime) {
    assert_holds(&rt, is_shown(rt.alloc(), &broken(), "broken pipe"));
}

// The fault of a pattern that is too big.
fn too_big() -> RegexError {
    RegexError::from(regex::Error::CompiledTooBig)
}

// Whether a pattern's fault, by itself and as an error, has the text of its cause, which is put into `text`.
fn is_named_by_its_cause(alloc: Global, text: &mut String) -> bool {
    write!(text, "{}", regex::Error::CompiledTooBig).is_ok()
        && is_shown(alloc, &too_big(), text.as_str())
        && has_name(alloc, MinusError::from(too_big()), 15, text.as_str())
}

#[test]
fn names_a_faulty_pattern_by_its_cause(rt: HostRuntime) {
    let mut text = String::new(rt.alloc());
    assert_holds(&rt, is_named_by_its_cause(rt.alloc(), &mut text));
}

#[test]
fn names_a_hook(rt: HostRuntime) {
    let hook = Hook::PostPagerExit;
    let is_told_apart = hook == Hook::PostPagerExit && hook != Hook::PrePagerExit;
    assert_holds(
        &rt,
        is_told_apart && is_debugged(rt.alloc(), &hook, "PostPagerExit"),
    );
}

const FAULTS: [(DescriptionError, &str); 7] = [
    (DescriptionError::NotAscii, "NotAscii"),
    (DescriptionError::Empty, "Empty"),
    (DescriptionError::EmptySegment, "EmptySegment"),
    (DescriptionError::RepeatedModifier, "RepeatedModifier"),
    (DescriptionError::UnknownName, "UnknownName"),
    (DescriptionError::SecondKey, "SecondKey"),
    (DescriptionError::NoAction, "NoAction"),
];

#[test]
fn names_each_fault_of_a_description(rt: HostRuntime) {
    for (fault, name) in &FAULTS {
        assert_at(&rt, name, is_shown(rt.alloc(), fault, name));
    }
}
