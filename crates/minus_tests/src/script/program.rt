//! The program's statuses, and what it says of its faults.
use crate::facts::assert_holds;
use crate::script::doubles::{Broken, Refusal, Refusing};
use crate::script::words::add_words;
use minus_part_tests::shown::is_shown;
use minus_script::{ProgramFault, run_to_end, run_words};
use std::alloc::{AllocError, Global};
use std::io::{Read, Write};
use std::process::ExitCode;

// Whether a fault has this status and text.
fn is_told(alloc: Global, fault: &ProgramFault, told: (u8, &str)) -> bool {
    fault.status() == told.0 && is_shown(alloc, fault, told.1)
}

// Whether a run on these words ends with this status and, where that is not 0, a fault of this text.
fn ends<R: Read, W: Write>(
    alloc: Global,
    texts: &[&str],
    reader: &mut R,
    writer: &mut W,
    told: (u8, &str),
) -> bool {
    let mut words = Vec::new(alloc);
    let is_given = add_words(alloc, &mut words, texts);
    match run_words(alloc, &words, reader, writer) {
        Ok(()) => is_given && told == (0, ""),
        Err(fault) => is_given && is_told(alloc, &fault, told),
    }
}

// Whether the program ends so on a script, with this many bytes printed.
fn ends_on(alloc: Global, texts: &[&str], script: &str, told: (u8, &str), printed: usize) -> bool {
    let mut out = Vec::new(alloc);
    ends(alloc, texts, &mut script.as_bytes(), &mut out, told) && out.len() == printed
}

// The words and the script, the status and the fault's text, and how many bytes are printed.
struct Run<'a> {
    words: &'a [&'a str],
    script: &'a str,
    told: (u8, &'a str),
    printed: usize,
}

const RUNS: [&Run<'static>; 5] = [
    &Run {
        words: &["page", "20", "3"],
        script: "push a",
        told: (0, ""),
        printed: 40,
    },
    &Run {
        words: &["page", "20"],
        script: "",
        told: (2, "usage: minus_show page|bytes COLS ROWS"),
        printed: 0,
    },
    &Run {
        words: &["page", "20", "3"],
        script: "pull a",
        told: (2, "script line 1"),
        printed: 0,
    },
    &Run {
        words: &["bytes", "20", "0"],
        script: "",
        told: (3, "refused 5"),
        printed: 0,
    },
    &Run {
        words: &["bytes", "20", "3"],
        script: "resize 0 1",
        told: (3, "refused 5"),
        printed: 0,
    },
];

#[test]
fn each_status_has_its_cause(rt: HostRuntime) {
    for run in &RUNS {
        assert!(rt;
            ends_on(rt.alloc(), run.words, run.script, run.told, run.printed),
            "at {} of {:?}",
            run.script,
            run.words
        );
    }
}

#[test]
fn a_reader_that_fails_is_told(rt: HostRuntime) {
    let mut broken = Broken { failed: false };
    let mut out = Vec::new(rt.alloc());
    let told = (1, "standard input failed");
    let is_told = ends(
        rt.alloc(),
        &["page", "20", "3"],
        &mut broken,
        &mut out,
        told,
    );
    assert_holds(&rt, is_told && out.is_empty());
}

// Whether a writer that refuses so is told.
fn tells_of_output(alloc: Global, refusal: Refusal) -> bool {
    let mut writer = Refusing { refusal, taken: 0 };
    let mut script = "push a".as_bytes();
    let told = (1, "standard output failed");
    ends(alloc, &["page", "20", "3"], &mut script, &mut writer, told)
}

#[test]
fn a_writer_that_refuses_is_told(rt: HostRuntime) {
    let refusals: &[Refusal] = &[
        Refusal::Write,
        Refusal::Flush,
        Refusal::Nothing,
        Refusal::Interrupted,
    ];
    for (i, refusal) in refusals.iter().enumerate() {
        assert!(rt; tells_of_output(rt.alloc(), *refusal), "at refusal {i}");
    }
}

#[test]
fn want_of_memory_is_a_refusal(rt: HostRuntime) {
    let fault = ProgramFault::from(AllocError);
    assert_holds(&rt, is_told(rt.alloc(), &fault, (3, "refused 1")));
}

// A test is started with other words than the program's.
#[test]
fn the_program_ends_with_the_status_of_its_fault(rt: HostRuntime) {
    assert_holds(&rt, run_to_end(&rt) == ExitCode::from(2));
}
