//! Runs of scripts with what they must print.
use crate::facts::assert_at;
use minus_script::{Mode, run_script};
use std::alloc::Global;

const SETUP: &str = "\x1b[?1049h\x1b[?1000h\x1b[?1002h\x1b[?1003h\x1b[?1015h\x1b[?1006h\x1b[?25l";

const CLEANUP: &str = "\x1b[?25h\x1b[?1006l\x1b[?1015l\x1b[?1003l\x1b[?1002l\x1b[?1000l\x1b[?1049l";

// Whether bytes are these between those that set a terminal up and clean it up.
fn are_framed(written: &[u8], drawn: &str) -> bool {
    let Ok(text) = str::from_utf8(written) else {
        return false;
    };
    match text.strip_prefix(SETUP) {
        Some(rest) => rest.strip_suffix(CLEANUP) == Some(drawn),
        None => false,
    }
}

// Whether a run of a script draws so on this many columns and rows.
fn draws(alloc: Global, cols: usize, rows: usize, script: &str, drawn: &str) -> bool {
    let mut script = script.as_bytes();
    let mut out = Vec::new(alloc);
    run_script(alloc, Mode::Bytes, cols, rows, &mut script, &mut out).is_ok()
        && are_framed(&out, drawn)
}

#[test]
fn prints_the_bytes_of_a_script(rt: HostRuntime) {
    let cases: &[(usize, usize, &str, &str)] = &[
        (
            6,
            2,
            "",
            "\x1b[1;1H\x1b[2J\x1b[3;1H\r\x1b[2K\x1b[2;40;37mminus \x1b[0m",
        ),
        (
            20,
            5,
            "push one\\ntwo\\nthree",
            "\x1b[1;1H\x1b[2J\x1b[6;1H\r\x1b[2K\x1b[2;40;37mminus               \x1b[0m\x1b[1;1H\x1b[2Kone\x1b[2;1H\x1b[2Ktwo\x1b[3;1H\x1b[2Kthree",
        ),
    ];
    for (cols, rows, script, drawn) in cases {
        assert_at(&rt, script, draws(rt.alloc(), *cols, *rows, script, drawn));
    }
}
