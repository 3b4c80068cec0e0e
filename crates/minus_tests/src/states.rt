//! A state that a caller holds, written to a sink.
ghost use Rattle.std.specs.Prelude.{IfSome};
ghost use Rattle.minus_state.specs.States.{IsFormed};

use crate::sessions::{TEN_LINES, are_bytes};
use minus::{LineNumbers, PagerState, draw_full, write_from_pagerstate};
use std::alloc::Global;

// A text on 80 columns and this many rows, written from a mark on, its whole page or its rows alone, the texts that
// this writes, and the mark that it leaves.
#[derive(Clone, Copy)]
struct Written<'a> {
    name: &'a str,
    text: &'a str,
    rows: usize,
    numbers: LineNumbers,
    mark: usize,
    is_whole: bool,
    texts: &'a [&'a str],
    left: usize,
}

// A state with a text.
fn state_of(alloc: Global, case: &Written<'_>) -> Option<PagerState>
    ensures { IfSome result IsFormed }
{
    let Ok(mut state) = PagerState::new(alloc, 80, case.rows) else {
        return None;
    };
    let is_appended = state.append_str(alloc, case.text).is_ok();
    state.line_numbers = case.numbers;
    match state.reformat_display(alloc) {
        Ok(()) if is_appended => Some(state),
        _ => None,
    }
}

// Writes a state, and answers whether its mark is left so.
fn write_by_itself(
    alloc: Global,
    state: &mut PagerState,
    sink: &mut Vec<u8>,
    case: &Written<'_>,
) -> bool
    requires { IsFormed state.old }
{
    state.upper_mark = case.mark;
    let is_written = if case.is_whole {
        draw_full(alloc, sink, state).is_ok()
    } else {
        write_from_pagerstate(alloc, sink, state).is_ok()
    };
    is_written && state.upper_mark == case.left
}

// Whether a state is written so.
fn is_written_by_itself(alloc: Global, case: &Written<'_>) -> bool {
    let mut sink = Vec::new(alloc);
    let is_written = match state_of(alloc, case) {
        Some(mut state) => write_by_itself(alloc, &mut state, &mut sink, case),
        None => false,
    };
    is_written && are_bytes(&sink, case.texts)
}

// Two lines on more rows.
const SHORT: Written<'static> = Written {
    name: "all rows of a short text",
    text: "A line\nAnother line",
    rows: 10,
    numbers: LineNumbers::Disabled,
    mark: 0,
    is_whole: false,
    texts: &["\rA line\n\rAnother line\n"],
    left: 0,
};

// The rows of that text with numbers.
const NUMBERED: Written<'static> = Written {
    name: "all rows of a short text with numbers",
    numbers: LineNumbers::Enabled,
    texts: &[
        "\r     \x1b[1m1.\x1b[0m A line\n",
        "\r     \x1b[1m2.\x1b[0m Another line\n",
    ],
    ..SHORT
};

// The whole page of that text.
const WHOLE: Written<'static> = Written {
    name: "the whole page of a short text",
    numbers: LineNumbers::AlwaysOff,
    is_whole: true,
    texts: &[
        "\x1b[1;1H\x1b[2J\rA line\n\rAnother line\n\x1b[11;1H\r\x1b[2K\x1b[2;40;37mminus",
        "                                                                           \x1b[0m",
    ],
    ..SHORT
};

// Four lines on four rows.
const FOUR: Written<'static> = Written {
    name: "the first rows of a longer text",
    text: "A line\nAnother line\nThird line\nFourth line",
    rows: 4,
    texts: &["\rA line\n\rAnother line\n\rThird line\n"],
    ..SHORT
};

// Later ones, from a mark on.
const LATER: Written<'static> = Written {
    name: "the last rows of a longer text",
    text: "Another line\nThird line\nFourth line\nFifth line\n",
    mark: 1,
    texts: &["\rThird line\n\rFourth line\n\rFifth line\n"],
    left: 1,
    ..FOUR
};

// The four lines with numbers, from a mark on.
const NUMBERED_FOUR: Written<'static> = Written {
    name: "the last rows of a longer text with numbers",
    numbers: LineNumbers::Enabled,
    mark: 1,
    texts: &[
        "\r     \x1b[1m2.\x1b[0m Another line\n",
        "\r     \x1b[1m3.\x1b[0m Third line\n",
        "\r     \x1b[1m4.\x1b[0m Fourth line\n",
    ],
    left: 1,
    ..FOUR
};

// 110 lines.
const MANY: &str = concat!(
    "L0\nL1\nL2\nL3\nL4\nL5\nL6\nL7\nL8\nL9\nL10\nL11\nL12\nL13\nL14\nL15\nL16\nL17\nL18\n",
    "L19\nL20\nL21\nL22\nL23\nL24\nL25\nL26\nL27\nL28\nL29\nL30\nL31\nL32\nL33\nL34\nL35\n",
    "L36\nL37\nL38\nL39\nL40\nL41\nL42\nL43\nL44\nL45\nL46\nL47\nL48\nL49\nL50\nL51\nL52\n",
    "L53\nL54\nL55\nL56\nL57\nL58\nL59\nL60\nL61\nL62\nL63\nL64\nL65\nL66\nL67\nL68\nL69\n",
    "L70\nL71\nL72\nL73\nL74\nL75\nL76\nL77\nL78\nL79\nL80\nL81\nL82\nL83\nL84\nL85\nL86\n",
    "L87\nL88\nL89\nL90\nL91\nL92\nL93\nL94\nL95\nL96\nL97\nL98\nL99\nL100\nL101\nL102\n",
    "L103\nL104\nL105\nL106\nL107\nL108\nL109\n",
);

const WRITTEN: [Written<'static>; 16] = [
    SHORT,
    Written {
        name: "a mark in a short text is clamped",
        mark: 1,
        ..SHORT
    },
    NUMBERED,
    Written {
        name: "a mark in a short text with numbers is clamped",
        mark: 1,
        numbers: LineNumbers::AlwaysOn,
        ..NUMBERED
    },
    WHOLE,
    Written {
        name: "a mark in a short text is clamped for its whole page",
        mark: 1,
        ..WHOLE
    },
    Written {
        name: "numbers of fewer digits are padded",
        text: MANY,
        rows: 11,
        numbers: LineNumbers::AlwaysOn,
        mark: 95,
        texts: &[
            "\r      \x1b[1m96.\x1b[0m L95\n\r      \x1b[1m97.\x1b[0m L96\n",
            "\r      \x1b[1m98.\x1b[0m L97\n\r      \x1b[1m99.\x1b[0m L98\n",
            "\r     \x1b[1m100.\x1b[0m L99\n\r     \x1b[1m101.\x1b[0m L100\n",
            "\r     \x1b[1m102.\x1b[0m L101\n\r     \x1b[1m103.\x1b[0m L102\n",
            "\r     \x1b[1m104.\x1b[0m L103\n\r     \x1b[1m105.\x1b[0m L104\n",
        ],
        left: 95,
        ..SHORT
    },
    FOUR,
    LATER,
    Written {
        name: "a mark past the last page is clamped",
        mark: 2,
        ..LATER
    },
    Written {
        name: "the first rows of a longer text with numbers",
        mark: 0,
        texts: &[
            "\r     \x1b[1m1.\x1b[0m A line\n",
            "\r     \x1b[1m2.\x1b[0m Another line\n",
            "\r     \x1b[1m3.\x1b[0m Third line\n",
        ],
        left: 0,
        ..NUMBERED_FOUR
    },
    NUMBERED_FOUR,
    Written {
        name: "a mark past the last page with numbers is clamped",
        mark: 2,
        ..NUMBERED_FOUR
    },
    Written {
        name: "the whole first page of a longer text",
        rows: 3,
        is_whole: true,
        texts: &[
            "\x1b[1;1H\x1b[2J\rA line\n\rAnother line\n\x1b[4;1H\r\x1b[2K\x1b[2;40;37mminus",
            "                                                                           \x1b[0m",
        ],
        ..FOUR
    },
    Written {
        name: "the first rows of a page",
        text: TEN_LINES,
        rows: 4,
        texts: &["\rl0\n\rl1\n\rl2\n"],
        ..SHORT
    },
    Written {
        name: "the last rows of a page, whose mark was past them",
        text: TEN_LINES,
        rows: 4,
        mark: 9,
        texts: &["\rl7\n\rl8\n\rl9\n"],
        left: 7,
        ..SHORT
    },
];

#[test]
fn a_page_is_written_by_itself(rt: HostRuntime) {
    for case in &WRITTEN {
        assert!(rt; is_written_by_itself(rt.alloc(), case), "{}", case.name);
    }
}
