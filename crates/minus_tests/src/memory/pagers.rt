//! The calls of a pager that waits for its start.
use super::{Log, Pager, add_exit, add_hook};
use crate::facts::assert_holds;
use crate::plain_sessions::Keys;
use minus::{ExitStrategy, Hook, LineNumbers, NeverShows, PagerOf};
use std::alloc::Global;
use std::fmt::{self, Write};

// A sum of what is written, so that queues are compared by calls that take no memory.
#[derive(Drop)]
struct Summed(u64);

impl Write for Summed {
    fn write_str(&mut self, text: &str) -> fmt::Result {
        for byte in text.as_bytes() {
            self.0 = self.0.wrapping_mul(257).wrapping_add(*byte as u64);
        }
        Ok(())
    }
}

// What waits in a pager.
fn queue_of(pager: &Pager) -> u64 {
    let mut summed = Summed(0);
    let _ = write!(summed, "{pager:?}");
    summed.0
}

// Whether a call adds to the queue, at once or, where it is refused since memory ran out with the queue as it was, when
// it is made again.
macro_rules! is_queued {
    ($pager:ident, $call:expr) => {{
        let before = queue_of(&$pager);
        let is_done = match $call {
            Ok(()) => true,
            Err(refusal) => {
                refusal.number() == 1 && queue_of(&$pager) == before && $call.is_ok()
            }
        };
        is_done && queue_of(&$pager) != before
    }};
}

// Whether each call does.
fn queues(alloc: Global, log: &Log) -> bool {
    let mut pager: Pager = PagerOf::new(alloc);
    is_queued!(pager, pager.set_text("a\nb"))
        && is_queued!(pager, pager.push_str("c"))
        && is_queued!(pager, pager.set_prompt("p"))
        && is_queued!(pager, pager.send_message("m"))
        && is_queued!(pager, pager.show_prompt(true))
        && is_queued!(pager, pager.set_line_numbers(LineNumbers::Enabled))
        && is_queued!(pager, pager.horizontal_scroll(true))
        && is_queued!(pager, pager.follow_output(true))
        && is_queued!(pager, pager.set_exit_strategy(ExitStrategy::PagerQuit))
        && is_queued!(pager, pager.set_run_no_overflow(true))
        && is_queued!(pager, add_exit(&mut pager, log))
        && is_queued!(pager, add_hook(&mut pager, Hook::EofReached, log))
        && is_queued!(pager, pager.remove_hook(Hook::EofReached, 7))
        && is_queued!(pager, pager.set_input_classifier(Keys))
        && is_queued!(pager, pager.set_incremental_search_condition(NeverShows))
}

#[test]
fn a_refused_call_leaves_the_queue(rt: HostRuntime) {
    if let Some(log) = Log::new(rt.alloc()) {
        assert_holds(&rt, queues(rt.alloc(), &log) && log.is_empty());
    }
}
