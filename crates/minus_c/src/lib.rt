//! The pager for programs in other languages: exported functions over one value that a caller holds by a pointer, which
//! it hands in and is handed back at each call. `include/minus.h` says what each of them asks and answers.
//!
//! A call goes this way:
//! 1. An export (`exports`, by themes) tests what it is given: lengths, numbers, UTF-8.
//! 2. The pointer becomes the value behind it (`kept`), which is handed back at the end in any case.
//! 3. The call is one of that value (`held`): a pager that waits, runs or is over (`stage`).
//! 4. Its result is told in numbers (`told`, `found`), and bytes for the terminal wait until they are taken.
//!
//! So `minus_key` with the numbers of the key `j` is a step of the session, tells the refusal 0 and how many bytes
//! wait.
#![tactic(auto)]

mod enum_numbers;
mod exports;
mod found;
mod held;
mod input_events;
mod kept;
mod keys;
mod mouse;
mod reading;
mod refusal_text;
mod room;
mod session;
mod stage;
mod state;
mod told;
