//! What text is added to.
ghost use Rattle.std.specs.Prelude.{◌≡◌, ◌++◌, ℕ, List, OnOk};

use std::alloc::AllocError;

// What text is added to: a row, or the bytes of a drawing.
pub(crate) trait PushText {
    // Its bytes.
    ghost bytes: { Self → List ℕ };

    // Adds a text. An `Err` only means out of memory.
    fn push_text(&mut self, text: &str) -> Result<(), AllocError>
        ensures { OnOk result (bytes self.new ≡ bytes self.old ++ text.now) };
}

impl PushText for String {
    ghost use Rattle.std.specs.Prelude.{string_bytes};

    ghost bytes = { λ s. string_bytes s };

    fn push_text(&mut self, text: &str) -> Result<(), AllocError> {
        self.push_str(text)
    }
}

impl PushText for Vec<u8> {
    ghost bytes = { λ v. v.items };

    fn push_text(&mut self, text: &str) -> Result<(), AllocError> {
        self.extend_from_slice(text.as_bytes())
    }
}
