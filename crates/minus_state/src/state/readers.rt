//! What a state answers.
use crate::state::PagerState;

impl PagerState {
    ghost use Rattle.std.specs.Prelude.{◌≡◌, slice_get, string_bytes};
    ghost use Rattle.minus_text.specs.Document.{line_map};
    ghost use Rattle.minus_state.specs.States.{control_of};

    /// Whether the page goes on with what is appended.
    pub fn follow_output(&self) -> bool
        ensures { result ≡ (control_of self.now).settings.follow }
    {
        self.follow
    }

    /// What the prompt row says where there is no message.
    pub fn prompt(&self) -> &str
        ensures { result.now ≡ string_bytes self.now.prompt }
    {
        self.prompt.as_str()
    }

    /// Whether the prompt row is shown.
    pub fn prompt_shown(&self) -> bool
        ensures { result ≡ (control_of self.now).settings.is_shown }
    {
        self.prompt_shown
    }

    /// The first row of a line, both counted from 0, if there is such a line.
    pub fn line_first_row(&self, line: usize) -> Option<usize>
        ensures { result ≡ slice_get (line_map self.now.screen.document) line }
    {
        self.screen.lines_to_row_map().get(line)
    }
}
