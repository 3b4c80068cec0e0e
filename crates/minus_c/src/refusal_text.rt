//! Refusals in words.
ghost use Rattle.std.specs.Prelude.{◌≡◌, option_map};
ghost use Rattle.minus_c.specs.RefusalTexts.{refusal_text};

/// What the number of a refusal says; nothing where it is of none.
pub fn refusal_text(refusal: u8) -> Option<&'static str>
    ensures { option_map (λ t. t.now) result ≡ refusal_text refusal }
{
    match refusal {
        0 => Some("done"),
        1 => Some("out of memory"),
        2 => Some("a prompt or a message has a newline"),
        3 => Some("the hook holds a callback under this id"),
        4 => Some("no id is free for a callback"),
        5 => Some("columns or rows are not from 1 to 65,535"),
        6 => Some("the text describes no key and no action of the mouse"),
        7 => Some("the key is bound"),
        8 => Some("the query is full"),
        9 => Some("the call is not for this stage of the pager"),
        10 => Some("the pager has failed before"),
        11 => Some("the pager is over"),
        12 => Some("the terminal was not set up"),
        13 => Some("the terminal was not cleaned up"),
        14 => Some("a drawing failed"),
        15 => Some("the pattern was not built"),
        16 => Some("a text was not formatted"),
        253 => Some("refused"),
        254 => Some("the text is not UTF-8"),
        255 => Some("a number stands for nothing"),
        _ => None,
    }
}
