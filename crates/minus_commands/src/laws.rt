//! Laws over the table of commands.
ghost use Rattle.minus_commands.specs.EvHandler.{ByHandAsByTheTable};
ghost use Rattle.minus_commands.specs.Table.{ResizesAreFull, HelpLeavesNoTrace};

/// A law: what changes the size of the terminal is drawn in full.
pub fn resizes_are_full<Q, K>()
    ensures { ResizesAreFull Q K }
{}

/// A law: help that is opened and left at once leaves all as it was, but for the message, which is gone.
pub fn help_leaves_no_trace<Q, K>()
    ensures { HelpLeavesNoTrace Q K }
{}

/// A law: a command that is handled manually leaves, once what waits for it is done too, what the table says of it,
/// which is what a step leaves.
pub fn by_hand_as_by_the_table<Q, K>()
    ensures { ByHandAsByTheTable Q K }
{}
