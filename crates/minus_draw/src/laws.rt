//! Laws over the definitions of drawings.
ghost use Rattle.minus_draw.specs.Drawn.{DrawingsJoin};
ghost use Rattle.minus_draw.specs.Keyed.{KeysAreDrawn};

/// A law: the drawings of some works, and after them those of others, are the drawings of them all.
pub fn drawings_join()
    ensures { DrawingsJoin }
{}

/// A law: what a key of the open search prompt does, a moved cursor, an edited query or a prompt that closes, is drawn
/// by some operations as its kind of drawing says.
pub fn keys_are_drawn()
    ensures { KeysAreDrawn }
{}
