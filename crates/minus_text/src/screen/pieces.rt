//! Pieces of a text that come one behind the other.
ghost use Rattle.minus_text.specs.Document.{PiecesPushJoined};

/// To push pieces one after another, with numbers and columns for all, is to push them joined.
pub fn pieces_push_joined()
    ensures { PiecesPushJoined }
{}
