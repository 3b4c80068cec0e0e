//! The row in which a byte of the text stands, so that a page begins there again once the rows are others.
ghost use Rattle.std.specs.Prelude.{◌≡◌};
ghost use Rattle.minus_app.specs.RowOfByte.{begins_by, StandsIn};

use minus::PagerState;

// Whether a row begins with a byte or before it.
fn begins_by(state: &PagerState, byte: usize, row: usize) -> bool
    ensures { result ≡ begins_by state.now byte row }
{
    match state.screen.row_place(row) {
        Some(place) => place.start <= byte,
        None => false,
    }
}

/// The row in which a byte of the text stands, both counted from 0.
pub fn row_at(state: &PagerState, byte: usize) -> usize
    ensures { StandsIn state.now byte result }
{
    let mut row = 0;
    let mut behind = state.screen.formatted_lines_count().max(1);
    while behind - row > 1 {
        let middle = row + (behind - row) / 2;
        if begins_by(state, byte, middle) {
            row = middle;
        } else {
            behind = middle;
        }
    }
    row
}
