//! The starts of words around a cursor.
ghost use Rattle.std.specs.Prelude.{◌≡◌, ◌≤◌, ℕ};
ghost use Rattle.minus_text.specs.WordStarts.{AreWithin};
ghost use Rattle.minus_state.specs.QueryEditor.{last_below, first_above};

// The last of these places that is below another place, or 1 where there is none.
fn last_of(places: &[usize], place: usize) -> usize
    ensures { result ≡ last_below place 1 places.now }
{
    let mut last = 1;
    for &start in places {
        if start < place {
            last = start;
        }
    }
    last
}

// The first of these places that is above another place, or the end where there is none.
fn first_of(places: &[usize], place: usize, end: usize) -> usize
    ensures { result ≡ first_above place end places.now }
{
    for &start in places {
        if start > place {
            return start;
        }
    }
    end
}

// The last of these places that is below another place, or 1 where there is none.
pub(crate) fn last_below(places: &[usize], place: usize) -> usize
    ensures value { result ≡ last_below place 1 places.now }
    ensures within { (end : ℕ) → 1 ≤ end → AreWithin end places.now → (1 ≤ result) × (result ≤ end) }
{
    last_of(places, place)
}

// The first of these places that is above another place, or the end where there is none.
pub(crate) fn first_above(places: &[usize], place: usize, end: usize) -> usize
    ensures value { result ≡ first_above place end places.now }
    ensures within { 1 ≤ end → AreWithin end places.now → (1 ≤ result) × (result ≤ end) }
{
    first_of(places, place, end)
}
