// The sequence in which SM?GL lists the slots (document 02, N1): their places, in ascending byte sequence of their
// names. No row is moved.
#![tactic(auto)]

ghost use Rattle.std.specs.Prelude.{true, ◌≡◌, ◌+◌, ◌≤◌, ◌<◌, length, drop};
ghost use Rattle.byte_orders.specs.Orders.{is_before, inserted_by};
ghost use Rattle.slot_order.specs.Sequences.{name_at, is_before_at, are_below, slot_sequence};

use row_types::{SlotRow, SlotState};

// Places from `first` on, the last of them at 7.
#[derive(Clone, Copy)]
pub struct Sequence {
    pub places: [usize; 8],
    pub first: usize,
}

// Whether the name at a place is before another.
fn is_name_before(names: &[[u8; 40]], place: usize, name: &[u8]) -> bool
    requires { place < length names.now }
    ensures { result ≡ is_before (name_at names.now place) name.now }
{
    byte_orders::is_before(slot_tests::trimmed(&names[place]), name)
}

// Puts a place among those after `first`, which stand in order: those whose names are before its own move up.
fn insert(names: &[[u8; 40]], places: [usize; 8], first: usize, place: usize) -> [usize; 8]
    requires { (first < 8) × (place < length names.now)
        × (are_below (length names.now) (drop (first + 1) places) ≡ true) }
    ensures { drop first result
        ≡ inserted_by (is_before_at names.now) place (drop (first + 1) places) }
{
    let mut after = places;
    let name = slot_tests::trimmed(&names[place]);
    let mut i = first;
    while i < 7 {
        let next = after[i + 1];
        if !is_name_before(names, next, name) {
            after[i] = place;
            return after;
        }
        after[i] = next;
        i += 1;
    }
    after[7] = place;
    after
}

// The places of those of the first slot_count rows that are not free, in ascending byte sequence of their names.
pub fn sequence_of(slots: [SlotRow; 8], slot_count: usize) -> Sequence
    requires { slot_count ≤ 8 }
    ensures places_value { drop result.first result.places ≡ slot_sequence slots slot_count }
    ensures within { result.first ≤ 8 }
{
    let names = slot_tables::names_of(slots);
    let mut places = [0usize; 8];
    let mut first = 8;
    let mut i = slot_count;
    while i > 0 {
        i -= 1;
        let row = slots[i];
        if slot_tests::has_state(row, SlotState::Free) {
            continue;
        }
        first -= 1;
        let after = insert(&names, places, first, i);
        places = after;
    }
    Sequence { places, first }
}
