// The search of the registers (document 01, "Slots and registers"): where a key stands, and the lowest free
// register, by the numbers that question 3 found.
#![tactic(auto)]

ghost use Rattle.std.specs.Prelude.{◌≡◌, ◌≤◌, take};
ghost use Rattle.row_types.specs.Lists.{first_from};
ghost use Rattle.row_types.specs.Places.{place_of, PlaceWithin};
ghost use Rattle.row_index.specs.Found.{is_the};

use row_types::Place;

fn is_the(key: u64, other: u64) -> bool
    ensures { result ≡ is_the key other }
{
    other == key
}

// The place of the first register whose key has this number; 0 finds the lowest free one.
pub fn key_place(keys: [u64; 32], register_count: usize, key: u64) -> Place
    requires { register_count ≤ 32 }
    ensures result_value { place_of result ≡ first_from (is_the key) 0 (take register_count keys) }
    ensures within { PlaceWithin register_count result }
{
    let mut i = 0;
    while i < register_count {
        if is_the(key, keys[i]) {
            return Place::At(i);
        }
        i += 1;
    }
    Place::Nothing
}
