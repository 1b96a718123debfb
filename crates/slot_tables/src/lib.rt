// The table of slots: searches, the test of each row, and the sweep of GL?RS (document 01, "Slots and registers").
#![tactic(auto)]

ghost use Rattle.std.specs.Prelude.{◌≡◌, map, ◌≤◌, take};
ghost use Rattle.row_types.specs.Lists.{every_row, first_from, mapped};
ghost use Rattle.row_types.specs.Slots.{has_state, is_named, is_slot_sound, reset_slot};
ghost use Rattle.row_types.specs.declared.SlotState.TheVariants.{Free};
ghost use Rattle.row_types.specs.Places.{place_of, PlaceWithin};
ghost use Rattle.row_types.specs.Index.{kept_name, state_in};

use row_types::{Place, SlotRow, SlotState};

// The place of the slot with a name.
pub fn slot_place(slots: [SlotRow; 8], slot_count: usize, name: &[u8]) -> Place
    requires { slot_count ≤ 8 }
    ensures result_value { place_of result ≡ first_from (is_named name.now) 0 (take slot_count slots) }
    ensures within { PlaceWithin slot_count result }
{
    let mut i = 0;
    while i < slot_count {
        let r = slots[i];
        if slot_tests::is_named(r, name) {
            return Place::At(i);
        }
        i += 1;
    }
    Place::Nothing
}

// The lowest free row.
pub fn free_place(slots: [SlotRow; 8], slot_count: usize) -> Place
    requires { slot_count ≤ 8 }
    ensures result_value { place_of result ≡ first_from (has_state Free) 0 (take slot_count slots) }
    ensures within { PlaceWithin slot_count result }
{
    let mut k = 0;
    while k < slot_count {
        let r = slots[k];
        if slot_tests::has_state(r, SlotState::Free) {
            return Place::At(k);
        }
        k += 1;
    }
    Place::Nothing
}

// Whether each slot row is sound by itself.
pub fn are_slots_sound(slots: [SlotRow; 8], slot_count: usize) -> bool
    requires { slot_count ≤ 8 }
    ensures { result ≡ every_row is_slot_sound (take slot_count slots) }
{
    let mut i = 0;
    while i < slot_count {
        let r = slots[i];
        if !slot_forms::is_slot_sound(r) {
            return false;
        }
        i += 1;
    }
    true
}

// The names as they are kept, of all places.
pub fn names_of(slots: [SlotRow; 8]) -> [[u8; 40]; 8]
    ensures { result ≡ map kept_name slots }
{
    let mut names = [[0u8; 40]; 8];
    let mut i = 0;
    while i < 8 {
        let r = slots[i];
        let name = r.kmcid;
        names[i] = name;
        i += 1;
    }
    names
}

// The numbers of the states, of all places.
pub fn states_of(slots: [SlotRow; 8]) -> [u8; 8]
    ensures { result ≡ map state_in slots }
{
    let mut states = [0u8; 8];
    let mut i = 0;
    while i < 8 {
        let r = slots[i];
        let state = r.state;
        states[i] = state;
        i += 1;
    }
    states
}

// GL?RS: the rows after it.
pub fn reset_slots(slots: [SlotRow; 8], slot_count: usize) -> [SlotRow; 8]
    requires { slot_count ≤ 8 }
    ensures { result ≡ mapped slot_count reset_slot slots }
{
    let mut after = slots;
    let mut i = 0;
    while i < slot_count {
        let r = after[i];
        after[i] = slot_rows::reset_slot(r);
        i += 1;
    }
    after
}
