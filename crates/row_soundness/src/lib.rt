// Question 3 (document 01, "Questions in order"): whether the rows are sound. Rows that are sound by themselves are
// compared by their names and keys alone, and their marks judged by their owners; what is found of the registers serves
// the questions after it, so that no card is searched again.
#![tactic(auto)]

ghost use Rattle.std.specs.Prelude.{◌≡◌, true, false, map, ◌≤◌, length, take};
ghost use Rattle.row_types.specs.Sound.{are_sound};
ghost use Rattle.row_types.specs.Index.{kept_name, key_number};
ghost use Rattle.row_index.specs.Found.{owner_number};
ghost use Rattle.row_index.specs.Lent.{rows_with, marked_rows};

use register_keys::Findings;
use row_types::SlotRow;

// Of rows that are not sound nothing is told.
pub fn unsound() -> Findings
    ensures { result.sound ≡ false }
{
    Findings {
        sound: false,
        keys: [0; 32],
        owners: [0; 32],
    }
}

// Whether the first slot_count slot rows and the register rows with these cards are sound, as far as the cards tell it;
// and where they are, the keys of the registers and the numbers of their slots.
fn find_keys(slots: [SlotRow; 8], slot_count: usize, cards: &[[u8; 256]]) -> Findings
    requires { (slot_count ≤ 8) × (length cards.now ≤ 32) }
    ensures sound_value { result.sound ≡ are_sound (take slot_count slots) (rows_with cards.now) }
    ensures keys { result.sound ≡ true
        → take (length cards.now) result.keys ≡ map key_number (rows_with cards.now) }
    ensures owners { result.sound ≡ true
        → take (length cards.now) result.owners
        ≡ map (owner_number (map kept_name (take slot_count slots))) (rows_with cards.now) }
{
    if !slot_tables::are_slots_sound(slots, slot_count) {
        return unsound();
    }
    let names = slot_tables::names_of(slots);
    if !slot_names::are_names_distinct(&names[..slot_count]) {
        return unsound();
    }
    let judged = register_keys::judge_registers(cards, &names[..slot_count]);
    if !judged.sound {
        return unsound();
    }
    let keys = judged.keys;
    if !register_keys::are_keys_distinct(&keys[..cards.len()]) {
        return unsound();
    }
    judged
}

// The same of the register rows with these cards and marks.
pub fn find(
    slots: [SlotRow; 8],
    slot_count: usize,
    cards: &[[u8; 256]],
    marks: [u8; 32],
) -> Findings
    requires { (slot_count ≤ 8) × (length cards.now ≤ 32) }
    ensures sound_value { result.sound ≡ are_sound (take slot_count slots) (marked_rows cards.now marks) }
    ensures keys { result.sound ≡ true
        → take (length cards.now) result.keys
        ≡ map key_number (marked_rows cards.now marks) }
    ensures owners { result.sound ≡ true
        → take (length cards.now) result.owners
        ≡ map (owner_number (map kept_name (take slot_count slots))) (marked_rows cards.now marks) }
{
    let found = find_keys(slots, slot_count, cards);
    if !found.sound {
        return unsound();
    }
    let states = slot_tables::states_of(slots);
    let owners = found.owners;
    if !register_marks::are_marks_right(states, owners, marks, cards.len()) {
        return unsound();
    }
    found
}
