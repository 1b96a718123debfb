// The rows that a caller lends, of any number, taken into tables by value and put back (document 01, "What the
// caller lends"): slots as rows, registers as their cards and their marks. One row is copied at a time.
#![tactic(auto)]

ghost use Rattle.std.specs.Prelude.{◌≡◌};
ghost use Rattle.row_lending.specs.Tables.{overlay, each_with, with_card, with_mark};
ghost use Rattle.row_lending.specs.Tables.{free_slots, free_cards, free_marks, slot_table, card_table, mark_table};

use row_types::{CLOSED, RegisterRow, SlotRow};

// A table of free rows.
#[tactic(auto, unfolding(crate::specs::Tables::free_slots))]
fn free_slots() -> [SlotRow; 8]
    ensures { result ≡ free_slots }
{
    [slot_rows::free_slot(); 8]
}

// The lent slot rows, as far as there are places, and free rows after them.
pub fn load_slots(slots: &[SlotRow]) -> [SlotRow; 8]
    ensures { result ≡ slot_table slots.now }
{
    let count = slots.len().min(8);
    let mut rows = free_slots();
    rows[..count].copy_from_slice(&slots[..count]);
    rows
}

// The cards of the lent register rows, likewise.
pub fn load_cards(registers: &[RegisterRow]) -> [[u8; 256]; 32]
    ensures { result ≡ card_table registers.now }
{
    let count = registers.len().min(32);
    let mut cards = [[0; 256]; 32];
    for (i, row) in registers[..count].iter().enumerate() {
        cards[i] = row.card;
    }
    cards
}

// And their marks.
pub fn load_marks(registers: &[RegisterRow]) -> [u8; 32]
    ensures { result ≡ mark_table registers.now }
{
    let count = registers.len().min(32);
    let mut marks = [CLOSED; 32];
    for (i, row) in registers[..count].iter().enumerate() {
        marks[i] = row.mark;
    }
    marks
}

// The lent slot rows overwritten, as far as there are places; those beyond keep their value.
pub fn store_slots(slots: &mut [SlotRow], rows: [SlotRow; 8])
    ensures { slots.new ≡ overlay rows slots.old }
{
    let count = slots.len().min(8);
    slots[..count].copy_from_slice(&rows[..count]);
}

// The cards of the lent register rows, likewise; their marks stay.
pub fn store_cards(registers: &mut [RegisterRow], cards: &[[u8; 256]])
    ensures { registers.new ≡ each_with with_card registers.old cards.now }
{
    let count = registers.len().min(cards.len());
    for (i, card) in cards[..count].iter().enumerate() {
        registers[i].card = *card;
    }
}

// Their marks, likewise; their cards stay.
pub fn store_marks(registers: &mut [RegisterRow], marks: [u8; 32])
    ensures { registers.new ≡ each_with with_mark registers.old marks }
{
    let count = registers.len().min(32);
    for (i, mark) in marks[..count].iter().enumerate() {
        registers[i].mark = *mark;
    }
}
