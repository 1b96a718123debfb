// The registers of the table, by their cards and marks (document 01, "Slots and registers"; document 02, N3): cards and
// marks of rows, the rows with them, and what SM?KX, SM?KF and GL?RS leave.
#![tactic(auto)]

ghost use Rattle.std.specs.Prelude.{◌≡◌, map, ◌≤◌, length, take};
ghost use Rattle.row_types.specs.Lists.{mapped};
ghost use Rattle.row_index.specs.Lent.{card_in, mark_in, marked_rows};
ghost use Rattle.register_tables.specs.Freed.{cleared, freed, closed, closing};

use row_types::{CLOSED, RegisterRow};

// The cards of all places, to be lent.
pub fn cards_of(registers: [RegisterRow; 32]) -> [[u8; 256]; 32]
    ensures { result ≡ map card_in registers }
{
    let mut cards = [[0; 256]; 32];
    for (i, row) in registers.iter().enumerate() {
        cards[i] = row.card;
    }
    cards
}

// The marks of all places.
pub fn marks_of(registers: [RegisterRow; 32]) -> [u8; 32]
    ensures { result ≡ map mark_in registers }
{
    let mut marks = [CLOSED; 32];
    for (i, row) in registers.iter().enumerate() {
        marks[i] = row.mark;
    }
    marks
}

// The rows with these cards and marks.
pub fn rows_of(cards: [[u8; 256]; 32], marks: [u8; 32]) -> [RegisterRow; 32]
    ensures { result ≡ marked_rows cards marks }
{
    let free = RegisterRow {
        card: [0; 256],
        mark: CLOSED,
    };
    let mut registers = [free; 32];
    for (i, mark) in marks.iter().enumerate() {
        registers[i] = RegisterRow {
            card: cards[i],
            mark: *mark,
        };
    }
    registers
}

// Clears each place whose owner is the slot.
#[tactic(auto, using(crate::proofs::FreedLaws::cleared_turn))]
fn clear_owned<T: Copy>(cells: &mut [T], owners: &[usize], slot: usize, clear: &T)
    requires { length owners.now ≤ length cells.old }
    ensures { cells.new ≡ cleared clear.now slot owners.now cells.old }
{
    for (i, owner) in owners.iter().enumerate() {
        if *owner == slot {
            cells[i] = *clear;
        }
    }
}

// Clears each of the first register_count cards whose owner is the slot.
pub fn free_owned(cards: &mut [[u8; 256]], owners: [usize; 32], register_count: usize, slot: usize)
    requires { (register_count ≤ 32) × (register_count ≤ length cards.old) }
    ensures { cards.new ≡ freed slot (take register_count owners) cards.old }
{
    clear_owned(cards, &owners[..register_count], slot, &[0; 256]);
}

// Closes each of the first register_count registers whose owner is the slot.
pub fn close_owned(
    marks: [u8; 32],
    owners: [usize; 32],
    register_count: usize,
    slot: usize,
) -> [u8; 32]
    requires { register_count ≤ 32 }
    ensures { result ≡ closed slot (take register_count owners) marks }
{
    let mut after = marks;
    clear_owned(&mut after, &owners[..register_count], slot, &CLOSED);
    after
}

// Closes each of the first register_count registers.
pub fn close_all(marks: [u8; 32], register_count: usize) -> [u8; 32]
    requires { register_count ≤ 32 }
    ensures { result ≡ mapped register_count closing marks }
{
    let mut after = marks;
    after[..register_count].fill(CLOSED);
    after
}
