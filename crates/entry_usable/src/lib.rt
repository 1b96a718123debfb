// Which key may vend (document 02, N3: "a key is usable exactly when it is marked closed, whatever the slot's state").
#![tactic(auto)]

ghost use Rattle.std.specs.Prelude.{◌≡◌, ◌-◌, ◌≤◌, eqb, length, get_or};
ghost use Rattle.row_types.specs.Registers.{closed_mark};
ghost use Rattle.row_index.specs.Lent.{tables_with_marks};
ghost use Rattle.engine.specs.Usable.{is_usable};

use row_types::{CLOSED, Counts, SlotRow, Tables};

// The number of a register's owner; 0 of a free register.
fn owner_of(owners: [usize; 32], register: usize) -> usize
    requires { (1 ≤ register) × (register ≤ 32) }
    ensures { result ≡ get_or owners (register - 1) 0 }
{
    owners[register - 1]
}

// Whether a register is marked closed.
fn is_closed(marks: [u8; 32], register: usize) -> bool
    requires { (1 ≤ register) × (register ≤ 32) }
    ensures { result ≡ eqb (get_or marks (register - 1) 0) closed_mark }
{
    marks[register - 1] == CLOSED
}

// Whether the key in a register, counted from 1, may vend, over slot rows, lent cards and marks.
pub fn is_usable(
    slots: [SlotRow; 8],
    counts: Counts,
    cards: &[[u8; 256]],
    marks: [u8; 32],
    register: usize,
) -> bool
    requires { length cards.now ≡ 32 }
    ensures { result ≡ is_usable
        (tables_with_marks slots counts.slots cards.now marks counts.registers) register }
{
    let n = counts.slots;
    let m = counts.registers;
    if !decide_counts::are_counts(n, m) {
        return false;
    }
    let f = row_soundness::find(slots, n, &cards[..m], marks);
    if !f.sound {
        return false;
    }
    if register < 1 {
        return false;
    }
    if m < register {
        return false;
    }
    let owners = f.owners;
    let owner = owner_of(owners, register);
    if owner == 0 {
        return false;
    }
    is_closed(marks, register)
}

// The same over tables by value, whose cards are lent from here.
pub fn is_usable_in(tables: Tables, register: usize) -> bool
    ensures { result ≡ is_usable tables register }
{
    let slots = tables.slots;
    let registers = tables.registers;
    let counts = Counts {
        slots: tables.slot_count,
        registers: tables.register_count,
    };
    let cards = register_tables::cards_of(registers);
    let marks = register_tables::marks_of(registers);
    is_usable(slots, counts, &cards, marks, register)
}
