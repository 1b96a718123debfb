// The tables that the console lends (docs/CONSOLE.md): all zero, and with a row set from its digits.
#![tactic(auto)]

ghost use Rattle.std.specs.Prelude.{◌≡◌, ◌≤◌};
ghost use Rattle.row_types.specs.Lists.{padded};
ghost use Rattle.console_octets.specs.Octets.{octets_of};
ghost use Rattle.console_tables.specs.RowLines.{slot_of, register_of, empty_tables, with_slot, with_register};

use row_types::{RegisterRow, SlotRow, Tables};

// What fits of the octets of the digits, with zeros after them.
fn octets<const N: usize>(digits: &[u8]) -> [u8; N]
    requires { N ≤ 256 }
    ensures { result ≡ padded N (octets_of digits.now) }
{
    let mut space = [0; N];
    console_octets::put_octets(&mut space, byte_strings::front(digits, 2 * N));
    space
}

// The slot row of a state and three words of digits.
#[tactic(auto, unfolding(crate::specs::RowLines::slot_of))]
pub fn slot_of(state: u8, digits: &[u8]) -> SlotRow
    ensures { result ≡ slot_of state digits.now }
{
    let after = console_words::rest(digits);
    SlotRow {
        state,
        kmcid: octets(console_words::word(digits)),
        fingerprint: octets(console_words::word(after)),
        tvp: octets(console_words::rest(after)),
    }
}

// The register row of a mark and a word of digits.
#[tactic(auto, unfolding(crate::specs::RowLines::register_of))]
pub fn register_of(mark: u8, digits: &[u8]) -> RegisterRow
    ensures { result ≡ register_of mark digits.now }
{
    RegisterRow {
        card: octets(digits),
        mark,
    }
}

// Tables of so many slot rows and register rows, all zero.
#[tactic(auto, unfolding(crate::specs::RowLines::empty_tables))]
pub fn empty_tables(slot_count: usize, register_count: usize) -> Tables
    ensures { result ≡ empty_tables slot_count register_count }
{
    Tables {
        slots: [slot_rows::free_slot(); 8],
        registers: [register_rows::free_register(); 32],
        slot_count,
        register_count,
    }
}

// The tables with another slot row at an index.
#[tactic(auto, using(crate::proofs::RowLaws::no_place), unfolding(crate::specs::RowLines::with_slot))]
pub fn set_slot(tables: Tables, index: usize, row: SlotRow) -> Tables
    ensures { result ≡ with_slot index row tables }
{
    let mut set = tables;
    if index < set.slots.len() {
        set.slots[index] = row;
    }
    set
}

// The tables with another register row at an index.
#[tactic(auto, using(crate::proofs::RowLaws::no_place), unfolding(crate::specs::RowLines::with_register))]
pub fn set_register(tables: Tables, index: usize, row: RegisterRow) -> Tables
    ensures { result ≡ with_register index row tables }
{
    let mut set = tables;
    if index < set.registers.len() {
        set.registers[index] = row;
    }
    set
}
