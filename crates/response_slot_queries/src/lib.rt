// The fields of SM?KQ's response (001 clause 6.3.2): what a slot holds, and the numbers of the registers that hold its
// keys. Never a card.
#![tactic(auto)]

ghost use Rattle.std.specs.Prelude.{[], ◌∷◌, ◌++◌, ◌+◌, ◌≤◌, length, take};
ghost use Rattle.byte_strings.specs.Wrote.{Writes};
ghost use Rattle.field_values.specs.Values.{payload_bytes};
ghost use Rattle.row_types.specs.Lists.{numbers_from};
ghost use Rattle.row_types.specs.RowReplies.{slot_fields, number_fields};
ghost use Rattle.row_index.specs.Found.{is_the};

use row_types::SlotRow;

// Writes a register's number where its owner is the slot, else nothing, and answers the place after it.
fn put_register(dst: &mut [u8], at: usize, number: u32, owner: usize, slot: usize) -> usize
    requires { at + 12 ≤ length dst.old }
    ensures writes { Writes dst at
        (payload_bytes (number_fields (numbers_from (is_the slot) number (owner ∷ [])))) result }
    ensures short { result ≤ at + 12 }
{
    if owner == slot {
        return field_writer::put_number(dst, at, number);
    }
    at
}

// Writes the numbers, from 1, of the registers among the first register_count whose owner is the slot. Answers the
// place after them.
fn put_registers(
    dst: &mut [u8],
    at: usize,
    owners: [usize; 32],
    register_count: usize,
    slot: usize,
) -> usize
    requires { (register_count ≤ 32) × (at + 384 ≤ length dst.old) }
    ensures writes { Writes dst at
        (payload_bytes (number_fields (numbers_from (is_the slot) 1 (take register_count owners)))) result }
    ensures short { result ≤ at + 384 }
{
    let mut end = at;
    let mut i = 0;
    while i < register_count {
        end = put_register(dst, end, (i + 1) as u32, owners[i], slot);
        i += 1;
    }
    end
}

// Writes what is told of a slot, and the numbers of its registers: the owners know the slot by its number. Answers the
// place after them.
pub fn put_query(
    dst: &mut [u8],
    at: usize,
    row: SlotRow,
    owners: [usize; 32],
    register_count: usize,
    slot: usize,
) -> usize
    requires { (register_count ≤ 32) × (at + 507 ≤ length dst.old) }
    ensures writes { Writes dst at
        (payload_bytes
        (slot_fields row ++ number_fields (numbers_from (is_the slot) 1 (take register_count owners)))) result }
    ensures short { result ≤ at + 507 }
{
    let end = response_slots::put_slot(dst, at, row);
    put_registers(dst, end, owners, register_count, slot)
}
