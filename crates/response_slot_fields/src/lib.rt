// What is told of one slot, as PTVD fields (001 clauses 6.3.1 and 6.3.2): its identifier, its state, and TVP and
// fingerprint of a key.
#![tactic(auto)]

ghost use Rattle.std.specs.Prelude.{[], ◌∷◌, ◌+◌, ◌≤◌, length};
ghost use Rattle.byte_strings.specs.Wrote.{Writes};
ghost use Rattle.field_values.specs.Values.{string, octets, field_bytes, payload_bytes};
ghost use Rattle.row_types.specs.Slots.{kmcid_of};
ghost use Rattle.row_types.specs.RowReplies.{state_text};

use row_types::{SlotRow, SlotState};

// Writes the identifier of a slot, and answers the place after it.
pub fn put_kmcid(dst: &mut [u8], at: usize, row: SlotRow) -> usize
    requires { at + 42 ≤ length dst.old }
    ensures writes { Writes dst at (field_bytes (string (kmcid_of row))) result }
    ensures short { result ≤ at + 42 }
{
    field_writer::put_string(dst, at, slot_tests::trimmed(&row.kmcid))
}

// Writes the state, and answers the place after it. An IDLE slot is ACTIVE in the words of 001.
pub fn put_state(dst: &mut [u8], at: usize, row: SlotRow) -> usize
    requires { at + 9 ≤ length dst.old }
    ensures writes { Writes dst at (field_bytes (string (state_text row))) result }
    ensures short { result ≤ at + 9 }
{
    if slot_tests::has_state(row, SlotState::Pending) {
        field_writer::put_string(dst, at, b"PENDING")
    } else if slot_tests::has_state(row, SlotState::Loading) {
        field_writer::put_string(dst, at, b"LOADING")
    } else {
        field_writer::put_string(dst, at, b"ACTIVE")
    }
}

// Writes TVP and fingerprint, and answers the place after them. What a slot does not hold is empty.
pub fn put_key(dst: &mut [u8], at: usize, tvp: &[u8], fingerprint: &[u8]) -> usize
    requires { (length tvp.now ≤ 16) × (length fingerprint.now ≤ 16) × (at + 36 ≤ length dst.old) }
    ensures writes { Writes dst at (payload_bytes (string tvp.now ∷ octets fingerprint.now ∷ [])) result }
    ensures short { result ≤ at + 36 }
{
    let end = field_writer::put_string(dst, at, tvp);
    field_writer::put_octets(dst, end, fingerprint)
}
