// The six fields that SM?KQ tells of one slot (001 clause 6.3.2), in a row.
#![tactic(auto)]

ghost use Rattle.std.specs.Prelude.{◌+◌, ◌≤◌, length};
ghost use Rattle.byte_strings.specs.Wrote.{Writes};
ghost use Rattle.field_values.specs.Values.{payload_bytes};
ghost use Rattle.row_types.specs.RowReplies.{slot_fields};

use row_types::{SlotRow, SlotState};

// Writes state and KMCID, the KEK's TVP and fingerprint, and those that a response is awaited for. Answers the
// place after them.
pub fn put_slot(dst: &mut [u8], at: usize, row: SlotRow) -> usize
    requires { at + 123 ≤ length dst.old }
    ensures writes { Writes dst at (payload_bytes (slot_fields row)) result }
    ensures short { result ≤ at + 123 }
{
    let state = response_slot_fields::put_state(dst, at, row);
    let end = response_slot_fields::put_kmcid(dst, state, row);
    if slot_tests::has_state(row, SlotState::Pending) {
        let kek = response_slot_fields::put_key(dst, end, b"", b"");
        response_slot_fields::put_key(dst, kek, &row.tvp, &row.fingerprint)
    } else {
        let kek = response_slot_fields::put_key(dst, end, b"", &row.fingerprint);
        response_slot_fields::put_key(dst, kek, b"", b"")
    }
}
