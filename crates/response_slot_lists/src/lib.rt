// The fields of SM?GL's response (001 clause 6.3.1): the identifiers of the slots that are not free, in ascending byte
// sequence (document 02, N1).
#![tactic(auto)]

ghost use Rattle.std.specs.Prelude.{◌+◌, ◌≤◌, length, take};
ghost use Rattle.byte_strings.specs.Wrote.{Writes};
ghost use Rattle.field_values.specs.Values.{payload_bytes};
ghost use Rattle.row_types.specs.RowReplies.{slot_names, name_fields};

use row_types::SlotRow;

// Writes the identifiers of those of the first slot_count rows that are not free, and answers the place after them.
pub fn put_names(dst: &mut [u8], at: usize, slots: [SlotRow; 8], slot_count: usize) -> usize
    requires { (slot_count ≤ 8) × (at + 336 ≤ length dst.old) }
    ensures writes { Writes dst at
        (payload_bytes (name_fields (slot_names (take slot_count slots)))) result }
    ensures short { result ≤ at + 336 }
{
    let sequence = slot_order::sequence_of(slots, slot_count);
    let mut end = at;
    for place in &sequence.places[sequence.first..] {
        end = response_slot_fields::put_kmcid(dst, end, slots[*place]);
    }
    end
}
