// One slot row made, and moved to another state (document 01, "Slots and registers").
#![tactic(auto)]

ghost use Rattle.std.specs.Prelude.{◌≡◌};
ghost use Rattle.row_types.specs.Lists.{padded};
ghost use Rattle.row_types.specs.Slots.{free_slot, filled_slot, moved_slot, reset_slot};

use row_types::{SlotRow, SlotState};

// A freed row.
#[tactic(auto, unfolding(row_types::specs::Slots::free_slot))]
pub fn free_slot() -> SlotRow
    ensures { result ≡ free_slot }
{
    SlotRow {
        state: 0,
        kmcid: [0; 40],
        fingerprint: [0; 16],
        tvp: [0; 16],
    }
}

// What fits of the bytes into N bytes, with zeros after it.
#[tactic(auto, using(crate::proofs::PadLaws::padded_front))]
pub fn in_space<const N: usize>(bytes: &[u8]) -> [u8; N]
    ensures { result ≡ padded N bytes.now }
{
    let count = bytes.len().min(N);
    let mut space = [0; N];
    space[..count].copy_from_slice(&bytes[..count]);
    space
}

// A row in a state, with a KMCID, a fingerprint and a TVP; what does not fit is left out.
#[tactic(auto, unfolding(row_types::specs::Slots::filled_slot))]
pub fn filled_slot(state: SlotState, kmcid: &[u8], fingerprint: &[u8], tvp: &[u8]) -> SlotRow
    ensures { result ≡ filled_slot state kmcid.now fingerprint.now tvp.now }
{
    SlotRow {
        state: slot_tests::state_number(state),
        kmcid: in_space(kmcid),
        fingerprint: in_space(fingerprint),
        tvp: in_space(tvp),
    }
}

// The row in another state, its TVP cleared (SM?KR, SM?KF, GL?RS).
pub fn moved_slot(state: SlotState, row: SlotRow) -> SlotRow
    ensures { result ≡ moved_slot state row }
{
    filled_slot(state, &row.kmcid, &row.fingerprint, b"")
}

// The row after GL?RS.
#[tactic(auto, unfolding(row_types::specs::Slots::reset_slot))]
pub fn reset_slot(row: SlotRow) -> SlotRow
    ensures { result ≡ reset_slot row }
{
    if slot_tests::has_state(row, SlotState::Pending)
        || slot_tests::has_state(row, SlotState::Loading)
    {
        moved_slot(SlotState::Idle, row)
    } else {
        row
    }
}
