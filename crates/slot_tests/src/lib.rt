// One slot row (document 01, "Slots and registers"): its state and its name.
#![tactic(auto)]

ghost use Rattle.std.specs.Prelude.{◌≡◌};
ghost use Rattle.row_types.specs.Lists.{trimmed};
ghost use Rattle.row_types.specs.Slots.{state_number, has_state, is_named};

use row_types::{SlotRow, SlotState};

// The number of a state in a row.
pub fn state_number(state: SlotState) -> u8
    ensures { result ≡ state_number state }
{
    state as u8
}

// Whether the row is in a state.
pub fn has_state(row: SlotRow, state: SlotState) -> bool
    ensures { result ≡ has_state state row }
{
    row.state == state_number(state)
}

// What stands before the first zero.
#[tactic(auto, unfolding(row_types::specs::Lists::trimmed))]
pub fn trimmed(bytes: &[u8]) -> &[u8]
    ensures { result.now ≡ trimmed bytes.now }
{
    &bytes[..byte_pieces::piece_end(bytes, 0, 0)]
}

// Whether the row is not free and keeps the KMCID.
#[tactic(auto, unfolding(row_types::specs::Slots::is_named))]
pub fn is_named(row: SlotRow, name: &[u8]) -> bool
    ensures { result ≡ is_named name.now row }
{
    !has_state(row, SlotState::Free) && byte_strings::same_bytes(trimmed(&row.kmcid), name)
}
