// The rows after a decision (document 01, "Slots and registers"; document 02, N3). The tables are changed in one place,
// and a row at a time but for the sweeps of GL?RS, SM?KF and SM?KX.
#![tactic(auto)]

ghost use Rattle.std.specs.Prelude.{◌≡◌, ◌≤◌, length};
ghost use Rattle.field_values.specs.Values.{values_of};
ghost use Rattle.card_stored.specs.Stored.{in_row};
ghost use Rattle.row_index.specs.Lent.{marked_rows};
ghost use Rattle.decide_parts.specs.Parts.{pending_row, card_of, StartParts, LoadParts};
ghost use Rattle.entry_changes.specs.Changes.{slots_after, registers_after};
ghost use Rattle.entry_changes.specs.Changes.{CanChangeSlots, CanChangeRegisters};

use decide_parts::{Decided, Parts};
use engine::Decision;
use row_types::{CLOSED, OPEN, SlotRow, SlotState, Supplement};

// The row that SM?KC makes: PENDING, with the record's KMCID and fingerprint and the clock as TVP.
fn pending_row(parts: Parts, clock: &[u8], payload: &[u8]) -> SlotRow
    requires { StartParts parts payload.now }
    ensures { result ≡ pending_row clock.now (values_of payload.now) }
{
    slot_rows::filled_slot(
        SlotState::Pending,
        byte_bounds::part(payload, parts.slot),
        byte_bounds::part(payload, parts.fingerprint),
        clock,
    )
}

// The slot rows after a decision on a request with a payload.
pub fn change_slots(
    decided: Decided,
    slots: [SlotRow; 8],
    slot_count: usize,
    supplement: Supplement,
    payload: &[u8],
) -> [SlotRow; 8]
    requires { CanChangeSlots decided.decision decided.parts slot_count payload.now }
    ensures { result
        ≡ slots_after decided.decision slot_count slots supplement (values_of payload.now) }
{
    let mut after = slots;
    let decision = decided.decision;
    match decision {
        Decision::Reset => slot_tables::reset_slots(slots, slot_count),
        Decision::Start(k) => {
            after[k] = pending_row(decided.parts, &supplement.clock, payload);
            after
        }
        Decision::Open(k) => {
            after[k] = slot_rows::moved_slot(SlotState::Loading, slots[k]);
            after
        }
        Decision::Close(k) => {
            after[k] = slot_rows::moved_slot(SlotState::Idle, slots[k]);
            after
        }
        Decision::DeleteSlot(k) => {
            after[k] = slot_rows::free_slot();
            after
        }
        Decision::Refuse(_)
        | Decision::Load(_)
        | Decision::DeleteKey(_)
        | Decision::GetCard(_)
        | Decision::ListSlots
        | Decision::QuerySlot(_) => after,
    }
}

// The card that SM?KL stores: of the card at its bounds, with the slot as KSL.
fn loaded_card(parts: Parts, supplement: Supplement, payload: &[u8]) -> [u8; 256]
    requires { LoadParts parts payload.now
        × (length (card_of supplement (values_of payload.now)) ≤ 256) }
    ensures { result ≡ in_row (card_of supplement (values_of payload.now)) }
{
    let values = parts.values;
    card_writer::write_stored(
        byte_bounds::part(payload, parts.card),
        values,
        &supplement.check,
        byte_bounds::part(payload, parts.slot),
    )
}

// Changes the cards of the register rows, the first register_count of them the caller's, by a decision on a request
// with a payload; owners are the numbers of the slots that own them. The marks after it.
pub fn change_registers(
    decided: Decided,
    cards: &mut [[u8; 256]],
    marks: [u8; 32],
    register_count: usize,
    owners: [usize; 32],
    supplement: Supplement,
    payload: &[u8],
) -> [u8; 32]
    requires { (length cards.old ≡ 32)
        × CanChangeRegisters decided.decision decided.parts register_count owners
        (marked_rows cards.old marks) supplement payload.now }
    ensures { marked_rows cards.new result
        ≡ registers_after decided.decision register_count (marked_rows cards.old marks) supplement
        (values_of payload.now) }
{
    let mut after = marks;
    let decision = decided.decision;
    match decision {
        Decision::Reset => register_tables::close_all(marks, register_count),
        Decision::Load(k) => {
            cards[k] = loaded_card(decided.parts, supplement, payload);
            after[k] = OPEN;
            after
        }
        Decision::Close(k) => register_tables::close_owned(marks, owners, register_count, k + 1),
        Decision::DeleteSlot(k) => {
            register_tables::free_owned(cards, owners, register_count, k + 1);
            register_tables::close_owned(marks, owners, register_count, k + 1)
        }
        Decision::DeleteKey(k) => {
            cards[k] = [0; 256];
            after[k] = CLOSED;
            after
        }
        Decision::Refuse(_)
        | Decision::Start(_)
        | Decision::Open(_)
        | Decision::GetCard(_)
        | Decision::ListSlots
        | Decision::QuerySlot(_) => after,
    }
}
