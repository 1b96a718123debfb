// The outcome and the response of a decision (document 01, "Questions in order"; 001 clause 5.3).
#![tactic(auto)]

ghost use Rattle.std.specs.Prelude.{◌≡◌, ◌+◌, ◌≤◌, length};
ghost use Rattle.byte_strings.specs.Wrote.{Writes};
ghost use Rattle.field_values.specs.Values.{payload_bytes};
ghost use Rattle.row_index.specs.Lent.{tables_with_cards};
ghost use Rattle.response_requests.specs.Responding.{outcome_for, fields_for, response_for, CanRespond};

use decide_parts::Decided;
use engine::{Decision, Outcome};
use row_types::{Counts, SlotRow, SlotState, Supplement};

// The outcome of a decision.
pub fn outcome(decision: Decision) -> Outcome
    ensures { result ≡ outcome_for decision }
{
    match decision {
        Decision::Refuse(r) => Outcome::Refused(r),
        Decision::Start(_) => Outcome::Accepted(SlotState::Pending),
        Decision::Open(_) => Outcome::Accepted(SlotState::Loading),
        Decision::Load(_) => Outcome::Accepted(SlotState::Loading),
        Decision::Close(_) => Outcome::Accepted(SlotState::Idle),
        Decision::DeleteSlot(_) => Outcome::Accepted(SlotState::Free),
        Decision::Reset
        | Decision::DeleteKey(_)
        | Decision::GetCard(_)
        | Decision::ListSlots
        | Decision::QuerySlot(_) => Outcome::Done,
    }
}

// Writes the fields of the response to an accepted request, and answers the place after them.
fn put_fields(
    decided: Decided,
    slots: [SlotRow; 8],
    counts: Counts,
    cards: &[[u8; 256]],
    owners: [usize; 32],
    supplement: Supplement,
    request: &[u8],
    response: &mut [u8],
    at: usize,
) -> usize
    requires { (length cards.now ≡ 32)
        × CanRespond decided.decision decided.parts
        (tables_with_cards slots counts.slots cards.now counts.registers)
        owners supplement request.now (length response.old)
        × (at + 744 ≤ length response.old) }
    ensures writes { Writes response at
        (payload_bytes (fields_for decided.decision
        (tables_with_cards slots counts.slots cards.now counts.registers)
        supplement request.now)) result }
    ensures short { result ≤ at + 744 }
{
    let decision = decided.decision;
    match decision {
        Decision::Start(_) => {
            let kmcid = byte_bounds::part(message_frames::payload(request), decided.parts.slot);
            response_fields::put_started(response, at, kmcid, supplement)
        }
        Decision::Open(_) => {
            let kmcid = byte_bounds::part(message_frames::payload(request), decided.parts.slot);
            field_writer::put_string(response, at, kmcid)
        }
        Decision::Load(k) => response_fields::put_loaded(response, at, k, &cards[k]),
        Decision::GetCard(k) => response_fields::put_card(response, at, &cards[k]),
        Decision::ListSlots => response_slot_lists::put_names(response, at, slots, counts.slots),
        Decision::QuerySlot(k) => {
            response_slot_queries::put_query(
                response,
                at,
                slots[k],
                owners,
                counts.registers,
                k + 1,
            )
        }
        Decision::Refuse(_)
        | Decision::Reset
        | Decision::Close(_)
        | Decision::DeleteSlot(_)
        | Decision::DeleteKey(_) => at,
    }
}

// Writes the response of what was decided, and answers its length: over the slot rows before the change and the cards
// after it, with the number of each register's owner.
pub fn respond(
    decided: Decided,
    slots: [SlotRow; 8],
    counts: Counts,
    cards: &[[u8; 256]],
    owners: [usize; 32],
    supplement: Supplement,
    request: &[u8],
    response: &mut [u8],
) -> usize
    requires { (length cards.now ≡ 32)
        × CanRespond decided.decision decided.parts
        (tables_with_cards slots counts.slots cards.now counts.registers)
        owners supplement request.now (length response.old) }
    ensures writes { Writes response 0
        (response_for decided.decision
        (tables_with_cards slots counts.slots cards.now counts.registers)
        supplement request.now) result }
    ensures fits { result ≤ length response.old }
{
    let decision = decided.decision;
    if let Decision::Refuse(reason) = decision {
        return response_refusals::refuse(response, request, reason);
    }
    let start = message_writer::put_head(response, message_frames::header(request), b"00");
    let end = put_fields(
        decided, slots, counts, cards, owners, supplement, request, response, start,
    );
    message_writer::close_message(response, end)
}
