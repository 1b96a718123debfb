// SM?KC, which starts a session (document 01, "Questions in order", 8 and on): its questions in turn, and the first no
// decides.
#![tactic(auto)]

ghost use Rattle.std.specs.Prelude.{◌≡◌, ◌-◌, ◌≤◌, take};
ghost use Rattle.byte_bounds.specs.Bounds.{FitIn, inside};
ghost use Rattle.field_values.specs.Values.{values_of};
ghost use Rattle.message_commands.specs.declared.Command.TheVariants.{KC};
ghost use Rattle.engine.specs.Questions.{Call};
ghost use Rattle.engine.specs.Decisions.{decision_for};
ghost use Rattle.engine.specs.declared.Decision.TheVariants.{Start};
ghost use Rattle.decide_payloads.specs.Payloads.{OnlyText};
ghost use Rattle.decide_parts.specs.Parts.{IsDecided};

use byte_bounds::Bounds;
use card_entries::Found;
use decide_parts::Decided;
use engine::{Decision, Refusal};
use row_types::{Place, SlotRow, Supplement};

// SM?KC granted, of the record within bounds: KMCID and fingerprint have theirs in the record.
fn grant_start(k: usize, at: Bounds, kmcid: Bounds, fingerprint: Bounds) -> Decided
    requires { (at.start ≤ at.end)
        × (FitIn (at.end - at.start) kmcid × FitIn (at.end - at.start) fingerprint) }
    ensures decision_value { result.decision ≡ Start k }
    ensures slot { result.parts.slot ≡ inside at kmcid }
    ensures fingerprint { result.parts.fingerprint ≡ inside at fingerprint }
{
    let slot = byte_bounds::inside(at, kmcid);
    let parts = decide_parts::start_parts(slot, byte_bounds::inside(at, fingerprint));
    Decided {
        decision: Decision::Start(k),
        parts,
    }
}

// SM?KC, once its field is right: the public key's record stands within the bounds.
fn decide_public_key(
    slots: [SlotRow; 8],
    slot_count: usize,
    supplement: Supplement,
    payload: &[u8],
    at: Bounds,
) -> Decided
    requires { (slot_count ≤ 8) × OnlyText payload.now at }
    ensures { (c : Call) → c.slots ≡ take slot_count slots → c.supplement ≡ supplement
        → IsDecided result (decision_for c KC (values_of payload.now)) payload.now }
{
    let start = at.start;
    let end = at.end;
    let r = &payload[start..end];
    let key = record_types::read_public_key(r);
    if !key.parsed {
        return decide_parts::refuse(Refusal::BadRecord);
    }
    if !record_forms::is_public_key_in_form(r, key) {
        return decide_parts::refuse(Refusal::BadForm);
    }
    if !decide_records::is_not_expired(r, key, &supplement.clock) {
        return decide_parts::refuse(Refusal::Expired);
    }
    let fields = key.fields;
    let kmc = key.kmc;
    let kmcid = decide_records::kmcid_bounds(r, fields, kmc);
    let place = decide_records::session_place(slots, slot_count, r, kmcid);
    let Place::At(k) = place else {
        return decide_parts::refuse(Refusal::NoFreeSlot);
    };
    if !decide_records::has_passed(supplement) {
        return decide_parts::refuse(Refusal::CheckFailed);
    }
    let fingerprint = decide_records::fingerprint_bounds(r, fields, kmc);
    grant_start(k, at, kmcid, fingerprint)
}

// SM?KC.
pub fn decide_start(
    slots: [SlotRow; 8],
    slot_count: usize,
    supplement: Supplement,
    payload: &[u8],
) -> Decided
    requires { slot_count ≤ 8 }
    ensures { (c : Call) → c.slots ≡ take slot_count slots → c.supplement ≡ supplement
        → IsDecided result (decision_for c KC (values_of payload.now)) payload.now }
{
    let f = decide_payloads::one_text(payload);
    let Found::At { start, end } = f else {
        return decide_parts::refuse(Refusal::BadFields);
    };
    decide_public_key(
        slots,
        slot_count,
        supplement,
        payload,
        Bounds { start, end },
    )
}
