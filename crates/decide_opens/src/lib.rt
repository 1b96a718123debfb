// SM?KR, which opens a session (document 01, "Questions in order", 8 and on): its questions in turn, and the first no
// decides.
#![tactic(auto)]

ghost use Rattle.std.specs.Prelude.{◌≡◌, ◌-◌, ◌≤◌, take};
ghost use Rattle.byte_bounds.specs.Bounds.{inside};
ghost use Rattle.field_values.specs.Values.{values_of};
ghost use Rattle.message_commands.specs.declared.Command.TheVariants.{KR};
ghost use Rattle.record_types.specs.KeyRecords.{IsResponse};
ghost use Rattle.engine.specs.Questions.{Call, first_no};
ghost use Rattle.engine.specs.Decisions.{decided, decision_for};
ghost use Rattle.engine.specs.declared.Decision.TheVariants.{Open};
ghost use Rattle.decide_payloads.specs.Payloads.{OnlyText};
ghost use Rattle.decide_parts.specs.Parts.{IsDecided};
ghost use Rattle.decide_questions.specs.CommandQuestions.{response_questions};

use byte_bounds::Bounds;
use card_entries::Found;
use decide_parts::Decided;
use engine::{Decision, Refusal};
use record_types::LoadResponse;
use row_types::{Place, SlotRow, SlotState, Supplement};

// SM?KR: question 15, of the slot in row k.
fn decide_response(
    k: usize,
    row: SlotRow,
    supplement: Supplement,
    r: &[u8],
    answer: LoadResponse,
) -> Decision
    requires { IsResponse answer.fields answer.kmc answer.module r.now }
    ensures { result ≡ decided (first_no (response_questions supplement r.now row)) (Open k) }
{
    if !decide_records::is_own_module(r, answer, supplement) {
        return Decision::Refuse(Refusal::OtherModule);
    }
    if !decide_records::has_fingerprint(r, answer, row) {
        return Decision::Refuse(Refusal::OtherFingerprint);
    }
    if !decide_records::has_tvp(r, answer, row) {
        return Decision::Refuse(Refusal::OtherTvp);
    }
    if !decide_records::has_tag(r, answer, supplement) {
        return Decision::Refuse(Refusal::OtherTag);
    }
    Decision::Open(k)
}

// SM?KR, once its field is right: the load response's record stands within the bounds.
fn decide_load_response(
    slots: [SlotRow; 8],
    slot_count: usize,
    supplement: Supplement,
    payload: &[u8],
    at: Bounds,
) -> Decided
    requires { (slot_count ≤ 8) × OnlyText payload.now at }
    ensures { (c : Call) → c.slots ≡ take slot_count slots → c.supplement ≡ supplement
        → IsDecided result (decision_for c KR (values_of payload.now)) payload.now }
{
    let start = at.start;
    let end = at.end;
    let r = &payload[start..end];
    let answer = record_types::read_response(r);
    if !answer.parsed {
        return decide_parts::refuse(Refusal::BadRecord);
    }
    if !record_forms::is_response_in_form(r, answer) {
        return decide_parts::refuse(Refusal::BadForm);
    }
    let fields = answer.fields;
    let kmc = answer.kmc;
    let kmcid = decide_records::kmcid_bounds(r, fields, kmc);
    let place = decide_records::known_place(slots, slot_count, r, kmcid);
    let Place::At(k) = place else {
        return decide_parts::refuse(Refusal::UnknownSlot);
    };
    let row = slots[k];
    if !slot_tests::has_state(row, SlotState::Pending) {
        return decide_parts::refuse(Refusal::WrongState);
    }
    let decision = decide_response(k, row, supplement, r, answer);
    let parts = decide_parts::open_parts(byte_bounds::inside(at, kmcid));
    Decided { decision, parts }
}

// SM?KR.
pub fn decide_open(
    slots: [SlotRow; 8],
    slot_count: usize,
    supplement: Supplement,
    payload: &[u8],
) -> Decided
    requires { slot_count ≤ 8 }
    ensures { (c : Call) → c.slots ≡ take slot_count slots → c.supplement ≡ supplement
        → IsDecided result (decision_for c KR (values_of payload.now)) payload.now }
{
    let f = decide_payloads::one_text(payload);
    let Found::At { start, end } = f else {
        return decide_parts::refuse(Refusal::BadFields);
    };
    decide_load_response(
        slots,
        slot_count,
        supplement,
        payload,
        Bounds { start, end },
    )
}
