// SM?KL, which loads a key (document 01, "Questions in order", 8 and on): its questions in turn, and the first no
// decides.
#![tactic(auto)]

ghost use Rattle.std.specs.Prelude.{◌≡◌, true, List, ◌≤◌, take};
ghost use Rattle.field_values.specs.Values.{values_of};
ghost use Rattle.message_commands.specs.declared.Command.TheVariants.{KL};
ghost use Rattle.card_incoming.specs.Incoming.{is_incoming, AreValues};
ghost use Rattle.row_types.specs.declared.RegisterRow.{RegisterRow};
ghost use Rattle.row_index.specs.Found.{AreKeys};
ghost use Rattle.engine.specs.Questions.{Call, first_no};
ghost use Rattle.engine.specs.Answers.{card_place};
ghost use Rattle.engine.specs.Decisions.{decided, decision_for};
ghost use Rattle.engine.specs.declared.Decision.TheVariants.{Load};
ghost use Rattle.decide_payloads.specs.Payloads.{BothTexts};
ghost use Rattle.decide_parts.specs.Parts.{IsDecided};
ghost use Rattle.decide_questions.specs.CommandQuestions.{store_questions};

use byte_bounds::Bounds;
use card_attributes::ROWS;
use decide_parts::Decided;
use decide_payloads::{Texts, TwoTexts};
use engine::{Decision, Refusal};
use row_types::{Counts, Place, SlotRow, SlotState, Supplement};

// SM?KL: questions 16 and 17, of its card, with the bounds of the card's values.
fn decide_store(
    keys: [u64; 32],
    register_count: usize,
    supplement: Supplement,
    card: &[u8],
    values: [Bounds; ROWS],
) -> Decision
    requires { (register_count ≤ 32) × ((is_incoming card.now ≡ true) × AreValues values card.now) }
    ensures { (R : List RegisterRow) → AreKeys (take register_count keys) R
        → result ≡ decided (first_no (store_questions R supplement card.now))
        (Load (card_place card.now R)) }
{
    if !decide_records::has_passed(supplement) {
        return Decision::Refuse(Refusal::CheckFailed);
    }
    let store = decide_records::store_place(keys, register_count, card, values);
    let Place::At(i) = store else {
        return Decision::Refuse(Refusal::NoFreeRegister);
    };
    Decision::Load(i)
}

// SM?KL, once its fields are right: the first is the slot, the second the record.
fn decide_key(
    slots: [SlotRow; 8],
    counts: Counts,
    keys: [u64; 32],
    supplement: Supplement,
    payload: &[u8],
    texts: Texts,
) -> Decided
    requires { (counts.slots ≤ 8) × ((counts.registers ≤ 32) × BothTexts payload.now texts) }
    ensures { (c : Call) → c.slots ≡ take counts.slots slots
        → AreKeys (take counts.registers keys) c.registers → c.supplement ≡ supplement
        → IsDecided result (decision_for c KL (values_of payload.now)) payload.now }
{
    let at = texts.second;
    let start = at.start;
    let end = at.end;
    let r = &payload[start..end];
    let key = record_types::read_key(r);
    if !key.parsed {
        return decide_parts::refuse(Refusal::BadRecord);
    }
    let fields = key.fields;
    let read = record_forms::read_key_card(r, fields);
    if !read.in_form {
        return decide_parts::refuse(Refusal::BadForm);
    }
    let slot = texts.first;
    let from = slot.start;
    let to = slot.end;
    let place = slot_tables::slot_place(slots, counts.slots, &payload[from..to]);
    let Place::At(k) = place else {
        return decide_parts::refuse(Refusal::UnknownSlot);
    };
    let row = slots[k];
    if !slot_tests::has_state(row, SlotState::Loading) {
        return decide_parts::refuse(Refusal::WrongState);
    }
    let values = read.values;
    let card = byte_bounds::part(r, fields[2]);
    let decision = decide_store(keys, counts.registers, supplement, card, values);
    let parts = decide_parts::load_parts(slot, byte_bounds::inside(at, fields[2]), values);
    Decided { decision, parts }
}

// SM?KL.
pub fn decide_load(
    slots: [SlotRow; 8],
    counts: Counts,
    keys: [u64; 32],
    supplement: Supplement,
    payload: &[u8],
) -> Decided
    requires { (counts.slots ≤ 8) × (counts.registers ≤ 32) }
    ensures { (c : Call) → c.slots ≡ take counts.slots slots
        → AreKeys (take counts.registers keys) c.registers → c.supplement ≡ supplement
        → IsDecided result (decision_for c KL (values_of payload.now)) payload.now }
{
    let f = decide_payloads::two_texts(payload);
    let TwoTexts::At(texts) = f else {
        return decide_parts::refuse(Refusal::BadFields);
    };
    decide_key(slots, counts, keys, supplement, payload, texts)
}
