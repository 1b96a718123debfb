// GL?RS, SM?GL, SM?KF, SM?KX and SM?KQ, the commands about slots that bring no record (document 01, "Questions in
// order", 8 and on): one function a command asks its questions in turn, and the first no decides.
#![tactic(auto)]

ghost use Rattle.std.specs.Prelude.{◌≡◌, ◌≤◌, take};
ghost use Rattle.field_values.specs.Values.{values_of};
ghost use Rattle.message_commands.specs.declared.Command.TheVariants.{RS, KF, KX, GL, KQ};
ghost use Rattle.engine.specs.Questions.{Call, first_no};
ghost use Rattle.engine.specs.Decisions.{decided, decision_for};
ghost use Rattle.decide_questions.specs.CommandQuestions.{plain_questions, slot_asked};

use card_entries::Found;
use decide_questions::Asked;
use engine::{Decision, Refusal};
use row_types::{Place, SlotRow};

// GL?RS and SM?GL: what is to be done, where there is no field.
fn decide_plain(payload: &[u8], done: Decision) -> Decision
    ensures { result ≡ decided (first_no (plain_questions (values_of payload.now))) done }
{
    if !decide_payloads::has_no_field(payload) {
        return Decision::Refuse(Refusal::BadFields);
    }
    done
}

// GL?RS.
pub fn decide_reset(payload: &[u8]) -> Decision
    ensures { (c : Call) → result ≡ decision_for c RS (values_of payload.now) }
{
    decide_plain(payload, Decision::Reset)
}

// SM?GL.
pub fn decide_list_slots(payload: &[u8]) -> Decision
    ensures { (c : Call) → result ≡ decision_for c GL (values_of payload.now) }
{
    decide_plain(payload, Decision::ListSlots)
}

// The slot that the only field names.
fn ask_slot(slots: [SlotRow; 8], slot_count: usize, payload: &[u8]) -> Asked
    requires { slot_count ≤ 8 }
    ensures { result ≡ slot_asked (take slot_count slots) (values_of payload.now) }
{
    let f = decide_payloads::one_text(payload);
    let Found::At { start, end } = f else {
        return Asked::No(Refusal::BadFields);
    };
    let place = slot_tables::slot_place(slots, slot_count, &payload[start..end]);
    let Place::At(k) = place else {
        return Asked::No(Refusal::UnknownSlot);
    };
    Asked::At(k)
}

// SM?KF: the slot has a session.
pub fn decide_close(slots: [SlotRow; 8], slot_count: usize, payload: &[u8]) -> Decision
    requires { slot_count ≤ 8 }
    ensures { (c : Call) → c.slots ≡ take slot_count slots
        → result ≡ decision_for c KF (values_of payload.now) }
{
    let asked = ask_slot(slots, slot_count, payload);
    match asked {
        Asked::No(r) => Decision::Refuse(r),
        Asked::At(k) => {
            let row = slots[k];
            if !decide_records::has_session(row) {
                return Decision::Refuse(Refusal::WrongState);
            }
            Decision::Close(k)
        }
    }
}

// SM?KX.
pub fn decide_delete_slot(slots: [SlotRow; 8], slot_count: usize, payload: &[u8]) -> Decision
    requires { slot_count ≤ 8 }
    ensures { (c : Call) → c.slots ≡ take slot_count slots
        → result ≡ decision_for c KX (values_of payload.now) }
{
    let asked = ask_slot(slots, slot_count, payload);
    match asked {
        Asked::No(r) => Decision::Refuse(r),
        Asked::At(k) => Decision::DeleteSlot(k),
    }
}

// SM?KQ.
pub fn decide_query_slot(slots: [SlotRow; 8], slot_count: usize, payload: &[u8]) -> Decision
    requires { slot_count ≤ 8 }
    ensures { (c : Call) → c.slots ≡ take slot_count slots
        → result ≡ decision_for c KQ (values_of payload.now) }
{
    let asked = ask_slot(slots, slot_count, payload);
    match asked {
        Asked::No(r) => Decision::Refuse(r),
        Asked::At(k) => Decision::QuerySlot(k),
    }
}
