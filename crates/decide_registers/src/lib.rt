// SM?KD and SM?GA, the commands about a register (document 01, "Questions in order", 8 and 18): one function a command
// asks its questions in turn, and the first no decides.
#![tactic(auto)]

ghost use Rattle.std.specs.Prelude.{◌≡◌, List, ◌≤◌, take};
ghost use Rattle.field_values.specs.Values.{values_of};
ghost use Rattle.message_commands.specs.declared.Command.TheVariants.{KD, GA};
ghost use Rattle.row_types.specs.declared.RegisterRow.{RegisterRow};
ghost use Rattle.row_index.specs.Found.{AreKeys};
ghost use Rattle.engine.specs.Questions.{Call};
ghost use Rattle.engine.specs.Decisions.{decision_for};
ghost use Rattle.decide_questions.specs.CommandQuestions.{register_asked};

use decide_payloads::Count;
use decide_questions::Asked;
use engine::{Decision, Refusal};

// The register that the only field numbers, counted from 1.
fn ask_register(keys: [u64; 32], register_count: usize, payload: &[u8]) -> Asked
    requires { register_count ≤ 32 }
    ensures { (R : List RegisterRow) → AreKeys (take register_count keys) R
        → result ≡ register_asked R (values_of payload.now) }
{
    let f = decide_payloads::one_number(payload);
    let Count::Is(v) = f else {
        return Asked::No(Refusal::BadFields);
    };
    let n = v as usize;
    if n < 1 {
        return Asked::No(Refusal::EmptyRegister);
    }
    if !decide_records::is_filled(keys, register_count, n) {
        return Asked::No(Refusal::EmptyRegister);
    }
    Asked::At(n - 1)
}

// SM?KD.
pub fn decide_delete_key(keys: [u64; 32], register_count: usize, payload: &[u8]) -> Decision
    requires { register_count ≤ 32 }
    ensures { (c : Call) → AreKeys (take register_count keys) c.registers
        → result ≡ decision_for c KD (values_of payload.now) }
{
    let asked = ask_register(keys, register_count, payload);
    match asked {
        Asked::No(r) => Decision::Refuse(r),
        Asked::At(k) => Decision::DeleteKey(k),
    }
}

// SM?GA.
pub fn decide_get_card(keys: [u64; 32], register_count: usize, payload: &[u8]) -> Decision
    requires { register_count ≤ 32 }
    ensures { (c : Call) → AreKeys (take register_count keys) c.registers
        → result ≡ decision_for c GA (values_of payload.now) }
{
    let asked = ask_register(keys, register_count, payload);
    match asked {
        Asked::No(r) => Decision::Refuse(r),
        Asked::At(k) => Decision::GetCard(k),
    }
}
