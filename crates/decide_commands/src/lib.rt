// What is to be done once the message is right (document 01, "Questions in order", 8 to 18): the questions of its
// command.
#![tactic(auto)]

ghost use Rattle.std.specs.Prelude.{◌≡◌, true, ◌≤◌, take};
ghost use Rattle.field_values.specs.Values.{values_of};
ghost use Rattle.row_index.specs.Found.{AreKeys};
ghost use Rattle.engine.specs.Requests.{is_one_of_ten};
ghost use Rattle.engine.specs.Questions.{Call};
ghost use Rattle.engine.specs.Decisions.{decision_for};
ghost use Rattle.decide_parts.specs.Parts.{IsDecided};

use decide_parts::{Decided, without_parts};
use engine::Refusal;
use message_commands::Command;
use row_types::{Counts, SlotRow, Supplement};

// By the command; the last arm is never reached.
pub fn decide_command(
    command: Command,
    slots: [SlotRow; 8],
    counts: Counts,
    keys: [u64; 32],
    supplement: Supplement,
    payload: &[u8],
) -> Decided
    requires { (counts.slots ≤ 8) × (counts.registers ≤ 32) × (is_one_of_ten command ≡ true) }
    ensures { (c : Call) → c.slots ≡ take counts.slots slots
        → AreKeys (take counts.registers keys) c.registers → c.supplement ≡ supplement
        → IsDecided result (decision_for c command (values_of payload.now)) payload.now }
{
    match command {
        Command::RS => without_parts(decide_slots::decide_reset(payload)),
        Command::KC => decide_starts::decide_start(slots, counts.slots, supplement, payload),
        Command::KR => decide_opens::decide_open(slots, counts.slots, supplement, payload),
        Command::KL => decide_loads::decide_load(slots, counts, keys, supplement, payload),
        Command::KF => without_parts(decide_slots::decide_close(slots, counts.slots, payload)),
        Command::KX => without_parts(decide_slots::decide_delete_slot(
            slots,
            counts.slots,
            payload,
        )),
        Command::KD => without_parts(decide_registers::decide_delete_key(
            keys,
            counts.registers,
            payload,
        )),
        Command::GA => without_parts(decide_registers::decide_get_card(
            keys,
            counts.registers,
            payload,
        )),
        Command::GL => without_parts(decide_slots::decide_list_slots(payload)),
        Command::KQ => without_parts(decide_slots::decide_query_slot(slots, counts.slots, payload)),
        Command::Unknown => decide_parts::refuse(Refusal::UnknownHeader),
    }
}
