// What is to be done with a request (document 01, "Questions in order"): questions 1 to 7 are asked in turn, and then
// those of its command.
#![tactic(auto)]

ghost use Rattle.std.specs.Prelude.{◌≡◌, true, List, take};
ghost use Rattle.row_types.specs.declared.RegisterRow.{RegisterRow};
ghost use Rattle.row_index.specs.Lent.{tables_with};
ghost use Rattle.engine.specs.Requests.{is_one_of_ten};
ghost use Rattle.engine.specs.Questions.{are_counts};
ghost use Rattle.engine.specs.Calls.{call_in};
ghost use Rattle.engine.specs.Decisions.{decision_of};
ghost use Rattle.message_frames.specs.Frames.{payload_of};
ghost use Rattle.decide_parts.specs.Parts.{IsDecided};
ghost use Rattle.decide_requests.specs.Found.{IsFound};

use decide_parts::Decided;
use engine::Refusal;
use message_commands::Command;
use register_keys::Findings;
use row_types::{Counts, SlotRow, Supplement};

// Question 7: whether the header is one of the ten.
fn is_one_of_ten(command: Command) -> bool
    ensures { result ≡ is_one_of_ten command }
{
    match command {
        Command::RS => true,
        Command::KC => true,
        Command::KR => true,
        Command::KL => true,
        Command::KF => true,
        Command::KX => true,
        Command::KD => true,
        Command::GA => true,
        Command::GL => true,
        Command::KQ => true,
        Command::Unknown => false,
    }
}

// What is to be done with a request; question 3 was answered before, with what it found of the registers.
pub fn decide(
    slots: [SlotRow; 8],
    counts: Counts,
    findings: Findings,
    supplement: Supplement,
    request: &[u8],
    room: usize,
) -> Decided
    ensures { (R : List RegisterRow)
        → (are_counts counts.slots counts.registers ≡ true
        → IsFound findings.sound findings.keys (take counts.slots slots)
        (take counts.registers R) counts.registers)
        → IsDecided result (decision_of (call_in
        (tables_with slots counts.slots R counts.registers) supplement request.now room))
        (payload_of request.now) }
{
    let first = decide_counts::first_refusal(counts.slots, counts.registers, room);
    if first == 1 {
        return decide_parts::refuse(Refusal::RowCounts);
    }
    if first == 2 {
        return decide_parts::refuse(Refusal::ShortBuffer);
    }
    if !findings.sound {
        return decide_parts::refuse(Refusal::UnsoundRows);
    }
    if !row_supplements::is_well_formed(supplement) {
        return decide_parts::refuse(Refusal::BadSupplement);
    }
    if !message_frames::is_whole(request) {
        return decide_parts::refuse(Refusal::BadFrame);
    }
    if !message_frames::is_checked(request) {
        return decide_parts::refuse(Refusal::BadChecksum);
    }
    let command = message_commands::command_of(message_frames::header(request));
    if !is_one_of_ten(command) {
        return decide_parts::refuse(Refusal::UnknownHeader);
    }
    let keys = findings.keys;
    decide_commands::decide_command(
        command,
        slots,
        counts,
        keys,
        supplement,
        message_frames::payload(request),
    )
}
