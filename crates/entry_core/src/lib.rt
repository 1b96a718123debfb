// The engine over slot rows and marks by value and lent cards: a request, the rows, a response buffer and a supplement
// give an accepted answer or a refusal (document 01). Question 3 reads each card once, and what it finds serves the
// decision, the response and the change of the rows.
#![tactic(auto)]

ghost use Rattle.std.specs.Prelude.{◌≡◌, true, length, take};
ghost use Rattle.row_index.specs.Lent.{marked_rows, tables_with_marks};
ghost use Rattle.engine.specs.Questions.{are_counts};
ghost use Rattle.engine.specs.Calls.{IsAnswered};
ghost use Rattle.decide_requests.specs.Found.{IsFound};
ghost use Rattle.entry_core.specs.Owners.{AreOwners};

use engine::Outcome;
use register_keys::Findings;
use row_types::{Counts, SlotRow, Supplement};

// What question 3 answers, and finds where the counts are in range.
fn find(slots: [SlotRow; 8], counts: Counts, cards: &[[u8; 256]], marks: [u8; 32]) -> Findings
    requires { length cards.now ≡ 32 }
    ensures found { are_counts counts.slots counts.registers ≡ true
        → IsFound result.sound result.keys (take counts.slots slots)
        (take counts.registers (marked_rows cards.now marks)) counts.registers }
    ensures owners { are_counts counts.slots counts.registers ≡ true
        → AreOwners result.owners (take counts.slots slots)
        (take counts.registers (marked_rows cards.now marks)) counts.registers }
{
    let register_count = counts.registers;
    if !decide_counts::are_counts(counts.slots, register_count) {
        return row_soundness::unsound();
    }
    row_soundness::find(slots, counts.slots, &cards[..register_count], marks)
}

// How a request ended, how long its response is, and the slot rows and the marks after it.
#[derive(Clone, Copy)]
pub struct Handled {
    pub outcome: Outcome,
    pub length: usize,
    pub slots: [SlotRow; 8],
    pub marks: [u8; 32],
}

// Handles a request over slot rows, marks and lent cards, which are changed in place. The first of them are the
// caller's, as many as the counts say.
pub fn handle_cards(
    slots: [SlotRow; 8],
    counts: Counts,
    cards: &mut [[u8; 256]],
    marks: [u8; 32],
    supplement: Supplement,
    request: &[u8],
    response: &mut [u8],
) -> Handled
    requires { length cards.old ≡ 32 }
    ensures { IsAnswered
        (tables_with_marks slots counts.slots cards.old marks counts.registers)
        supplement request response result.outcome result.length
        (tables_with_marks result.slots counts.slots cards.new result.marks counts.registers) }
{
    let f = find(slots, counts, cards, marks);
    let owners = f.owners;
    let d = decide_requests::decide(slots, counts, f, supplement, request, response.len());
    let decision = d.decision;
    let outcome = response_requests::outcome(decision);
    let p = message_frames::payload(request);
    let slots_after = entry_changes::change_slots(d, slots, counts.slots, supplement, p);
    let marks_after = entry_changes::change_registers(
        d,
        cards,
        marks,
        counts.registers,
        owners,
        supplement,
        p,
    );
    let length = response_requests::respond(
        d, slots, counts, cards, owners, supplement, request, response,
    );
    Handled {
        outcome,
        length,
        slots: slots_after,
        marks: marks_after,
    }
}
