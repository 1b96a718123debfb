// The two answers in numbers, for the library's entry points and the console: what the core answers of a request, and
// which key may vend; over lent cards and marks, the first over register rows by value too.
#![tactic(auto)]

ghost use Rattle.std.specs.Prelude.{◌≡◌, length};
ghost use Rattle.row_index.specs.Lent.{tables_with, tables_with_marks};
ghost use Rattle.engine.specs.Calls.{answer_over};
ghost use Rattle.engine.specs.Usable.{is_usable};
ghost use Rattle.entry_contracts.specs.Numbers.{state_byte, yes_byte};
ghost use Rattle.entry_contracts.specs.Replies.{Replies};

use engine::Outcome;
use entry_contracts::Reply;
use row_types::{Counts, RegisterRow, SlotRow, Supplement};

// A reply, and the slot rows and the marks after it.
#[derive(Clone, Copy)]
pub struct Answered {
    pub reply: Reply,
    pub slots: [SlotRow; 8],
    pub marks: [u8; 32],
}

// A reply, and the rows after it.
#[derive(Clone, Copy)]
pub struct AnsweredRows {
    pub reply: Reply,
    pub slots: [SlotRow; 8],
    pub registers: [RegisterRow; 32],
}

fn state_byte(outcome: Outcome) -> u8
    ensures { result ≡ state_byte outcome }
{
    match outcome {
        Outcome::Accepted(a) => slot_tests::state_number(a),
        Outcome::Done => 255,
        Outcome::Refused(_) => 255,
    }
}

// Handles a request over slot rows, marks and lent cards, which are changed in place: places for 8 and 32 rows, of
// which the first are the caller's, as many as the counts say. Every input is answered.
pub fn answer(
    slots: [SlotRow; 8],
    counts: Counts,
    cards: &mut [[u8; 256]],
    marks: [u8; 32],
    supplement: Supplement,
    request: &[u8],
    response: &mut [u8],
) -> Answered
    requires { length cards.old ≡ 32 }
    ensures { Replies (tables_with_marks slots counts.slots cards.old marks counts.registers)
        (answer_over (tables_with_marks slots counts.slots cards.old marks counts.registers)
        supplement request response)
        response.old response.new result.reply
        (tables_with_marks result.slots counts.slots cards.new result.marks counts.registers) }
{
    let a = entry_core::handle_cards(slots, counts, cards, marks, supplement, request, response);
    let o = a.outcome;
    let reply = Reply {
        outcome: response_numbers::outcome_number(o),
        state: state_byte(o),
        length: a.length,
    };
    let after = a.slots;
    let marks_left = a.marks;
    Answered {
        reply,
        slots: after,
        marks: marks_left,
    }
}

// The same over register rows by value, whose cards are lent from here.
pub fn answer_rows(
    slots: [SlotRow; 8],
    registers: [RegisterRow; 32],
    counts: Counts,
    supplement: Supplement,
    request: &[u8],
    response: &mut [u8],
) -> AnsweredRows
    ensures { Replies (tables_with slots counts.slots registers counts.registers)
        (answer_over (tables_with slots counts.slots registers counts.registers) supplement request response)
        response.old response.new result.reply
        (tables_with result.slots counts.slots result.registers counts.registers) }
{
    let mut cards = register_tables::cards_of(registers);
    let marks = register_tables::marks_of(registers);
    let a = answer(
        slots, counts, &mut cards, marks, supplement, request, response,
    );
    let reply = a.reply;
    let slots_after = a.slots;
    let marks_after = a.marks;
    let registers_after = register_tables::rows_of(cards, marks_after);
    AnsweredRows {
        reply,
        slots: slots_after,
        registers: registers_after,
    }
}

// Whether the key in a register may vend, over slot rows, lent cards and marks.
pub fn usable(
    slots: [SlotRow; 8],
    counts: Counts,
    cards: &[[u8; 256]],
    marks: [u8; 32],
    register: usize,
) -> u8
    requires { length cards.now ≡ 32 }
    ensures { result ≡ yes_byte
        (is_usable (tables_with_marks slots counts.slots cards.now marks counts.registers) register) }
{
    if entry_usable::is_usable(slots, counts, cards, marks, register) {
        return 1;
    }
    0
}
