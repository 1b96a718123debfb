// The table of the refusals, and the number of each outcome (document 01, "Questions in order").
#![tactic(auto)]

ghost use Rattle.std.specs.Prelude.{◌≡◌};
ghost use Rattle.engine.specs.Refusals.{refusal};
ghost use Rattle.engine.specs.Outcomes.{outcome_number};
ghost use Rattle.response_numbers.specs.RefusalForms.{refusal_in};

use engine::{Outcome, Refusal};

// How a refusal is replied: not at all; by a status of two characters; or as an extended error, by its own number or by
// a digit of 003 clause 13.
#[derive(Clone, Copy)]
pub enum ReplyForm {
    Nothing,
    Status([u8; 2]),
    Numbered,
    Module(u8),
}

// A refusal's number, and how it is replied.
#[derive(Clone, Copy)]
pub struct Entry(pub u8, pub ReplyForm);

// The table of the refusals.
pub fn entry_of(reason: Refusal) -> Entry
    ensures { refusal_in result ≡ refusal reason }
{
    match reason {
        Refusal::RowCounts => Entry(1, ReplyForm::Nothing),
        Refusal::ShortBuffer => Entry(2, ReplyForm::Nothing),
        Refusal::UnsoundRows => Entry(3, ReplyForm::Nothing),
        Refusal::BadSupplement => Entry(4, ReplyForm::Nothing),
        Refusal::BadFrame => Entry(5, ReplyForm::Numbered),
        Refusal::BadChecksum => Entry(6, ReplyForm::Status(*b"20")),
        Refusal::UnknownHeader => Entry(7, ReplyForm::Status(*b"21")),
        Refusal::BadFields => Entry(8, ReplyForm::Numbered),
        Refusal::BadRecord => Entry(9, ReplyForm::Numbered),
        Refusal::BadForm => Entry(10, ReplyForm::Numbered),
        Refusal::Expired => Entry(11, ReplyForm::Numbered),
        Refusal::UnknownSlot => Entry(12, ReplyForm::Status(*b"27")),
        Refusal::NoFreeSlot => Entry(13, ReplyForm::Numbered),
        Refusal::WrongState => Entry(14, ReplyForm::Numbered),
        Refusal::OtherModule => Entry(15, ReplyForm::Module(b'6')),
        Refusal::OtherFingerprint => Entry(16, ReplyForm::Module(b'7')),
        Refusal::OtherTvp => Entry(17, ReplyForm::Module(b'8')),
        Refusal::OtherTag => Entry(18, ReplyForm::Module(b'9')),
        Refusal::CheckFailed => Entry(19, ReplyForm::Numbered),
        Refusal::NoFreeRegister => Entry(20, ReplyForm::Status(*b"28")),
        Refusal::EmptyRegister => Entry(21, ReplyForm::Status(*b"22")),
    }
}

// The number of a refusal.
pub fn refusal_number(reason: Refusal) -> u8
    ensures { result ≡ (refusal reason).number }
{
    entry_of(reason).0
}

// The number of an outcome: 0 where the request is accepted.
pub fn outcome_number(outcome: Outcome) -> u8
    ensures { result ≡ outcome_number outcome }
{
    match outcome {
        Outcome::Accepted(_) | Outcome::Done => 0,
        Outcome::Refused(reason) => refusal_number(reason),
    }
}
