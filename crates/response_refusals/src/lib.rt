// Writes the response to each refusal (document 01, "Questions in order").
#![tactic(auto)]

ghost use Rattle.std.specs.Prelude.{◌≡◌, [], ◌∷◌, ◌+◌, ◌<◌, ◌≤◌, length};
ghost use Rattle.byte_strings.specs.Wrote.{Writes};
ghost use Rattle.field_values.specs.Values.{string, payload_bytes};
ghost use Rattle.message_frames.specs.Frames.{head_bytes};
ghost use Rattle.message_replies.specs.Responses.{response_bytes};
ghost use Rattle.engine.specs.Refusals.{refusal, km};
ghost use Rattle.engine.specs.Answers.{response_of, refusal_reply};
ghost use Rattle.response_numbers.specs.RefusalForms.{status_in, fields_in, sm};
ghost use Rattle.response_refusals.specs.RefusalForms.{CanRefuse};

use engine::Refusal;
use response_numbers::{Entry, ReplyForm};

// KM. and a number in two digits.
fn km_text(number: u8) -> [u8; 5]
    requires { number < 100 }
    ensures { string result ∷ [] ≡ km number }
{
    let tens = text_decimal_writer::take_away(number as u64, 10);
    [
        b'K',
        b'M',
        b'.',
        b'0' + tens.times,
        b'0' + (tens.rest as u8),
    ]
}

// SM.3B. and a digit's character.
fn sm_text(digit: u8) -> [u8; 7]
    ensures { string result ∷ [] ≡ sm digit }
{
    [b'S', b'M', b'.', b'3', b'B', b'.', digit]
}

// Writes a header and the status of a refusal, and answers the place after them.
fn put_status(dst: &mut [u8], header: &[u8], form: ReplyForm) -> usize
    requires { (3 ≤ length header.now) × (length header.now + 2 ≤ length dst.old) }
    ensures writes { Writes dst 0 (head_bytes header.now (status_in form)) result }
    ensures short { result ≤ length header.now + 2 }
{
    match form {
        ReplyForm::Nothing => message_writer::put_head(dst, header, b""),
        ReplyForm::Status(status) => message_writer::put_head(dst, header, &status),
        ReplyForm::Numbered | ReplyForm::Module(_) => message_writer::put_head(dst, header, b"EE"),
    }
}

// Writes the fields of a refusal with a number, and answers the place after them.
fn put_reason(dst: &mut [u8], at: usize, form: ReplyForm, number: u8) -> usize
    requires { (number < 100) × (at + 9 ≤ length dst.old) }
    ensures writes { Writes dst at (payload_bytes (fields_in form number)) result }
    ensures short { result ≤ at + 9 }
{
    match form {
        ReplyForm::Nothing | ReplyForm::Status(_) => at,
        ReplyForm::Numbered => field_writer::put_string(dst, at, &km_text(number)),
        ReplyForm::Module(digit) => field_writer::put_string(dst, at, &sm_text(digit)),
    }
}

// Writes the response to a refusal with a number under a header, and answers its length.
fn write_refusal(response: &mut [u8], header: &[u8], form: ReplyForm, number: u8) -> usize
    requires { (number < 100) × (3 ≤ length header.now)
        × (length header.now + 16 ≤ length response.old) }
    ensures writes { Writes response 0
        (response_bytes header.now (status_in form) (fields_in form number)) result }
    ensures fits { result ≤ length response.old }
{
    let start = put_status(response, header, form);
    let end = put_reason(response, start, form, number);
    message_writer::close_message(response, end)
}

// Writes the response to a refused request, and answers its length: nothing for refusals 1 to 4, and under GL!ER
// for 5 to 7.
pub fn refuse(response: &mut [u8], request: &[u8], reason: Refusal) -> usize
    requires { CanRefuse (refusal reason).header (length request.now) (length response.old) }
    ensures writes { Writes response 0
        (response_of (refusal_reply request.now reason)) result }
    ensures fits { result ≤ length response.old }
{
    let Entry(number, form) = response_numbers::entry_of(reason);
    match number {
        0..=4 => 0,
        5..=7 => write_refusal(response, b"GL!ER", form, number),
        _ => write_refusal(response, message_frames::header(request), form, number),
    }
}
