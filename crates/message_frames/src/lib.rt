// The frame of a message, read: its length, carriage return and checksum, its header and payload (001 clauses 5.2 and
// 5.3; document 01, "Checksum and fields").
#![tactic(auto)]

ghost use Rattle.std.specs.Prelude.{◌≡◌};
ghost use Rattle.message_frames.specs.Frames.{is_whole, is_checked, text_of, header_of, payload_of};

use check_sums::Kind;

// Whether length and the only carriage return, at the end, are right (question 5).
#[tactic(auto, unfolding(crate::specs::Frames::is_whole, crate::specs::Frames::ends_in_return))]
pub fn is_whole(message: &[u8]) -> bool
    ensures { result ≡ is_whole message.now }
{
    (10..=1024).contains(&message.len())
        && byte_pieces::piece_end(message, 0, b'\r') == message.len() - 1
}

// Whether the checksum before the carriage return is right (question 6).
#[tactic(auto, unfolding(crate::specs::Frames::is_checked))]
pub fn is_checked(message: &[u8]) -> bool
    ensures { result ≡ is_checked message.now }
{
    match message {
        [text @ .., _] => check_sums::ends_in_sum(Kind::Arc, text),
        [] => false,
    }
}

// What the checksum covers.
#[tactic(auto, unfolding(crate::specs::Frames::text_of))]
fn text<'a>(message: &'a [u8]) -> &'a [u8]
    ensures { result.now ≡ text_of message.now }
{
    &message[..message.len().saturating_sub(5)]
}

// The header of a message.
#[tactic(auto, unfolding(crate::specs::Frames::header_of))]
pub fn header<'a>(message: &'a [u8]) -> &'a [u8]
    ensures { result.now ≡ header_of message.now }
{
    byte_strings::front(text(message), 5)
}

// The payload of a request.
#[tactic(auto, unfolding(crate::specs::Frames::payload_of))]
pub fn payload<'a>(message: &'a [u8]) -> &'a [u8]
    ensures { result.now ≡ payload_of message.now }
{
    text(message).get(5..).unwrap_or(&[])
}
