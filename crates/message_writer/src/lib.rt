// The head of a response and the ending of a message written into a lent buffer (001 clauses 5.2 and 5.3; document
// 01, "Checksum and fields").
#![tactic(auto)]

ghost use Rattle.std.specs.Prelude.{◌≡◌, ◌+◌, ◌≤◌, length, take};
ghost use Rattle.byte_strings.specs.Wrote.{Writes};
ghost use Rattle.message_frames.specs.Frames.{ending, head_bytes};

use check_sums::Kind;

// Writes the head of a response from the start on: the header with ! for ?, and the status. Answers the place after
// it.
pub fn put_head(dst: &mut [u8], header: &[u8], status: &[u8]) -> usize
    requires { (3 ≤ length header.now) × (length header.now + length status.now ≤ length dst.old) }
    ensures writes { Writes dst 0 (head_bytes header.now status.now) result }
    ensures short { result ≡ length header.now + length status.now }
{
    let a = byte_strings::put(dst, 0, &header[..2]);
    let b = byte_strings::put_byte(dst, a, b'!');
    let c = byte_strings::put(dst, b, &header[3..]);
    byte_strings::put(dst, c, status)
}

// Ends the message of the bytes before a place: checksum and carriage return. Answers the place after them.
pub fn close_message(dst: &mut [u8], end: usize) -> usize
    requires { end + 5 ≤ length dst.old }
    ensures writes { Writes dst end (ending (take end dst.old)) result }
    ensures short { result ≡ end + 5 }
{
    let a = check_sums::put_sum(Kind::Arc, dst, 0, end);
    byte_strings::put_byte(dst, a, b'\r')
}
