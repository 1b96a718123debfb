// PTVD fields written into a lent buffer (001 clause 5.4, Table 6).
#![tactic(auto)]

ghost use Rattle.std.specs.Prelude.{◌+◌, ◌≤◌, ◌≡◌, length};
ghost use Rattle.byte_strings.specs.Wrote.{Writes};
ghost use Rattle.field_values.specs.Values.{number, string, octets, content_bytes, field_bytes};

// Writes a field of a type with its content, and answers the place after it.
fn put_content(dst: &mut [u8], at: usize, kind: u8, v: &[u8]) -> usize
    requires { at + length v.now + 2 ≤ length dst.old }
    ensures writes { Writes dst at (content_bytes kind v.now) result }
    ensures short { result ≡ at + length v.now + 2 }
{
    let a = byte_strings::put_byte(dst, at, kind);
    let b = byte_strings::put(dst, a, v);
    byte_strings::put_byte(dst, b, b'~')
}

// Writes a number, and answers the place after it.
#[tactic(auto, using(crate::proofs::Lengths::content_length))]
pub fn put_number(dst: &mut [u8], at: usize, value: u32) -> usize
    requires { at + length (field_bytes (number value)) ≤ length dst.old }
    ensures writes { Writes dst at (field_bytes (number value)) result }
    ensures short { result ≤ at + 12 }
{
    let a = byte_strings::put_byte(dst, at, b'N');
    let b = text_decimal_writer::put_decimal(dst, a, value);
    byte_strings::put_byte(dst, b, b'~')
}

// Writes a string, and answers the place after it.
pub fn put_string(dst: &mut [u8], at: usize, value: &[u8]) -> usize
    requires { at + length value.now + 2 ≤ length dst.old }
    ensures writes { Writes dst at (field_bytes (string value.now)) result }
    ensures short { result ≡ at + length value.now + 2 }
{
    put_content(dst, at, b'P', value)
}

// Writes hex octets by their digits, and answers the place after them.
pub fn put_octets(dst: &mut [u8], at: usize, value: &[u8]) -> usize
    requires { at + length value.now + 2 ≤ length dst.old }
    ensures writes { Writes dst at (field_bytes (octets value.now)) result }
    ensures short { result ≡ at + length value.now + 2 }
{
    put_content(dst, at, b'H', value)
}
