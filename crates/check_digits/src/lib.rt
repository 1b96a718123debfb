// A 16-bit number as four hexadecimal digits, capitals only, the high digit first: written, and read.
#![tactic(auto)]

ghost use Rattle.std.specs.Prelude.{◌≡◌, ◌+◌, ◌≤◌, ◌<◌, length, IfSome};
ghost use Rattle.byte_strings.specs.Wrote.{Writes};
ghost use Rattle.check_digits.specs.Hex.{hex_digit, hex_value, hex4, read_hex4};

// The digit of a number.
#[tactic(auto, unfolding(crate::specs::Hex::hex_digit))]
pub fn hex_digit(number: u16) -> u8
    requires { number < 16 }
    ensures { result ≡ hex_digit number }
{
    if number < 10 {
        b'0' + (number as u8)
    } else {
        b'A' + (number as u8 - 10)
    }
}

// The number of a digit.
#[tactic(auto, unfolding(crate::specs::Hex::hex_value))]
pub fn hex_value(digit: u8) -> Option<u16>
    ensures value { result ≡ hex_value digit }
    ensures small { IfSome result (λ number. number < 16) }
{
    match digit {
        b'0'..=b'9' => Some(u16::from(digit - b'0')),
        b'A'..=b'F' => Some(u16::from(digit - b'A') + 10),
        _ => None,
    }
}

// Writes a number as four digits, and answers the place after them.
#[tactic(auto, using(crate::proofs::HexLaws::four_written))]
pub fn put_hex4(dst: &mut [u8], at: usize, number: u16) -> usize
    requires { at + 4 ≤ length dst.old }
    ensures writes { Writes dst at (hex4 number) result }
    ensures short { result ≡ at + 4 }
{
    let o1 = byte_strings::put_byte(dst, at, hex_digit(number / 4096));
    let o2 = byte_strings::put_byte(dst, o1, hex_digit(number / 256 % 16));
    let o3 = byte_strings::put_byte(dst, o2, hex_digit(number / 16 % 16));
    byte_strings::put_byte(dst, o3, hex_digit(number % 16))
}

// The number of the four digits at a place.
#[tactic(auto, unfolding(crate::specs::Hex::read_hex4))]
pub fn read_hex4(bytes: &[u8], at: usize) -> Option<u16>
    ensures { result ≡ read_hex4 bytes.now at }
{
    let [a, b, c, d] = *bytes.get(at..)?.first_chunk::<4>()?;
    Some(hex_value(a)? * 4096 + hex_value(b)? * 256 + hex_value(c)? * 16 + hex_value(d)?)
}
