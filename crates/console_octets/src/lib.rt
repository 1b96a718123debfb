// Octets as two hexadecimal digits each, capitals only, the high digit first: written, and read.
#![tactic(auto)]

ghost use Rattle.std.specs.Prelude.{◌≡◌, [], ◌∷◌, ◌+◌, ◌≤◌, length};
ghost use Rattle.byte_strings.specs.Wrote.{Writes};
ghost use Rattle.console_octets.specs.Octets.{octet_of, digits_of, octets_of};

// Writes the two digits of b, and answers the place after them.
fn put_octet(dst: &mut [u8], at: usize, b: u8) -> usize
    requires { at + 2 ≤ length dst.old }
    ensures { Writes dst at (digits_of (b ∷ [])) result }
{
    let o = byte_strings::put_byte(dst, at, check_digits::hex_digit((b / 16) as u16));
    byte_strings::put_byte(dst, o, check_digits::hex_digit((b % 16) as u16))
}

// Writes the digits of the bytes, and answers the place after them.
pub fn put_digits(dst: &mut [u8], at: usize, bytes: &[u8]) -> usize
    requires { at + (length bytes.now + length bytes.now) ≤ length dst.old }
    ensures writes { Writes dst at (digits_of bytes.now) result }
    ensures short { result ≡ at + (length bytes.now + length bytes.now) }
{
    let mut end = at;
    for b in bytes {
        end = put_octet(dst, end, *b);
    }
    end
}

// The octet of two digits.
#[tactic(auto, unfolding(crate::specs::Octets::octet_of))]
fn octet_of(high: u8, low: u8) -> u8
    ensures { result ≡ octet_of high low }
{
    let tens = check_digits::hex_value(high).unwrap_or(16);
    let ones = check_digits::hex_value(low).unwrap_or(16);
    ((tens * 16 + ones) % 256) as u8
}

// Writes the octets of the digits from the start on, and answers how many there are.
pub fn put_octets(dst: &mut [u8], digits: &[u8]) -> usize
    requires { length digits.now ≤ length dst.old + length dst.old }
    ensures writes { Writes dst 0 (octets_of digits.now) result }
    ensures fits { result ≤ length dst.old }
{
    let mut n = 0;
    let mut left = digits;
    while let [high, low, rest @ ..] = left {
        dst[n] = octet_of(*high, *low);
        n += 1;
        left = rest;
    }
    n
}
