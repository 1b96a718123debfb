// Decimal numbers written without leading zero (001 Table 6), by subtraction of powers of ten: the module's processor
// has no divide instruction (document 02, N4).
#![tactic(auto)]

ghost use Rattle.std.specs.Prelude.{◌≡◌, true, ◌||◌, ◌+◌, ◌*◌, ◌^◌, ◌<◌, ◌≤◌, leb, eqb, length};
ghost use Rattle.byte_strings.specs.Wrote.{Writes};
ghost use Rattle.text_decimal_writer.specs.Digits.{dec_digits, decimal_bytes, long_bytes};
ghost use Rattle.text_decimal_writer.specs.Powers.{are_tens};

// The powers of ten that 64 bits hold, the greatest first.
const POWERS: [u64; 20] = [
    10000000000000000000,
    1000000000000000000,
    100000000000000000,
    10000000000000000,
    1000000000000000,
    100000000000000,
    10000000000000,
    1000000000000,
    100000000000,
    10000000000,
    1000000000,
    100000000,
    10000000,
    1000000,
    100000,
    10000,
    1000,
    100,
    10,
    1,
];

// The table by value: indexed where it stands, it would be laid out anew at each power.
#[tactic(auto, unfolding(crate::specs::Powers::are_tens))]
fn powers_of_ten() -> [u64; 20]
    ensures { are_tens result ≡ true }
{
    POWERS
}

// How often a number goes into another, and what is left of it.
#[derive(Clone, Copy)]
pub struct Taken {
    pub times: u8,
    pub rest: u64,
}

// Takes p away from v as often as it goes, which is nine times at most. A loop that ends once p no longer goes is
// compiled to a division where p is known.
pub fn take_away(v: u64, p: u64) -> Taken
    requires { v < 10 * p }
    ensures rest_value { result.times * p + result.rest ≡ v }
    ensures less { result.rest < p }
    ensures few { result.times ≤ 9 }
{
    let mut times = 0;
    let mut rest = v;
    for _ in 0..9u8 {
        if p <= rest {
            rest -= p;
            times += 1;
        }
    }
    Taken { times, rest }
}

// Whether v has a digit at the power p: it has none at a power above it, but the last digit is always written.
fn has_digit(v: u64, p: u64) -> bool
    ensures { result ≡ (leb p v || eqb p 1) }
{
    p <= v || p == 1
}

// Writes the decimal digits of v, of which there are at most k.
fn put_digits(dst: &mut [u8], at: usize, v: u64, k: usize) -> usize
    requires { (k ≤ 20) × (v < 10 ^ k) × (at + length (dec_digits k v) ≤ length dst.old) }
    ensures { Writes dst at (dec_digits k v) result }
{
    let powers = powers_of_ten();
    let mut end = at;
    let mut rest = v;
    for p in &powers[20 - k..] {
        if has_digit(v, *p) {
            let taken = take_away(rest, *p);
            rest = taken.rest;
            end = byte_strings::put_byte(dst, end, b'0' + taken.times);
        }
    }
    end
}

// Writes a number in decimal without leading zero, and answers the place after it.
#[tactic(auto, using(crate::proofs::DigitLaws::few_digits), unfolding(crate::specs::Digits::decimal_bytes))]
pub fn put_decimal(dst: &mut [u8], at: usize, number: u32) -> usize
    requires { at + length (decimal_bytes number) ≤ length dst.old }
    ensures writes { Writes dst at (decimal_bytes number) result }
    ensures short { result ≤ at + 10 }
{
    put_digits(dst, at, u64::from(number), 10)
}

// Writes any number in decimal without leading zero, and answers the place after it.
#[tactic(auto, using(crate::proofs::DigitLaws::few_digits), unfolding(crate::specs::Digits::long_bytes))]
pub fn put_long(dst: &mut [u8], at: usize, number: u64) -> usize
    requires { at + length (long_bytes number) ≤ length dst.old }
    ensures writes { Writes dst at (long_bytes number) result }
    ensures short { result ≤ at + 20 }
{
    put_digits(dst, at, number, 20)
}
