// Decimal numbers: read, and judged by a range (001 Table 6; document 01, "Checksum and fields", "Cards").
#![tactic(auto)]

ghost use Rattle.std.specs.Prelude.{◌≡◌, ◌-◌, ◌^◌, ◌≤◌, ◌<◌, length};
ghost use Rattle.text_decimals.specs.Decimals.{decimal, is_unpadded, is_number};

use text_classes::Class;

fn digit_value(b: u8) -> u64
    ensures { result ≡ b - 48 }
{
    u64::from(b.saturating_sub(b'0'))
}

// The number that up to ten decimal digits say.
pub fn decimal(digits: &[u8]) -> u64
    requires { length digits.now ≤ 10 }
    ensures value { result ≡ decimal digits.now }
    ensures small { result < 2 ^ 38 }
{
    let mut v: u64 = 0;
    for digit in digits {
        v = v * 10 + digit_value(*digit);
    }
    v
}

#[tactic(auto, unfolding(crate::specs::Decimals::is_unpadded))]
fn is_unpadded(v: &[u8]) -> bool
    requires { 1 ≤ length v.now }
    ensures { result ≡ is_unpadded v.now }
{
    v.len() == 1 || v[0] != b'0'
}

// Whether a value is a decimal number from low to high, of at most so many digits (up to ten) and without leading zero.
#[tactic(auto, unfolding(crate::specs::Decimals::is_number))]
pub fn is_number(digits: usize, low: u32, high: u32, value: &[u8]) -> bool
    requires { digits ≤ 10 }
    ensures { result ≡ is_number digits low high value.now }
{
    (1..=digits).contains(&value.len())
        && text_classes::are_all(Class::Digit, value)
        && is_unpadded(value)
        && (u64::from(low)..=u64::from(high)).contains(&decimal(value))
}
