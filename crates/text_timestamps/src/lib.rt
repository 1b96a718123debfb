// Timestamps YYYYMMDDThhmmssZ and PTVD dates CCYYMMDDhhmmss: Gregorian, years 1900 to 9999, no leap seconds (document
// 01; 003 clause 5.1.4; 001 Table 6).
#![tactic(auto)]

ghost use Rattle.std.specs.Prelude.{◌≡◌, cond, ◌+◌, ◌-◌, ◌*◌, ◌≤◌, length, take, drop, Some, None, IfSome};
ghost use Rattle.text_classes.specs.Classes.{are_all, is_of};
ghost use Rattle.text_classes.specs.declared.Class.TheVariants.{Digit};
ghost use Rattle.text_decimals.specs.Decimals.{decimal};
ghost use Rattle.text_timestamps.specs.Timestamps.{is_date_and_time, timestamp_of, date_time_of, is_later};

fn digit(b: u8) -> Option<u64>
    ensures { result ≡ cond (is_of Digit b) (Some (b - 48)) None }
{
    match b {
        b'0'..=b'9' => Some(u64::from(b - b'0')),
        _ => None,
    }
}

// The number that the two digits at a place say, or none where one is no digit.
fn pair(s: &[u8], at: usize) -> Option<u64>
    requires { at + 2 ≤ length s.now }
    ensures value { result ≡ cond (are_all Digit (take 2 (drop at s.now)))
        (Some (decimal (take 2 (drop at s.now)))) None }
    ensures small { IfSome result (λ n. n ≤ 99) }
{
    let tens = digit(s[at])?;
    let ones = digit(s[at + 1])?;
    Some(tens * 10 + ones)
}

// The moment YYYYMMDDhhmmss is read by numbers of two digits, without loop and division.
fn moment_of(date: &[u8], time: &[u8]) -> Option<u64>
    requires { (length date.now ≡ 8) × (length time.now ≡ 6) }
    ensures { result ≡ cond (is_date_and_time date.now time.now)
        (Some (decimal date.now * 1000000 + decimal time.now)) None }
{
    let century = pair(date, 0)?;
    let year = pair(date, 2)?;
    let month = pair(date, 4)?;
    let day = pair(date, 6)?;
    let hour = pair(time, 0)?;
    let minute = pair(time, 2)?;
    let second = pair(time, 4)?;
    let right = text_calendar::is_day(century, year, month, day)
        && text_calendar::is_time_of_day(hour, minute, second);
    let date_number = ((century * 100 + year) * 100 + month) * 100 + day;
    right.then_some(date_number * 1000000 + ((hour * 100 + minute) * 100 + second))
}

// The moment of a timestamp as the number YYYYMMDDhhmmss, or none.
#[tactic(auto, using(crate::proofs::MomentLaws::stamp_is))]
pub fn read_timestamp(bytes: &[u8]) -> Option<u64>
    ensures { result ≡ timestamp_of bytes.now }
{
    if bytes.len() != 16 || bytes[8] != b'T' || bytes[15] != b'Z' {
        return None;
    }
    moment_of(&bytes[..8], &bytes[9..15])
}

// The moment of a PTVD date as the same number, or none.
#[tactic(auto, using(crate::proofs::MomentLaws::date_is))]
pub fn read_date_time(bytes: &[u8]) -> Option<u64>
    ensures { result ≡ date_time_of bytes.now }
{
    if bytes.len() != 14 {
        return None;
    }
    moment_of(&bytes[..8], &bytes[8..14])
}

// Whether there is a moment that is later than another.
pub fn is_later(moment: Option<u64>, other: Option<u64>) -> bool
    ensures { result ≡ is_later moment other }
{
    matches!((moment, other), (Some(x), Some(y)) if y < x)
}
