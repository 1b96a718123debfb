// Dates and times of day by numbers of two digits: Gregorian, years 1900 to 9999, no leap seconds (document 01, "What
// the caller lends"; 001 Table 6).
#![tactic(auto)]

ghost use Rattle.std.specs.Prelude.{◌≡◌, ◌&&◌, ◌+◌, ◌*◌, ◌≤◌, leb};
ghost use Rattle.text_calendar.specs.Calendar.{is_leap, days_in, is_date, is_time};

// A year that ends in 00 is a leap year where its century is divisible by four, another where the year itself is.
#[tactic(auto, using(crate::proofs::DateLaws::century_year, crate::proofs::DateLaws::other_year))]
fn is_leap(century: u64, year: u64) -> bool
    requires { year ≤ 99 }
    ensures { result ≡ is_leap (century * 100 + year) }
{
    if year == 0 {
        century % 4 == 0
    } else {
        year % 4 == 0
    }
}

#[tactic(auto, unfolding(crate::specs::Calendar::days_in))]
fn days_in(century: u64, year: u64, month: u64) -> u64
    requires { year ≤ 99 }
    ensures { result ≡ days_in (century * 100 + year) month }
{
    match month {
        2 if is_leap(century, year) => 29,
        2 => 28,
        4 | 6 | 9 | 11 => 30,
        _ => 31,
    }
}

// Whether a century, the year in it (00 to 99), a month and a day are a date. How many days the month has is asked
// only of the days after the 28th.
#[tactic(auto, unfolding(crate::specs::Calendar::is_date))]
pub fn is_day(century: u64, year: u64, month: u64, day: u64) -> bool
    ensures { result ≡ (leb year 99 && is_date (century * 100 + year) month day) }
{
    (19..=99).contains(&century)
        && year <= 99
        && (1..=12).contains(&month)
        && 1 <= day
        && (day <= 28 || day <= days_in(century, year, month))
}

// Whether an hour, a minute and a second are a time of day.
#[tactic(auto, unfolding(crate::specs::Calendar::is_time))]
pub fn is_time_of_day(hour: u64, minute: u64, second: u64) -> bool
    ensures { result ≡ is_time hour minute second }
{
    hour <= 23 && minute <= 59 && second <= 59
}
