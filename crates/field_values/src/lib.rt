// PTVD fields read at a place of a payload (001 clause 5.4, Table 6, as document 01 narrows them).
#![tactic(auto)]

ghost use Rattle.std.specs.Prelude.{◌≡◌, ◌+◌, ◌-◌, ◌^◌, ◌≤◌, ◌<◌, length, take, drop};
ghost use Rattle.field_values.specs.Values.{is_octets, typed, value_at, next_at};
ghost use Rattle.field_values.specs.Bounds.{field_value, Within, number_of, place_after};
ghost use Rattle.text_timestamps.specs.Timestamps.{is_date_time};

use text_classes::Class;

// A field that was read: a number by its value, a string, date or hex octets by the bounds of its content in the
// payload; or none.
#[derive(Clone, Copy)]
pub enum Field {
    Number(u32),
    Text { start: usize, end: usize },
    Date { start: usize, end: usize },
    Octets { start: usize, end: usize },
    Bad,
}

// A field, and the place after it; where there is none, the place is where it was.
#[derive(Clone, Copy)]
pub struct Read {
    pub field: Field,
    pub next: usize,
}

pub fn is_octets(digits: &[u8]) -> bool
    ensures { result ≡ is_octets digits.now }
{
    if digits.len() % 2 != 0 {
        return false;
    }
    text_classes::are_all(Class::Hexadecimal, digits)
}

fn is_date_time(v: &[u8]) -> bool
    ensures { result ≡ is_date_time v.now }
{
    text_timestamps::read_date_time(v).is_some()
}

fn number_of(v: &[u8]) -> Field
    ensures { result ≡ number_of v.now }
{
    if !text_decimals::is_number(10, 0, 2147483647, v) {
        return Field::Bad;
    }
    Field::Number(text_decimals::decimal(v) as u32)
}

// The field of a type whose content stands from start to end.
fn field_of(kind: u8, s: &[u8], start: usize, end: usize) -> Field
    requires { (start ≤ end) × (end ≤ length s.now) }
    ensures result_value { field_value s.now result ≡ typed kind (take (end - start) (drop start s.now)) }
    ensures within { Within (length s.now) result }
{
    let v = &s[start..end];
    if kind == b'N' {
        return number_of(v);
    }
    if kind == b'P' {
        if text_classes::are_all_long(Class::Text, v) {
            return Field::Text { start, end };
        }
        return Field::Bad;
    }
    if kind == b'D' {
        if is_date_time(v) {
            return Field::Date { start, end };
        }
        return Field::Bad;
    }
    if kind == b'H' {
        if is_octets(v) {
            return Field::Octets { start, end };
        }
    }
    Field::Bad
}

// The field at a place, and the place after it.
pub fn read_field(payload: &[u8], at: usize) -> Read
    ensures field_value { field_value payload.now result.field ≡ value_at payload.now at }
    ensures within { Within (length payload.now) result.field }
    ensures next { result.next ≡ next_at payload.now at }
{
    if payload.len() <= at {
        return Read {
            field: Field::Bad,
            next: at,
        };
    }
    let end = byte_pieces::piece_end(payload, at, b'~');
    if payload.len() <= end {
        return Read {
            field: Field::Bad,
            next: at,
        };
    }
    if end == at {
        return Read {
            field: Field::Bad,
            next: at,
        };
    }
    let field = field_of(payload[at], payload, at + 1, end);
    Read {
        field,
        next: next_after(field, at, end),
    }
}

fn next_after(f: Field, at: usize, end: usize) -> usize
    requires { end + 1 < 2 ^ 64 }
    ensures { result ≡ place_after f at end }
{
    if let Field::Bad = f {
        return at;
    }
    end + 1
}
