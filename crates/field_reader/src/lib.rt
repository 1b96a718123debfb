// One reader goes over the payload and remembers how far it has read (document 01, "Checksum and fields"): a struct
// with the payload and a place, over functions on slice and number.
#![tactic(auto)]

ghost use Rattle.std.specs.Prelude.{◌≡◌, length};
ghost use Rattle.field_values.specs.Values.{values_of, value_at, next_at};
ghost use Rattle.field_values.specs.Bounds.{field_value, Within};
ghost use Rattle.field_reader.specs.Reading.{reader_of, next_in, past, alone, last_at, last_in};

use field_values::Field;

// A payload, and the place of the next field.
#[derive(Clone, Copy)]
pub struct Reader<'a> {
    pub payload: &'a [u8],
    pub at: usize,
}

// The first field, and the second if nothing follows it, else `Bad`.
#[derive(Clone, Copy)]
pub struct TwoFields {
    pub first: Field,
    pub second: Field,
}

// The field at a place if nothing follows it, else `Bad`.
fn last_field(s: &[u8], at: usize) -> Field
    ensures result_value { field_value s.now result ≡ last_at s.now at }
    ensures within { Within (length s.now) result }
{
    let read = field_values::read_field(s, at);
    if read.next != s.len() {
        return Field::Bad;
    }
    read.field
}

// A reader before the first field.
fn new<'a>(payload: &'a [u8]) -> Reader<'a>
    ensures { result ≡ reader_of payload.entry }
{
    Reader { payload, at: 0 }
}

// The next field; the reader moves past it.
fn next<'s, 'a>(r: &'s mut Reader<'a>) -> Field
    ensures result_value { field_value r.old.payload.now result ≡ next_in r.old }
    ensures within { Within (length r.old.payload.now) result }
    ensures past { r.new ≡ past r.old }
{
    let read = field_values::read_field(r.payload, r.at);
    r.at = read.next;
    read.field
}

// The next field if nothing follows it, else `Bad`.
fn last<'a>(r: Reader<'a>) -> Field
    ensures result_value { field_value r.entry.payload.now result ≡ last_in r.entry }
    ensures within { Within (length r.entry.payload.now) result }
{
    last_field(r.payload, r.at)
}

// The only field of a payload, else `Bad`.
pub fn only_field(payload: &[u8]) -> Field
    ensures result_value { field_value payload.now result ≡ alone (values_of payload.now) }
    ensures within { Within (length payload.now) result }
{
    last(new(payload))
}

// The two fields of a payload.
pub fn two_fields(payload: &[u8]) -> TwoFields
    ensures first_value { field_value payload.now result.first ≡ value_at payload.now 0 }
    ensures second { field_value payload.now result.second
        ≡ last_at payload.now (next_at payload.now 0) }
    ensures within { Within (length payload.now) result.first
        × Within (length payload.now) result.second }
{
    let mut r = new(payload);
    let first = next(&mut r);
    let second = last(r);
    TwoFields { first, second }
}
