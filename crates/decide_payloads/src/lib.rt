// A request's payload as the fields of one command (document 01, "Questions in order", 8): none, one string, one
// number, or two strings, and nothing over. The fields come from the payload's reader; one of another type than the
// command lists ends the reading.
#![tactic(auto)]

ghost use Rattle.std.specs.Prelude.{◌≡◌, length};
ghost use Rattle.field_values.specs.Values.{values_of};
ghost use Rattle.card_entries.specs.Entries.{between, Within};
ghost use Rattle.message_commands.specs.declared.Command.TheVariants.{RS};
ghost use Rattle.engine.specs.Requests.{are_fields_of};
ghost use Rattle.decide_payloads.specs.Payloads.{text_in, number_in, first_text_in, second_text_in, count_in};
ghost use Rattle.decide_payloads.specs.Payloads.{first_between};
ghost use Rattle.decide_payloads.specs.Payloads.{second_between, TwoWithin};

use byte_bounds::Bounds;
use card_entries::Found;
use field_values::Field;

// A number that was read.
#[derive(Clone, Copy)]
pub enum Count {
    Is(u32),
    Nothing,
}

// Where two strings stand.
#[derive(Clone, Copy)]
pub struct Texts {
    pub first: Bounds,
    pub second: Bounds,
}

// Two strings that were read.
#[derive(Clone, Copy)]
pub enum TwoTexts {
    At(Texts),
    Nothing,
}

// Whether the payload has no field.
pub fn has_no_field(payload: &[u8]) -> bool
    ensures { result ≡ are_fields_of RS (values_of payload.now) }
{
    payload.len() == 0
}

// The only field, a string: its bounds.
pub fn one_text(payload: &[u8]) -> Found
    ensures result_value { between payload.now result ≡ text_in (values_of payload.now) }
    ensures within { Within (length payload.now) result }
{
    let Field::Text { start, end } = field_reader::only_field(payload) else {
        return Found::Nothing;
    };
    Found::At { start, end }
}

// The only field, a number.
pub fn one_number(payload: &[u8]) -> Count
    ensures { count_in result ≡ number_in (values_of payload.now) }
{
    let Field::Number(n) = field_reader::only_field(payload) else {
        return Count::Nothing;
    };
    Count::Is(n)
}

// The two fields, both strings: their bounds.
pub fn two_texts(payload: &[u8]) -> TwoTexts
    ensures result_value { first_between payload.now result ≡ first_text_in (values_of payload.now) }
    ensures second { second_between payload.now result ≡ second_text_in (values_of payload.now) }
    ensures within { TwoWithin (length payload.now) result }
{
    let two = field_reader::two_fields(payload);
    let first = two.first;
    let Field::Text { start, end } = first else {
        return TwoTexts::Nothing;
    };
    let second = two.second;
    let Field::Text {
        start: from,
        end: to,
    } = second
    else {
        return TwoTexts::Nothing;
    };
    TwoTexts::At(Texts {
        first: Bounds { start, end },
        second: Bounds {
            start: from,
            end: to,
        },
    })
}
