// The forms of the values in cards and records (document 01, Records, Cards).
#![tactic(auto)]

ghost use Rattle.std.specs.Prelude.{◌≡◌};
ghost use Rattle.text_forms.specs.Forms.{is_algorithm, in_form};

use text_classes::Class;

#[derive(Clone, Copy)]
pub enum Form {
    Timestamp,
    Algorithm,
    Number(usize, u32, u32), // digits at most, lowest, highest
    Digits(usize),
    Hex(usize),
    HexSome,
    Name,
    Empty,
    Label(usize), // bytes at most
}

#[tactic(auto, using(crate::proofs::FormLaws::by_bytes, crate::proofs::FormLaws::not_two))]
fn is_algorithm(v: &[u8]) -> bool
    ensures { result ≡ is_algorithm v.now }
{
    matches!(v, [b'0', b'2' | b'4'])
}

// Whether the value has the form.
#[tactic(auto, using(text_timestamps::proofs::MomentLaws::timestamp_moment))]
pub fn in_form(form: Form, value: &[u8]) -> bool
    ensures { result ≡ in_form form value.now }
{
    match form {
        Form::Timestamp => text_timestamps::read_timestamp(value).is_some(),
        Form::Algorithm => is_algorithm(value),
        Form::Number(digits, low, high) => {
            digits <= 10 && text_decimals::is_number(digits, low, high, value)
        }
        Form::Digits(n) => value.len() == n && text_classes::are_all(Class::Digit, value),
        Form::Hex(n) => value.len() == n && text_classes::are_all_long(Class::Hexadecimal, value),
        Form::HexSome => !value.is_empty() && text_classes::are_all_long(Class::Hexadecimal, value),
        Form::Name => text_classes::is_identifier(value),
        Form::Empty => value.is_empty(),
        Form::Label(n) => value.len() <= n && text_classes::are_all(Class::Value, value),
    }
}
