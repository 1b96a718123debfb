// Whether what stands after the first word of a line of the console is in the form of that line (docs/CONSOLE.md), of
// the lines that have more than one word there.
#![tactic(auto)]

ghost use Rattle.std.specs.Prelude.{◌≡◌};
ghost use Rattle.console_forms.specs.LineForms.{are_tables, has_byte, is_slot_row, is_slot, is_register};

use text_forms::Form;

pub fn are_tables(rest: &[u8]) -> bool
    ensures { result ≡ are_tables rest.now }
{
    text_decimals::is_number(1, 0, 9, console_words::word(rest))
        && text_decimals::is_number(2, 0, 33, console_words::rest(rest))
}

// Whether the three words of digits are those of a slot row.
fn is_slot_row(digits: &[u8]) -> bool
    ensures { result ≡ is_slot_row digits.now }
{
    let after = console_words::rest(digits);
    text_forms::in_form(Form::Hex(80), console_words::word(digits))
        && text_forms::in_form(Form::Hex(32), console_words::word(after))
        && text_forms::in_form(Form::Hex(32), console_words::rest(after))
}

// Whether the second word is the number of a byte: the state of a slot, the mark of a register.
fn has_byte(rest: &[u8]) -> bool
    ensures { result ≡ has_byte rest.now }
{
    text_decimals::is_number(3, 0, 255, console_words::word(console_words::rest(rest)))
}

pub fn is_slot(rest: &[u8]) -> bool
    ensures { result ≡ is_slot rest.now }
{
    text_decimals::is_number(1, 1, 8, console_words::word(rest))
        && has_byte(rest)
        && is_slot_row(console_words::rest(console_words::rest(rest)))
}

pub fn is_register(rest: &[u8]) -> bool
    ensures { result ≡ is_register rest.now }
{
    text_decimals::is_number(2, 1, 32, console_words::word(rest))
        && has_byte(rest)
        && text_forms::in_form(
            Form::Hex(512),
            console_words::rest(console_words::rest(rest)),
        )
}
