// Steps through a card: the place after an entry, whose value ends where its semicolon stands or, for a number, where
// its digits end (document 01, "Cards").
#![tactic(auto)]

ghost use Rattle.std.specs.Prelude.{◌≡◌, true, ◌⊎◌, ◌+◌, ◌≤◌, ◌<◌, length};
ghost use Rattle.byte_strings.specs.Strings.{run};
ghost use Rattle.text_classes.specs.Classes.{is_of, are_all};
ghost use Rattle.text_classes.specs.declared.Class.TheVariants.{Digit};
ghost use Rattle.text_decimals.specs.Decimals.{is_number};
ghost use Rattle.text_forms.specs.declared.Form.TheVariants.{Number};
ghost use Rattle.card_steps.specs.Steps.{after};

use text_classes::Class;
use text_forms::Form;

// The place after an entry whose value ends where its semicolon stands.
pub fn after_any(s: &[u8], at: usize, name: u32, form: Form) -> usize
    requires { (at ≤ length s.now + 1) × (0 < name) }
    ensures value { result ≡ after name form s.now at }
    ensures within { result ≤ length s.now + 1 }
{
    if s.len() < at {
        return s.len() + 1;
    }
    let end = byte_pieces::piece_end(s, at, b';');
    if s.len() <= end {
        return s.len() + 1;
    }
    if card_entries::name_of(&s[at..end]) != name {
        return s.len() + 1;
    }
    let start = at + 3;
    if !text_forms::in_form(form, &s[start..end]) {
        return s.len() + 1;
    }
    end + 1
}

// How many digits stand at the front.
fn digit_count(v: &[u8]) -> usize
    ensures value { result ≡ run (is_of Digit) v.now }
    ensures within { result ≤ length v.now }
{
    let mut i = 0;
    while i < v.len() {
        if !text_classes::is_of(Class::Digit, v[i]) {
            return i;
        }
        i += 1;
    }
    i
}

fn lesser(a: usize, b: usize) -> usize
    ensures upper_bound { (result ≤ a) × (result ≤ b) }
    ensures one { (result ≡ a) ⊎ (result ≡ b) }
{
    if a < b { a } else { b }
}

// Whether digits are a number up to high, of at most so many of them.
fn is_number(v: &[u8], digits: usize, high: u64) -> bool
    requires { (digits ≤ 10) × (are_all Digit v.now ≡ true) }
    ensures { result ≡ is_number digits 0 high v.now }
{
    if v.len() < 1 {
        return false;
    }
    if digits < v.len() {
        return false;
    }
    if (v.len() != 1) & (v[0] == b'0') {
        return false;
    }
    text_decimals::decimal(v) <= high
}

// The place after an entry whose value is a number up to high, of at most so many digits. No semicolon is looked
// for, and no more digits are gone over than it may have.
pub fn after_number(s: &[u8], at: usize, name: u32, digits: usize, high: u64) -> usize
    requires { (at ≤ length s.now + 1) × (0 < name) × (digits ≤ 10) }
    ensures value { result ≡ after name (Number digits 0 high) s.now at }
    ensures within { result ≤ length s.now + 1 }
{
    if s.len() < at + 3 {
        return s.len() + 1;
    }
    if card_entries::name_of(&s[at..at + 3]) != name {
        return s.len() + 1;
    }
    let start = at + 3;
    let limit = lesser(start + digits + 1, s.len());
    let end = start + digit_count(&s[start..limit]);
    if s.len() <= end {
        return s.len() + 1;
    }
    if s[end] != b';' {
        return s.len() + 1;
    }
    if !is_number(&s[start..end], digits, high) {
        return s.len() + 1;
    }
    end + 1
}
