// Text: classes of bytes, and identifiers (document 01, "What the caller lends", "Records", "Cards"; 003 clause 5.1).
#![tactic(auto)]

ghost use Rattle.std.specs.Prelude.{◌≡◌};
ghost use Rattle.text_classes.specs.Classes.{is_alphanumeric, is_mark, is_of, are_all};
ghost use Rattle.text_classes.specs.Identifiers.{is_identifier};

// The classes of bytes that the papers name.
#[derive(Clone, Copy)]
pub enum Class {
    Digit,
    Hexadecimal,
    Capital,
    Identifier,
    Text,
    Printable,
    Value,
    Zero,
}

#[tactic(auto, unfolding(crate::specs::Classes::is_alphanumeric))]
fn is_alphanumeric(b: u8) -> bool
    ensures { result ≡ is_alphanumeric b }
{
    matches!(b, b'0'..=b'9' | b'A'..=b'Z' | b'a'..=b'z')
}

#[tactic(auto, unfolding(crate::specs::Classes::is_mark))]
fn is_mark(b: u8) -> bool
    ensures { result ≡ is_mark b }
{
    matches!(b, b'_' | b','..=b'.')
}

// Whether a byte is of a class.
pub fn is_of(class: Class, byte: u8) -> bool
    ensures { result ≡ is_of class byte }
{
    match class {
        Class::Digit => matches!(byte, b'0'..=b'9'),
        Class::Hexadecimal => matches!(byte, b'0'..=b'9' | b'A'..=b'F'),
        Class::Capital => matches!(byte, b'A'..=b'Z'),
        Class::Identifier => is_alphanumeric(byte) || is_mark(byte),
        Class::Text => matches!(byte, 0x20..=0x7D),
        Class::Printable => matches!(byte, 0x20..=0x7E),
        Class::Value => byte != b';' && byte != b'|' && matches!(byte, 0x20..=0x7D),
        Class::Zero => byte == 0,
    }
}

// Whether every byte is of a class, for few bytes: one that is not ends the loop.
pub fn are_all(class: Class, bytes: &[u8]) -> bool
    ensures { result ≡ are_all class bytes.now }
{
    bytes.iter().all(|byte| is_of(class, *byte))
}

// The same for many bytes: no byte ends the loop, so that sixteen are tested at a time.
pub fn are_all_long(class: Class, bytes: &[u8]) -> bool
    ensures { result ≡ are_all class bytes.now }
{
    bytes
        .iter()
        .fold(true, |good, byte| good & is_of(class, *byte))
}

// Whether a name is an identifier.
#[tactic(auto, unfolding(crate::specs::Identifiers::is_identifier))]
pub fn is_identifier(name: &[u8]) -> bool
    ensures { result ≡ is_identifier name.now }
{
    matches!(name.len(), 1..=40)
        && is_alphanumeric(name[0])
        && are_all_long(Class::Identifier, name)
}
