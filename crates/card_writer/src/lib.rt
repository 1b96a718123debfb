// Writes the stored card, which has fifteen attributes and SGN where the incoming card has it, from an incoming one
// (document 01, Cards; document 02, N2).
#![tactic(auto)]

ghost use Rattle.std.specs.Prelude.{◌≡◌, not, ◌||◌, [], ◌+◌, ◌≤◌, ◌<◌, eqb, length};
ghost use Rattle.byte_strings.specs.Wrote.{Writes};
ghost use Rattle.byte_strings.specs.Texts.{text};
ghost use Rattle.card_attributes.specs.Table.{name, is_always};
ghost use Rattle.card_entries.specs.Entries.{entry_bytes, or_else, value_of, value_or};
ghost use Rattle.card_incoming.specs.Incoming.{IsValue, AreValues};
ghost use Rattle.card_stored.specs.Stored.{load_values, default_card, stored_value, stored_card, in_row};
ghost use Rattle.card_writer.specs.Written.{written_of};

use byte_bounds::Bounds;
use card_attributes::{Attribute, CLM, CLU, IUT, KCV, KSL, Presence, ROWS, SBM, ULM, VND};

// What a load is made of: the incoming card, and the engine's own values of KCV and KSL.
#[derive(Clone, Copy)]
struct Load<'a> {
    card: &'a [u8],
    check: &'a [u8],
    slot: &'a [u8],
}

// Writes an entry.
fn put_entry(dst: &mut [u8], at: usize, name: u32, v: &[u8]) -> usize
    requires { (name < 16777216) × (at + length v.now + 4 ≤ length dst.old) }
    ensures { Writes dst at (entry_bytes name v.now) result }
{
    let a = byte_strings::put(dst, at, &name.to_be_bytes()[1..]);
    let b = byte_strings::put(dst, a, v);
    byte_strings::put_byte(dst, b, b';')
}

// The value of the default card under a name; no byte, where it has none.
#[tactic(auto, using(crate::proofs::LoadLaws::default_is))]
fn default_value(name: u32) -> &'static [u8]
    ensures { result.now ≡ or_else (value_of name default_card) [] }
{
    match name {
        CLM => b"FFFFFFFF",
        IUT => b"20380119T031407Z",
        SBM => b"FFFF",
        ULM => b"999999999",
        _ => b"",
    }
}

// The value of the incoming card under a name, else that of the default card.
fn card_value(card: &[u8], name: u32, bounds: Bounds) -> &[u8]
    requires { IsValue card.now name bounds }
    ensures { result.now ≡ value_or name card.now default_card }
{
    if bounds.start == 0 {
        return default_value(name);
    }
    byte_bounds::part(card, bounds)
}

// The value that a load stores under a name: the engine's own, else the incoming card's, else the default card's.
#[tactic(auto, unfolding(card_stored::specs::Stored::stored_value))]
fn load_value<'a>(load: &Load<'a>, name: u32, bounds: Bounds) -> &'a [u8]
    requires { IsValue load.now.card.now name bounds }
    ensures { result.now
        ≡ stored_value load.now.card.now (load_values load.now.check.now load.now.slot.now) name }
{
    match name {
        CLU | VND => b"0",
        KCV => load.check,
        KSL => load.slot,
        _ => card_value(load.card, name, bounds),
    }
}

// Whether the stored card has an entry of an attribute of this presence, whose value in the incoming card has the
// bounds.
fn has_entry(presence: Presence, bounds: Bounds) -> bool
    ensures { result ≡ (is_always presence || not (eqb bounds.start 0)) }
{
    match presence {
        Presence::Required | Presence::Optional | Presence::Engine => true,
        Presence::Kept => bounds.start != 0,
    }
}

// Writes the entry of an attribute, where the stored card has it.
fn put_attribute(dst: &mut [u8], at: usize, load: &Load, a: Attribute, bounds: Bounds) -> usize
    requires { IsValue load.now.card.now (name a) bounds × (name a < 16777216)
        × (at + length (written_of load.now.card.now (load_values load.now.check.now load.now.slot.now) a)
        ≤ length dst.old) }
    ensures { Writes dst at
        (written_of load.now.card.now (load_values load.now.check.now load.now.slot.now) a) result }
{
    let Attribute(name, presence, _) = a;
    if !has_entry(presence, bounds) {
        return at;
    }
    put_entry(dst, at, name, load_value(load, name, bounds))
}

// Writes the card that a load stores from the start on.
fn put_stored(dst: &mut [u8], load: &Load, values: [Bounds; ROWS]) -> usize
    requires { AreValues values load.now.card.now
        × (length (stored_card load.now.card.now (load_values load.now.check.now load.now.slot.now)) ≤ length dst.old) }
    ensures { Writes dst 0
        (stored_card load.now.card.now (load_values load.now.check.now load.now.slot.now)) result }
{
    let mut at = 0;
    for (k, bounds) in values.iter().enumerate() {
        at = put_attribute(dst, at, load, card_attributes::row(k), *bounds);
    }
    at
}

// The card that a load stores of an incoming one, its values at the bounds that were found: 256 bytes, zero after its
// end.
pub fn write_stored<'a>(
    card: &'a [u8],
    values: [Bounds; ROWS],
    check: &'a [u8],
    slot: &'a [u8],
) -> [u8; 256]
    requires { AreValues values card.now
        × (length (stored_card card.now (load_values check.now slot.now)) ≤ 256) }
    ensures { result
        ≡ in_row (stored_card card.now (load_values check.now slot.now)) }
{
    let mut row = [0u8; 256];
    put_stored(&mut row, &Load { card, check, slot }, values);
    row
}
