// The incoming card of a KEY.1 record: what passes question 10, and where its values stand (document 01, Cards).
#![tactic(auto)]

ghost use Rattle.std.specs.Prelude.{◌≡◌, true, drop};
ghost use Rattle.card_attributes.specs.Table.{table};
ghost use Rattle.card_incoming.specs.Incoming.{fits, fits_first, index_of, has_noted, is_incoming, AreValues};

use byte_bounds::Bounds;
use card_attributes::{
    ACT, Attribute, BDT, CLM, CLU, DKG, IUT, KCV, KEN, KRN, KSL, KTC, Presence, ROWS, SBM, SGC,
    SGN, ULM, VND,
};
use text_classes::Class;

// Whether v may stand under the attribute.
fn fits(a: Attribute, v: &[u8]) -> bool
    ensures { result ≡ fits a v.now }
{
    let presence = a.1;
    let form = a.2;
    match presence {
        Presence::Required => text_forms::in_form(form, v),
        Presence::Optional => text_forms::in_form(form, v),
        Presence::Engine => {
            if v.len() < 1 {
                return false;
            }
            text_classes::are_all(Class::Value, v)
        }
        Presence::Kept => text_forms::in_form(form, v),
    }
}

// Whether v may stand under the attribute with an index, from ROWS on under an unknown name.
fn fits_at(index: usize, v: &[u8]) -> bool
    ensures { result ≡ fits_first (drop index table) v.now }
{
    if ROWS <= index {
        return text_classes::are_all(Class::Value, v);
    }
    let a = card_attributes::row(index);
    fits(a, v)
}

// The index of the attribute with a name, ROWS where none has it.
fn index_of(name: u32) -> usize
    ensures { result ≡ index_of table name }
{
    match name {
        ACT => 0,
        BDT => 1,
        CLM => 2,
        CLU => 3,
        DKG => 4,
        IUT => 5,
        KCV => 6,
        KEN => 7,
        KRN => 8,
        KSL => 9,
        KTC => 10,
        SBM => 11,
        SGC => 12,
        SGN => 13,
        ULM => 14,
        VND => 15,
        _ => ROWS,
    }
}

// Whether the value of every required attribute was noted.
fn has_required(values: [Bounds; ROWS]) -> bool
    ensures { result ≡ has_noted table 0 values }
{
    let act = values[0].start != 0;
    let bdt = values[1].start != 0;
    let dkg = values[4].start != 0;
    let ken = values[7].start != 0;
    let krn = values[8].start != 0;
    let ktc = values[10].start != 0;
    let sgc = values[12].start != 0;
    act & (bdt & (dkg & (ken & (krn & (ktc & sgc)))))
}

// An incoming card, read: whether it is in form; and where it is, the bounds of the value of each attribute by the
// attribute's index, 0 and 0 where the card has none.
#[derive(Clone, Copy)]
pub struct Incoming {
    pub in_form: bool,
    pub values: [Bounds; ROWS],
}

// Reads an incoming card in one pass.
pub fn read_card(card: &[u8]) -> Incoming
    ensures in_form_value { result.in_form ≡ is_incoming card.now }
    ensures values { result.in_form ≡ true → AreValues result.values card.now }
{
    let mut read = Incoming {
        in_form: false,
        values: [Bounds { start: 0, end: 0 }; ROWS],
    };
    let mut at = 0;
    let mut last = 0;
    while at < card.len() {
        let end = byte_pieces::piece_end(card, at, b';');
        if card.len() <= end {
            return read;
        }
        let name = card_entries::name_of(&card[at..end]);
        if name <= last {
            return read;
        }
        let start = at + 3;
        let index = index_of(name);
        if !fits_at(index, &card[start..end]) {
            return read;
        }
        if index < ROWS {
            read.values[index] = Bounds { start, end };
        }
        last = name;
        at = end + 1;
    }
    let values = read.values;
    read.in_form = has_required(values);
    read
}
