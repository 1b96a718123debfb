// The attributes of a card (001 Annex F Table F.1; document 01, Cards), ascending by name.
#![tactic(auto)]

ghost use Rattle.std.specs.Prelude.{◌≡◌, ◌∷◌, ◌+◌, ◌<◌, drop};
ghost use Rattle.card_attributes.specs.Table.{table, rows};

use text_forms::Form;

// The names, each as a number: its three letters, the first highest.
pub const ACT: u32 = 0x414354;

pub const BDT: u32 = 0x424454;

pub const CLM: u32 = 0x434C4D;

pub const CLU: u32 = 0x434C55;

pub const DKG: u32 = 0x444B47;

pub const IUT: u32 = 0x495554;

pub const KCV: u32 = 0x4B4356;

pub const KEN: u32 = 0x4B454E;

pub const KRN: u32 = 0x4B524E;

pub const KSL: u32 = 0x4B534C;

pub const KTC: u32 = 0x4B5443;

pub const SBM: u32 = 0x53424D;

pub const SGC: u32 = 0x534743;

pub const SGN: u32 = 0x53474E;

pub const ULM: u32 = 0x554C4D;

pub const VND: u32 = 0x564E44;

// Whether an incoming card must have the attribute, may have it with a default where it has not, the attribute belongs
// to the engine, or it is kept just where the incoming card has it.
#[derive(Clone, Copy)]
pub enum Presence {
    Required,
    Optional,
    Engine,
    Kept,
}

// Name, presence, and form of the value.
#[derive(Clone, Copy)]
pub struct Attribute(pub u32, pub Presence, pub Form);

pub const ROWS: usize = 16;

// An attribute by its index. A match, since a table that is indexed would be laid out anew at each call.
#[tactic(auto, unfolding(crate::specs::Table::table))]
pub fn row(index: usize) -> Attribute
    requires { index < rows }
    ensures { drop index table ≡ result ∷ drop (index + 1) table }
{
    match index {
        0 => Attribute(ACT, Presence::Required, Form::Timestamp),
        1 => Attribute(BDT, Presence::Required, Form::Timestamp),
        2 => Attribute(CLM, Presence::Optional, Form::Hex(8)),
        3 => Attribute(CLU, Presence::Engine, Form::Number(1, 0, 0)),
        4 => Attribute(DKG, Presence::Required, Form::Algorithm),
        5 => Attribute(IUT, Presence::Optional, Form::Timestamp),
        6 => Attribute(KCV, Presence::Engine, Form::Hex(6)),
        7 => Attribute(KEN, Presence::Required, Form::Number(3, 0, 255)),
        8 => Attribute(KRN, Presence::Required, Form::Number(1, 1, 9)),
        9 => Attribute(KSL, Presence::Engine, Form::Name),
        10 => Attribute(KTC, Presence::Required, Form::Number(1, 0, 3)),
        11 => Attribute(SBM, Presence::Optional, Form::Hex(4)),
        12 => Attribute(SGC, Presence::Required, Form::Digits(10)),
        13 => Attribute(SGN, Presence::Kept, Form::Label(24)),
        14 => Attribute(ULM, Presence::Optional, Form::Number(9, 0, 999999999)),
        _ => Attribute(VND, Presence::Engine, Form::Number(9, 0, 999999999)),
    }
}
