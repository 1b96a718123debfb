// A decision with what it was made of: where the parts of the request stand that its command goes on to use. They were
// found by the questions, and are not looked for again.
#![tactic(auto)]

ghost use Rattle.std.specs.Prelude.{◌≡◌};
ghost use Rattle.engine.specs.declared.Decision.TheVariants.{Refuse};

use byte_bounds::Bounds;
use card_attributes::ROWS;
use engine::{Decision, Refusal};

// In the payload, the bounds of the slot's identifier, of the fingerprint and of the card; and in the card, those of
// the value of each attribute.
#[derive(Clone, Copy)]
pub struct Parts {
    pub slot: Bounds,
    pub fingerprint: Bounds,
    pub card: Bounds,
    pub values: [Bounds; ROWS],
}

// What is to be done, and with which parts of the payload.
#[derive(Clone, Copy)]
pub struct Decided {
    pub decision: Decision,
    pub parts: Parts,
}

// The parts that SM?KC uses.
pub fn start_parts(slot: Bounds, fingerprint: Bounds) -> Parts
    ensures slot_value { result.slot ≡ slot }
    ensures fingerprint { result.fingerprint ≡ fingerprint }
{
    let nowhere = Bounds { start: 0, end: 0 };
    Parts {
        slot,
        fingerprint,
        card: nowhere,
        values: [nowhere; ROWS],
    }
}

// The part that SM?KR uses.
pub fn open_parts(slot: Bounds) -> Parts
    ensures { result.slot ≡ slot }
{
    start_parts(slot, Bounds { start: 0, end: 0 })
}

// The parts that SM?KL uses.
pub fn load_parts(slot: Bounds, card: Bounds, values: [Bounds; ROWS]) -> Parts
    ensures slot_value { result.slot ≡ slot }
    ensures card { result.card ≡ card }
    ensures values { result.values ≡ values }
{
    let fingerprint = Bounds { start: 0, end: 0 };
    Parts {
        slot,
        fingerprint,
        card,
        values,
    }
}

// A decision that goes on to use no part.
pub fn without_parts(decision: Decision) -> Decided
    ensures { result.decision ≡ decision }
{
    let nowhere = Bounds { start: 0, end: 0 };
    let parts = start_parts(nowhere, nowhere);
    Decided { decision, parts }
}

// A refusal.
pub fn refuse(reason: Refusal) -> Decided
    ensures { result.decision ≡ Refuse reason }
{
    without_parts(Decision::Refuse(reason))
}
