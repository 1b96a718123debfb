// One register row (document 01, "Slots and registers"): whether its card's space is clear, whether all of it is zero,
// and a free row.
#![tactic(auto)]

ghost use Rattle.std.specs.Prelude.{◌≡◌};
ghost use Rattle.text_classes.specs.Classes.{are_all};
ghost use Rattle.text_classes.specs.declared.Class.TheVariants.{Zero};
ghost use Rattle.row_types.specs.Registers.{free_register};
ghost use Rattle.register_rows.specs.ZeroRegisters.{is_zero_register};

use row_types::{CLOSED, RegisterRow};
use text_classes::Class;

// Whether every byte of a card's space is zero. A card starts with a letter, so the first byte mostly tells.
#[tactic(auto, unfolding(text_classes::specs::Classes::are_all))]
pub fn is_clear(card: &[u8; 256]) -> bool
    ensures { result ≡ are_all Zero card.now }
{
    card[0] == 0 && text_classes::are_all_long(Class::Zero, card)
}

// Whether every byte of the row is zero, its mark too.
#[tactic(auto, unfolding(crate::specs::ZeroRegisters::is_zero_register))]
pub fn is_zero_register(row: RegisterRow) -> bool
    ensures { result ≡ is_zero_register row }
{
    row.mark == CLOSED && is_clear(&row.card)
}

// A free row.
#[tactic(auto, unfolding(row_types::specs::Registers::free_register))]
pub fn free_register() -> RegisterRow
    ensures { result ≡ free_register }
{
    RegisterRow {
        card: [0; 256],
        mark: CLOSED,
    }
}
