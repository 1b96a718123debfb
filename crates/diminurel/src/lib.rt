// The entry points for callers in any language, over the rows that the caller lends, of any number (document 01, "What
// the caller lends"): the rows are loaded into tables, answered by value and in numbers, and stored back.
#![tactic(auto)]

ghost use Rattle.std.specs.Prelude.{◌≡◌};
ghost use Rattle.engine.specs.Usable.{is_usable};
ghost use Rattle.entry_contracts.specs.Numbers.{yes_byte};
ghost use Rattle.entry_contracts.specs.Handles.{Handled};
ghost use Rattle.entry_contracts.specs.Lent.{lent_tables};

use entry_contracts::Reply;
use row_types::{Counts, RegisterRow, SlotRow, Supplement};

// Handles a request. Questions 1 and 2 are asked before a row is loaded, and a refusal stores none.
#[unsafe(no_mangle)]
pub extern "C" fn diminurel_handle(
    slots: &mut [SlotRow],
    registers: &mut [RegisterRow],
    supplement: Supplement,
    request: &[u8],
    response: &mut [u8],
) -> Reply
    ensures { Handled slots registers supplement request response result }
{
    let first = decide_counts::first_refusal(slots.len(), registers.len(), response.len());
    if first != 0 {
        return Reply {
            outcome: first,
            state: 255,
            length: 0,
        };
    }
    let mut cards = row_lending::load_cards(registers);
    let marks = row_lending::load_marks(registers);
    let a = entry_numbers::answer(
        row_lending::load_slots(slots),
        Counts {
            slots: slots.len(),
            registers: registers.len(),
        },
        &mut cards,
        marks,
        supplement,
        request,
        response,
    );
    if a.reply.outcome != 0 {
        return a.reply;
    }
    row_lending::store_slots(slots, a.slots);
    row_lending::store_cards(registers, &cards);
    row_lending::store_marks(registers, a.marks);
    a.reply
}

// Whether the key in a register, counted from 1, may vend: 1 for yes, 0 for no.
#[unsafe(no_mangle)]
pub extern "C" fn diminurel_usable(
    slots: &[SlotRow],
    registers: &[RegisterRow],
    register: usize,
) -> u8
    ensures { result ≡ yes_byte (is_usable (lent_tables slots.now registers.now) register) }
{
    let cards = row_lending::load_cards(registers);
    let marks = row_lending::load_marks(registers);
    entry_numbers::usable(
        row_lending::load_slots(slots),
        Counts {
            slots: slots.len(),
            registers: registers.len(),
        },
        &cards,
        marks,
        register,
    )
}
