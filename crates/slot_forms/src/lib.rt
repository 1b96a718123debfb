// What question 3 asks of one slot row (document 01, "Slots and registers"): whether it is free with every byte
// zero, or filled in form.
#![tactic(auto)]

ghost use Rattle.std.specs.Prelude.{◌≡◌, cond, ◌&&◌, drop};
ghost use Rattle.byte_strings.specs.Strings.{is_not, run};
ghost use Rattle.text_classes.specs.Classes.{are_all};
ghost use Rattle.text_classes.specs.Identifiers.{is_identifier};
ghost use Rattle.text_classes.specs.declared.Class.TheVariants.{Zero};
ghost use Rattle.text_timestamps.specs.Timestamps.{is_timestamp};
ghost use Rattle.row_types.specs.Lists.{trimmed};
ghost use Rattle.row_types.specs.Slots.{is_zero_slot, is_filled_slot, is_slot_sound};

use row_types::{SlotRow, SlotState};
use text_classes::Class;
use text_forms::Form;

fn is_zero(bytes: &[u8]) -> bool
    ensures { result ≡ are_all Zero bytes.now }
{
    text_classes::are_all(Class::Zero, bytes)
}

// Whether every byte of the row is zero.
#[tactic(auto, unfolding(row_types::specs::Slots::is_zero_slot))]
pub fn is_zero_slot(row: SlotRow) -> bool
    ensures { result ≡ is_zero_slot row }
{
    row.state == 0 && is_zero(&row.kmcid) && is_zero(&row.fingerprint) && is_zero(&row.tvp)
}

// Whether the bytes are a KMCID with zeros after it.
#[tactic(auto, unfolding(row_types::specs::Lists::trimmed))]
fn is_kmcid(bytes: &[u8]) -> bool
    ensures { result ≡ (is_identifier (trimmed bytes.now)
        && are_all Zero (drop (run (is_not 0) bytes.now) bytes.now)) }
{
    let end = byte_pieces::piece_end(bytes, 0, 0);
    text_classes::is_identifier(&bytes[..end]) && is_zero(&bytes[end..])
}

// Whether the bytes are the TVP of a slot not free: a timestamp where it is PENDING, and else zero.
fn is_tvp(pending: bool, bytes: &[u8]) -> bool
    ensures { result ≡ cond pending (is_timestamp bytes.now) (are_all Zero bytes.now) }
{
    if pending {
        text_forms::in_form(Form::Timestamp, bytes)
    } else {
        is_zero(bytes)
    }
}

// Whether the fields of a slot not free are in form.
#[tactic(auto, unfolding(row_types::specs::Slots::is_filled_slot))]
fn is_filled_slot(row: SlotRow) -> bool
    ensures { result ≡ is_filled_slot row }
{
    is_kmcid(&row.kmcid)
        && text_forms::in_form(Form::Hex(16), &row.fingerprint)
        && is_tvp(slot_tests::has_state(row, SlotState::Pending), &row.tvp)
}

// Whether the row is sound by itself.
#[tactic(auto, unfolding(row_types::specs::Slots::is_slot_sound))]
pub fn is_slot_sound(row: SlotRow) -> bool
    ensures { result ≡ is_slot_sound row }
{
    is_zero_slot(row) || matches!(row.state, 1..=3) && is_filled_slot(row)
}
