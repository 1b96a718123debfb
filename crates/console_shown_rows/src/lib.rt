// One row for people, as the line `show` of the console prints it (docs/CONSOLE.md), and how many rows there are.
#![tactic(auto)]

ghost use Rattle.std.specs.Prelude.{◌≡◌, [], ◌∷◌, ◌++◌, ◌+◌, ◌≤◌, ◌<◌, length};
ghost use Rattle.byte_strings.specs.Texts.{text};
ghost use Rattle.byte_strings.specs.Wrote.{Writes};
ghost use Rattle.console_prints.specs.Prints.{line_bytes};
ghost use Rattle.console_text.specs.Texts.{shown};
ghost use Rattle.console_shown_rows.specs.OneRow.{usable_shown, slot_shown, mark_shown, register_shown};
ghost use Rattle.console_shown_rows.specs.OneRow.{counts_shown};

use row_types::{CLOSED, OPEN, RegisterRow, SlotRow, Tables};

// The last three words of a slot row's line.
fn put_fields(dst: &mut [u8], at: usize, row: SlotRow) -> usize
    requires { at + 78 ≤ length dst.old }
    ensures writes { Writes dst at
        (line_bytes (shown row.kmcid ∷ shown row.fingerprint ∷ shown row.tvp ∷ [])) result }
    ensures short { result ≤ at + 78 }
{
    let a = console_text::put_shown(dst, at, &row.kmcid, b' ');
    let b = console_text::put_shown(dst, a, &row.fingerprint, b' ');
    console_text::put_shown(dst, b, &row.tvp, b'\n')
}

// One slot row, of a row that is all zero nothing; `index` counts from 0.
pub fn put_slot(dst: &mut [u8], at: usize, index: usize, row: SlotRow) -> usize
    requires { (index < 8) × (at + 105 ≤ length dst.old) }
    ensures writes { Writes dst at (slot_shown index row) result }
    ensures short { result ≤ at + 105 }
{
    let is_zero = slot_forms::is_zero_slot(row);
    if is_zero {
        return at;
    }
    let a = console_prints::put_word(dst, at, b"slot");
    let b = console_prints::put_number(dst, a, index as u32 + 1);
    let c = console_states::put_state(dst, b, row.state, b"?");
    put_fields(dst, c, row)
}

fn usable_shown(yes: bool) -> &'static [u8]
    ensures { result.now ≡ usable_shown yes }
{
    if yes { b"usable" } else { b"unusable" }
}

// Writes the name of a mark, or the number of no mark, and a space.
fn put_mark(dst: &mut [u8], at: usize, mark: u8) -> usize
    requires { at + 16 ≤ length dst.old }
    ensures writes { Writes dst at (mark_shown mark ++ text " ") result }
    ensures short { result ≤ at + 16 }
{
    match mark {
        CLOSED => console_prints::put_word(dst, at, b"closed"),
        OPEN => console_prints::put_word(dst, at, b"open"),
        _ => {
            let number = console_prints::put_word(dst, at, b"mark");
            console_prints::put_number(dst, number, mark as u32)
        }
    }
}

// The last three words of a register row's line.
fn put_key(dst: &mut [u8], at: usize, yes: bool, row: RegisterRow) -> usize
    requires { at + 283 ≤ length dst.old }
    ensures writes { Writes dst at
        (line_bytes (mark_shown row.mark ∷ usable_shown yes ∷ shown row.card ∷ [])) result }
    ensures short { result ≤ at + 283 }
{
    let a = put_mark(dst, at, row.mark);
    let b = console_prints::put_word(dst, a, usable_shown(yes));
    console_text::put_shown(dst, b, &row.card, b'\n')
}

// One register row, of a row that is all zero nothing; `index` counts from 0, and `yes` is whether its key may vend.
pub fn put_register(dst: &mut [u8], at: usize, index: usize, yes: bool, row: RegisterRow) -> usize
    requires { (index < 32) × (at + 303 ≤ length dst.old) }
    ensures writes { Writes dst at (register_shown yes index row) result }
    ensures short { result ≤ at + 303 }
{
    let is_zero = register_rows::is_zero_register(row);
    if is_zero {
        return at;
    }
    let a = console_prints::put_word(dst, at, b"register");
    let b = console_prints::put_number(dst, a, index as u32 + 1);
    put_key(dst, b, yes, row)
}

pub fn put_counts(dst: &mut [u8], tables: Tables) -> usize
    requires { 80 ≤ length dst.old }
    ensures writes { Writes dst 0 (counts_shown tables) result }
    ensures short { result ≤ 80 }
{
    let a = console_prints::put_long(dst, 0, tables.slot_count as u64);
    let b = console_prints::put_word(dst, a, b"slot rows,");
    let c = console_prints::put_long(dst, b, tables.register_count as u64);
    console_prints::put_last(dst, c, b"register rows")
}
