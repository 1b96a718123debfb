// One row as the line `rows` of the console prints it (docs/CONSOLE.md): in the form of the line that sets it.
#![tactic(auto)]

ghost use Rattle.std.specs.Prelude.{◌≡◌, [], ◌∷◌, ◌++◌, ◌+◌, ◌≤◌, ◌<◌, length};
ghost use Rattle.byte_strings.specs.Wrote.{Writes};
ghost use Rattle.console_octets.specs.Octets.{digits_of};
ghost use Rattle.console_prints.specs.Prints.{line_bytes};
ghost use Rattle.console_row_lines.specs.OneRow.{slot_line, register_line};

use row_types::{RegisterRow, SlotRow};

// Writes the digits of s and the byte that stands after them.
fn put_digits(dst: &mut [u8], at: usize, s: &[u8], after: u8) -> usize
    requires { at + (length s.now + length s.now) + 1 ≤ length dst.old }
    ensures writes { Writes dst at (digits_of s.now ++ (after ∷ [])) result }
    ensures short { result ≡ at + (length s.now + length s.now) + 1 }
{
    let end = console_octets::put_digits(dst, at, s);
    byte_strings::put_byte(dst, end, after)
}

// The last three words of a slot row's line.
fn put_fields(dst: &mut [u8], at: usize, row: SlotRow) -> usize
    requires { at + 147 ≤ length dst.old }
    ensures writes { Writes dst at
        (line_bytes (digits_of row.kmcid ∷ digits_of row.fingerprint ∷ digits_of row.tvp ∷ [])) result }
    ensures short { result ≤ at + 147 }
{
    let a = put_digits(dst, at, &row.kmcid, b' ');
    let b = put_digits(dst, a, &row.fingerprint, b' ');
    put_digits(dst, b, &row.tvp, b'\n')
}

// One slot row in the form of a line, of a row that is all zero nothing; `index` counts from 0.
pub fn put_slot(dst: &mut [u8], at: usize, index: usize, row: SlotRow) -> usize
    requires { (index < 8) × (at + 180 ≤ length dst.old) }
    ensures writes { Writes dst at (slot_line index row) result }
    ensures short { result ≤ at + 180 }
{
    let is_zero = slot_forms::is_zero_slot(row);
    if is_zero {
        return at;
    }
    let a = console_prints::put_word(dst, at, b"slot");
    let b = console_prints::put_number(dst, a, index as u32 + 1);
    let c = console_prints::put_number(dst, b, row.state as u32);
    put_fields(dst, c, row)
}

// One register row in the form of a line, of a row that is all zero nothing; `index` counts from 0.
pub fn put_register(dst: &mut [u8], at: usize, index: usize, row: RegisterRow) -> usize
    requires { (index < 32) × (at + 544 ≤ length dst.old) }
    ensures writes { Writes dst at (register_line index row) result }
    ensures short { result ≤ at + 544 }
{
    let is_zero = register_rows::is_zero_register(row);
    if is_zero {
        return at;
    }
    let a = console_prints::put_word(dst, at, b"register");
    let b = console_prints::put_number(dst, a, index as u32 + 1);
    let c = console_prints::put_number(dst, b, row.mark as u32);
    put_digits(dst, c, &row.card, b'\n')
}
