// The rows as the line `rows` of the console prints them (docs/CONSOLE.md): each in the form of the line that sets it.
#![tactic(auto)]

ghost use Rattle.std.specs.Prelude.{◌+◌, ◌≤◌, length};
ghost use Rattle.byte_strings.specs.Wrote.{Writes};
ghost use Rattle.console_rows.specs.Rows.{row_lines};

use row_types::Tables;

// Each row that is not all zero, in the form of the line that sets it.
pub fn put_rows(dst: &mut [u8], tables: Tables) -> usize
    requires { 18848 ≤ length dst.old }
    ensures writes { Writes dst 0 (row_lines tables) result }
    ensures fits { result ≤ length dst.old }
{
    let end = console_prints::put_each(dst, 0, &tables.slots, 180, console_row_lines::put_slot);
    console_prints::put_each(
        dst,
        end,
        &tables.registers,
        544,
        console_row_lines::put_register,
    )
}
