// The rows for people: what the line `show` of the console prints (docs/CONSOLE.md).
#![tactic(auto)]

ghost use Rattle.std.specs.Prelude.{◌+◌, ◌≤◌, length};
ghost use Rattle.byte_strings.specs.Wrote.{Writes};
ghost use Rattle.console_show.specs.Shown.{shown_rows};

use row_types::Tables;

// The counts, and each row that is not all zero.
#[tactic(auto, unfolding(crate::specs::Shown::register_in))]
pub fn put_show(dst: &mut [u8], tables: Tables) -> usize
    requires { 10616 ≤ length dst.old }
    ensures writes { Writes dst 0 (shown_rows tables) result }
    ensures fits { result ≤ length dst.old }
{
    let counts = console_shown_rows::put_counts(dst, tables);
    let slots = console_prints::put_each(
        dst,
        counts,
        &tables.slots,
        105,
        console_shown_rows::put_slot,
    );
    console_prints::put_each(dst, slots, &tables.registers, 303, |dst, at, index, row| {
        let yes = entry_usable::is_usable_in(tables, index + 1);
        console_shown_rows::put_register(dst, at, index, yes, row)
    })
}
