// The console's state (docs/CONSOLE.md), and what a line that hands nothing in does to it.
#![tactic(auto)]

ghost use Rattle.std.specs.Prelude.{◌≡◌};
ghost use Rattle.console_state.specs.State.{has_row, checked, with_tables, with_supplement, start, set_by};

use console_lines::Line;
use row_types::{Supplement, Tables};

// The tables, the supplement, and how many bytes of response buffer are lent.
#[derive(Clone, Copy)]
pub struct Console {
    pub tables: Tables,
    pub supplement: Supplement,
    pub room: usize,
}

// Whether the line sets no row, or one that the tables have.
fn has_row(tables: Tables, line: Line) -> bool
    ensures { result ≡ has_row tables line }
{
    match line {
        Line::Slot { row, .. } => row < tables.slot_count,
        Line::Register { row, .. } => row < tables.register_count,
        _ => true,
    }
}

// The line, or none where it sets a row that the tables lack.
pub fn checked(tables: Tables, line: Option<Line>) -> Option<Line>
    ensures { result ≡ checked tables line }
{
    line.filter(|line| has_row(tables, *line))
}

// The state with other tables.
pub fn with_tables(console: Console, tables: Tables) -> Console
    ensures { result ≡ with_tables tables console }
{
    Console { tables, ..console }
}

fn with_supplement(console: Console, supplement: Supplement) -> Console
    ensures { result ≡ with_supplement supplement console }
{
    Console {
        supplement,
        ..console
    }
}

// The state at the start.
#[tactic(auto, unfolding(crate::specs::State::start))]
pub fn start() -> Console
    ensures { result ≡ start }
{
    Console {
        tables: console_tables::empty_tables(8, 32),
        supplement: console_supplement::start_supplement(),
        room: 1024,
    }
}

// The state after a line that hands nothing in; `rest` is what stands after the line's first space.
pub fn set_by(console: Console, line: Line, rest: &[u8]) -> Console
    ensures { result ≡ set_by console line rest.now }
{
    match line {
        Line::Tables {
            slot_count,
            register_count,
        } => with_tables(
            console,
            console_tables::empty_tables(slot_count, register_count),
        ),
        Line::Buffer(room) => Console { room, ..console },
        Line::Set(part) => with_supplement(
            console,
            console_supplement::set_part(console.supplement, part, rest),
        ),
        Line::Passed(passed) => with_supplement(
            console,
            console_supplement::set_passed(console.supplement, passed),
        ),
        Line::Slot { row, state } => {
            let digits = console_words::rest(console_words::rest(rest));
            let slot = console_tables::slot_of(state, digits);
            with_tables(console, console_tables::set_slot(console.tables, row, slot))
        }
        Line::Register { row, mark } => {
            let digits = console_words::rest(console_words::rest(rest));
            let register = console_tables::register_of(mark, digits);
            with_tables(
                console,
                console_tables::set_register(console.tables, row, register),
            )
        }
        _ => console,
    }
}
