// A line of the console (docs/CONSOLE.md): what it asks for. What it asks it with stands after its first space, and is
// not in the answer.
#![tactic(auto)]

ghost use Rattle.std.specs.Prelude.{◌≡◌};
ghost use Rattle.console_lines.specs.Lines.{tables_line, buffer_line, part_line, passed_line, send_line, raw_line};
ghost use Rattle.console_lines.specs.Lines.{slot_line, register_line, usable_line, alone_line, rest_line, line_of};

use console_verbs::{Part, Verb};

// What a line asks for. A row is a place among the rows, counted from 0.
#[derive(Clone, Copy)]
pub enum Line {
    Nothing,
    Tables {
        slot_count: usize,
        register_count: usize,
    },
    Buffer(usize),
    Set(Part),
    Passed(u8),
    Send,
    Raw,
    Slot {
        row: usize,
        state: u8,
    },
    Register {
        row: usize,
        mark: u8,
    },
    Rows,
    Usable(usize),
    Show,
}

#[tactic(auto, using(text_decimals::proofs::NumberLaws::number_short))]
fn tables_line(r: &[u8]) -> Option<Line>
    ensures { result ≡ tables_line r.now }
{
    if !console_forms::are_tables(r) {
        return None;
    }
    Some(Line::Tables {
        slot_count: text_decimals::decimal(console_words::word(r)) as usize,
        register_count: text_decimals::decimal(console_words::rest(r)) as usize,
    })
}

#[tactic(auto, using(text_decimals::proofs::NumberLaws::number_short))]
fn buffer_line(r: &[u8]) -> Option<Line>
    ensures { result ≡ buffer_line r.now }
{
    if !text_decimals::is_number(4, 0, 2048, r) {
        return None;
    }
    Some(Line::Buffer(text_decimals::decimal(r) as usize))
}

fn part_line(p: Part, r: &[u8]) -> Option<Line>
    ensures { result ≡ part_line p r.now }
{
    (r.len() <= 1024).then_some(Line::Set(p))
}

fn passed_line(r: &[u8]) -> Option<Line>
    ensures { result ≡ passed_line r.now }
{
    if byte_strings::same_bytes(r, b"yes") {
        Some(Line::Passed(1))
    } else if byte_strings::same_bytes(r, b"no") {
        Some(Line::Passed(0))
    } else {
        None
    }
}

fn send_line(r: &[u8]) -> Option<Line>
    ensures { result ≡ send_line r.now }
{
    (r.len() <= 2043).then_some(Line::Send)
}

fn raw_line(r: &[u8]) -> Option<Line>
    ensures { result ≡ raw_line r.now }
{
    (r.len() <= 4092 && field_values::is_octets(r)).then_some(Line::Raw)
}

#[tactic(auto, using(crate::proofs::Numbers::number_bounds))]
fn slot_line(r: &[u8]) -> Option<Line>
    ensures { result ≡ slot_line r.now }
{
    if !console_forms::is_slot(r) {
        return None;
    }
    Some(Line::Slot {
        row: text_decimals::decimal(console_words::word(r)) as usize - 1,
        state: text_decimals::decimal(console_words::word(console_words::rest(r))) as u8,
    })
}

#[tactic(auto, using(crate::proofs::Numbers::number_bounds))]
fn register_line(r: &[u8]) -> Option<Line>
    ensures { result ≡ register_line r.now }
{
    if !console_forms::is_register(r) {
        return None;
    }
    Some(Line::Register {
        row: text_decimals::decimal(console_words::word(r)) as usize - 1,
        mark: text_decimals::decimal(console_words::word(console_words::rest(r))) as u8,
    })
}

#[tactic(auto, using(text_decimals::proofs::NumberLaws::number_short))]
fn usable_line(r: &[u8]) -> Option<Line>
    ensures { result ≡ usable_line r.now }
{
    if !text_decimals::is_number(10, 0, 2147483647, r) {
        return None;
    }
    Some(Line::Usable(text_decimals::decimal(r) as usize))
}

// A line of one word.
fn alone_line(verb: Verb) -> Option<Line>
    ensures { result ≡ alone_line verb }
{
    match verb {
        Verb::Raw => Some(Line::Raw),
        Verb::Rows => Some(Line::Rows),
        Verb::Show => Some(Line::Show),
        _ => None,
    }
}

// A line whose first word is followed by a space.
fn rest_line(verb: Verb, r: &[u8]) -> Option<Line>
    ensures { result ≡ rest_line verb r.now }
{
    match verb {
        Verb::Tables => tables_line(r),
        Verb::Buffer => buffer_line(r),
        Verb::Set(p) => part_line(p, r),
        Verb::Passed => passed_line(r),
        Verb::Send => send_line(r),
        Verb::Raw => raw_line(r),
        Verb::Slot => slot_line(r),
        Verb::Register => register_line(r),
        Verb::Usable => usable_line(r),
        _ => None,
    }
}

// What a line asks for; nothing where it is in no form.
#[tactic(auto, unfolding(crate::specs::Lines::line_of))]
pub fn line_of(line: &[u8]) -> Option<Line>
    ensures { result ≡ line_of line.now }
{
    if 4096 < line.len() {
        return None;
    }
    if let [] | [b'#', ..] = line {
        return Some(Line::Nothing);
    }
    let verb = console_verbs::verb_of(console_words::word(line))?;
    if console_words::has_rest(line) {
        rest_line(verb, console_words::rest(line))
    } else {
        alone_line(verb)
    }
}
