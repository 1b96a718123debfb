// A request that the console hands in (docs/CONSOLE.md), as text or as octets, to the function that the library answers
// with; and the line of its answer.
#![tactic(auto)]

ghost use Rattle.std.specs.Prelude.{◌≡◌, ◌≤◌, length};
ghost use Rattle.message_frames.specs.Frames.{framed};
ghost use Rattle.console_octets.specs.Octets.{octets_of};
ghost use Rattle.console_requests.specs.Requests.{room, answered_by, SaysAnswer};

use console_state::Console;
use row_types::{Counts, Tables};

// The state after a line, and how many bytes were printed.
#[derive(Clone, Copy)]
pub struct Stepped {
    pub console: Console,
    pub length: usize,
}

// How many bytes of response buffer are lent.
#[tactic(auto, unfolding(crate::specs::Requests::room))]
fn room(console: Console) -> usize
    ensures value { result ≡ room console }
    ensures small { result ≤ 2048 }
{
    console.room.min(2048)
}

// Hands in a request, and prints its answer.
fn hand_in(console: Console, number: u64, request: &[u8], out: &mut [u8]) -> Stepped
    requires { 20480 ≤ length out.old }
    ensures console_value { result.console ≡ answered_by console request.now }
    ensures printed { SaysAnswer console number request.now
        out.old out.new result.length }
    ensures fits { result.length ≤ length out.old }
{
    let mut response = [b'.'; 2048];
    let tables = console.tables;
    let counts = Counts {
        slots: tables.slot_count,
        registers: tables.register_count,
    };
    let answer = entry_numbers::answer_rows(
        tables.slots,
        tables.registers,
        counts,
        console.supplement,
        request,
        &mut response[..room(console)],
    );
    let reply = answer.reply;
    let length = console_answers::put_answer(
        out,
        number,
        reply.outcome,
        reply.state,
        &response[..reply.length],
    );
    let slots = answer.slots;
    let registers = answer.registers;
    let left = Tables {
        slots,
        registers,
        ..tables
    };
    Stepped {
        console: console_state::with_tables(console, left),
        length,
    }
}

// Hands in a text with its checksum and carriage return.
pub fn send(console: Console, number: u64, text: &[u8], out: &mut [u8]) -> Stepped
    requires { (length text.now ≤ 2043) × (20480 ≤ length out.old) }
    ensures console_value { result.console ≡ answered_by console (framed text.now) }
    ensures printed { SaysAnswer console number (framed text.now)
        out.old out.new result.length }
    ensures fits { result.length ≤ length out.old }
{
    let mut request = [b'.'; 2048];
    let n = byte_strings::put(&mut request, 0, text);
    let m = message_writer::close_message(&mut request, n);
    hand_in(console, number, &request[..m], out)
}

// Hands in the octets of digits.
pub fn send_octets(console: Console, number: u64, digits: &[u8], out: &mut [u8]) -> Stepped
    requires { (length digits.now ≤ 4096) × (20480 ≤ length out.old) }
    ensures console_value { result.console ≡ answered_by console (octets_of digits.now) }
    ensures printed { SaysAnswer console number (octets_of digits.now)
        out.old out.new result.length }
    ensures fits { result.length ≤ length out.old }
{
    let mut request = [b'.'; 2048];
    let n = console_octets::put_octets(&mut request, digits);
    hand_in(console, number, &request[..n], out)
}
