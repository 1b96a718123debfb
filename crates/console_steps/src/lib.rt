// One line of the console (docs/CONSOLE.md): what it does to the state, and what it prints.
#![tactic(auto)]

ghost use Rattle.std.specs.Prelude.{◌≡◌, ◌≤◌, length};
ghost use Rattle.byte_strings.specs.Wrote.{Writes};
ghost use Rattle.console_words.specs.Words.{rest};
ghost use Rattle.console_steps.specs.Steps.{said, asked, after, Says};

use console_lines::Line;
use console_requests::Stepped;
use console_state::Console;

// What a line that hands nothing in prints.
fn say(console: Console, number: u64, line: Line, out: &mut [u8]) -> usize
    requires { 20480 ≤ length out.old }
    ensures writes { Writes out 0 (said console number line) result }
    ensures fits { result ≤ length out.old }
{
    match line {
        Line::Rows => console_rows::put_rows(out, console.tables),
        Line::Usable(k) => {
            let yes = entry_usable::is_usable_in(console.tables, k);
            console_answers::put_usable(out, number, yes)
        }
        Line::Show => console_show::put_show(out, console.tables),
        _ => 0,
    }
}

// One line, which has the number `number`.
pub fn step(console: Console, number: u64, line: &[u8], out: &mut [u8]) -> Stepped
    requires { 20480 ≤ length out.old }
    ensures console_value { result.console ≡ after console (asked console line.now) (rest line.now) }
    ensures printed { Says console number (asked console line.now) (rest line.now)
        out.old out.new result.length }
    ensures fits { result.length ≤ length out.old }
{
    let rest = console_words::rest(line);
    match console_state::checked(console.tables, console_lines::line_of(line)) {
        None => Stepped {
            console,
            length: console_answers::put_other(out, number),
        },
        Some(Line::Send) => {
            console_requests::send(console, number, byte_strings::front(rest, 2043), out)
        }
        Some(Line::Raw) => {
            console_requests::send_octets(console, number, byte_strings::front(rest, 4092), out)
        }
        Some(asked) => {
            let length = say(console, number, asked, out);
            Stepped {
                console: console_state::set_by(console, asked, rest),
                length,
            }
        }
    }
}
