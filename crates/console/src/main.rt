// The console (docs/CONSOLE.md). What a line does and prints is `console_steps::step`; here lines are read and what
// they print is written.
#![tactic(auto)]

use console_input::Pending;
use console_state::Console;
use std::io;
use std::io::Read;

// The console, the line that is being read, and its number.
#[derive(Drop)]
struct Session {
    console: Console,
    pending: Pending,
    number: u64,
}

impl Session {
    // Adds bytes to the line that is being read.
    fn add(&mut self, more: &[u8]) {
        self.pending = console_input::added(self.pending, more);
    }

    // Takes the line that was read, and writes what it prints.
    fn take_line(&mut self, rt: &impl Print) -> io::Result<()> {
        let mut out = [0u8; 20480];
        let pending = self.pending;
        let stepped = console_steps::step(
            self.console,
            self.number,
            byte_strings::front(&pending.bytes, pending.length),
            &mut out,
        );
        rt.write_all(&out[..stepped.length])?;
        self.console = stepped.console;
        self.pending = console_input::nothing();
        self.number = console_input::next_number(self.number);
        Ok(())
    }

    // Takes each line that ends in what was read, and keeps what follows the last. A line feed is looked for many bytes
    // at a time.
    fn take_lines(&mut self, rt: &impl Print, read: &[u8]) -> io::Result<()> {
        let mut at = 0;
        while at < read.len() {
            let end = byte_pieces::piece_end(read, at, b'\n');
            self.add(&read[at..end]);
            if end < read.len() {
                self.take_line(rt)?;
            }
            at = end + 1;
        }
        Ok(())
    }

    // Reads to the end. Nothing says that an input ends, so the turns are counted, up to a number that no run uses up.
    fn read_all<R: Read>(&mut self, rt: &impl Print, input: &mut R) -> io::Result<()> {
        let mut space = [0u8; 65536];
        for _ in 0..u64::MAX {
            let count = input.read(&mut space)?;
            if count == 0 {
                break;
            }
            self.take_lines(rt, &space[..count])?;
        }
        Ok(())
    }
}

fn main(rt: HostRuntime) -> io::Result<()> {
    let mut session = Session {
        console: console_state::start(),
        pending: console_input::nothing(),
        number: 1,
    };
    session.read_all(&rt, &mut rt.stdin())?;
    if 0 < session.pending.length {
        session.take_line(&rt)?;
    }
    Ok(())
}
