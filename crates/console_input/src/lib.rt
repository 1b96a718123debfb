// The line that is being read: its bytes come in parts, as standard input is read (docs/CONSOLE.md). Of a line that is
// too long the first 4,097 bytes tell so.
#![tactic(auto)]

ghost use Rattle.std.specs.Prelude.{◌≡◌, [], ◌++◌, ◌≤◌, length, take};
ghost use Rattle.console_input.specs.Input.{held, next_number};

// The bytes so far are the first `length`.
#[derive(Clone, Copy)]
pub struct Pending {
    pub bytes: [u8; 4097],
    pub length: usize,
}

// No byte yet.
pub fn nothing() -> Pending
    ensures { held result ≡ [] }
{
    Pending {
        bytes: [0; 4097],
        length: 0,
    }
}

// The bytes so far, and more.
pub fn added(pending: Pending, more: &[u8]) -> Pending
    ensures { held result ≡ take 4097 (held pending ++ more.now) }
{
    if pending.bytes.len() < pending.length {
        return pending;
    }
    let mut bytes = pending.bytes;
    let fits = byte_strings::front(more, bytes.len() - pending.length);
    let length = byte_strings::put(&mut bytes, pending.length, fits);
    Pending { bytes, length }
}

// The number of the next line.
#[tactic(auto, unfolding(crate::specs::Input::next_number))]
pub fn next_number(number: u64) -> u64
    ensures { result ≡ next_number number }
{
    number.saturating_add(1)
}
