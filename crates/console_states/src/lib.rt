// The names of the slot states that the console prints (docs/CONSOLE.md).
#![tactic(auto)]

ghost use Rattle.std.specs.Prelude.{◌++◌, ◌+◌, ◌≤◌, length};
ghost use Rattle.byte_strings.specs.Texts.{text};
ghost use Rattle.byte_strings.specs.Wrote.{Writes};
ghost use Rattle.console_states.specs.States.{state_name};

// Writes the name of a state's number, or `other` for the number of no state, and a space.
#[tactic(auto, unfolding(crate::specs::States::state_name))]
pub fn put_state(dst: &mut [u8], at: usize, state: u8, other: &[u8]) -> usize
    requires { (at + 8 ≤ length dst.old) × (length other.now ≤ 7) }
    ensures writes { Writes dst at (state_name other.now state ++ text " ") result }
    ensures short { result ≤ at + 8 }
{
    let name: &[u8] = match state {
        0 => b"FREE",
        1 => b"PENDING",
        2 => b"LOADING",
        3 => b"IDLE",
        _ => other,
    };
    console_prints::put_word(dst, at, name)
}
