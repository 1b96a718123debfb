// Byte strings cut at a delimiter that ends each piece.
#![tactic(auto)]

ghost use Rattle.std.specs.Prelude.{◌≡◌, ◌+◌, ◌≤◌, length, drop};
ghost use Rattle.byte_strings.specs.Strings.{is_not, run};

// Where the piece that starts at a place ends: at its delimiter, or at the end of the bytes.
pub fn piece_end(bytes: &[u8], at: usize, delimiter: u8) -> usize
    requires { at ≤ length bytes.now }
    ensures value { result ≡ at + run (is_not delimiter) (drop at bytes.now) }
    ensures within { result ≤ length bytes.now }
{
    at + byte_spans::until(&bytes[at..], delimiter)
}
