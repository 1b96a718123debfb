// Bytes that fit a pattern, byte by byte.
#![tactic(auto)]

ghost use Rattle.std.specs.Prelude.{◌≡◌, ◌+◌, ◌≤◌, ◌&&◌, true, length, drop, fold, zip};
ghost use Rattle.text_patterns.specs.Patterns.{fits_byte, fits};

// Whether a byte fits one of a pattern. Nothing here branches, so that many bytes are compared at a time.
#[tactic(auto, unfolding(crate::specs::Patterns::fits_byte))]
fn fits_byte(p: u8, b: u8) -> bool
    ensures { result ≡ fits_byte p b }
{
    let smaller = (p <= b'9') & ((b'0' <= b) & (b <= p));
    let hexadecimal = ((b'0' <= b) & (b <= b'9')) | ((b'A' <= b) & (b <= b'F'));
    (p == b) | (smaller | ((p == b'F') & hexadecimal))
}

// Whether each byte fits the one at its place in the pattern, as far as both go. No byte ends the loop, so that many
// are compared at a time.
fn fit(pattern: &[u8], bytes: &[u8]) -> bool
    ensures { result ≡ fold (λ good p. good && fits_byte p.0 p.1) true (zip pattern.now bytes.now) }
{
    pattern
        .iter()
        .zip(bytes)
        .fold(true, |good, (p, b)| good & fits_byte(*p, *b))
}

// Whether what stands in the bytes from a place on fits a pattern.
pub fn fits(bytes: &[u8], at: usize, pattern: &[u8]) -> bool
    requires { at + length pattern.now ≤ length bytes.now }
    ensures { result ≡ fits pattern.now (drop at bytes.now) }
{
    fit(pattern, &bytes[at..at + pattern.len()])
}
