// Byte strings in lent memory: written from a place on, compared, and their front.
#![tactic(auto)]

ghost use Rattle.std.specs.Prelude.{◌≡◌, [], ◌∷◌, ◌+◌, ◌≤◌, ◌<◌, ◌&&◌, true, eqb, length, take, fold, zip};
ghost use Rattle.byte_strings.specs.Wrote.{Writes};
ghost use Rattle.byte_strings.specs.Strings.{same_bytes};

// Writes one byte, and answers the place after it.
pub fn put_byte(dst: &mut [u8], at: usize, byte: u8) -> usize
    requires { at < length dst.old }
    ensures { Writes dst at (byte ∷ []) result }
{
    dst[at] = byte;
    at + 1
}

// Writes all of src, and answers the place after it.
pub fn put(dst: &mut [u8], at: usize, src: &[u8]) -> usize
    requires { at + length src.now ≤ length dst.old }
    ensures { Writes dst at src.now result }
{
    for (i, byte) in src.iter().enumerate() {
        dst[at + i] = *byte;
    }
    at + src.len()
}

// Whether two byte strings are the same.
pub fn same_bytes(left: &[u8], right: &[u8]) -> bool
    ensures { result ≡ same_bytes left.now right.now }
{
    left == right
}

// Whether each byte is the one at its own place in the other string, as far as both go. No byte ends the loop.
fn same_places(left: &[u8], right: &[u8]) -> bool
    ensures { result ≡ fold (λ same p. same && eqb p.0 p.1) true (zip left.now right.now) }
{
    left.iter()
        .zip(right)
        .fold(true, |same, (l, r)| same & (l == r))
}

// The same, for a secret: no byte ends the loop, so that the time taken does not tell where two strings of one length
// differ.
#[tactic(auto, using(crate::proofs::StringLaws::same_length))]
pub fn same_secret(left: &[u8], right: &[u8]) -> bool
    ensures { result ≡ same_bytes left.now right.now }
{
    left.len() == right.len() && same_places(left, right)
}

// The first bytes up to a count, or all where there are fewer.
pub fn front<'a>(bytes: &'a [u8], count: usize) -> &'a [u8]
    ensures result_value { result.now ≡ take count bytes.now }
    ensures short { length result.now ≤ count }
{
    &bytes[..bytes.len().min(count)]
}
