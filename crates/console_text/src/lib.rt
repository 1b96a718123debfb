// Bytes of a row shown as text: what stands before the first zero, with a full stop for each byte that is no text, and
// - for nothing.
#![tactic(auto)]

ghost use Rattle.std.specs.Prelude.{◌≡◌, [], ◌∷◌, ◌++◌, map, ◌+◌, ◌≤◌, ◌<◌, length};
ghost use Rattle.byte_strings.specs.Wrote.{Writes};
ghost use Rattle.console_text.specs.Texts.{legible, or_dash, shown};

use text_classes::Class;

// Writes a byte that is text, and a full stop for another.
#[tactic(auto, unfolding(crate::specs::Texts::legible))]
fn put_legible(dst: &mut [u8], at: usize, b: u8) -> usize
    requires { at < length dst.old }
    ensures { Writes dst at (legible b ∷ []) result }
{
    let shown = if text_classes::is_of(Class::Text, b) {
        b
    } else {
        b'.'
    };
    byte_strings::put_byte(dst, at, shown)
}

fn put_text(dst: &mut [u8], at: usize, s: &[u8]) -> usize
    requires { at + length s.now ≤ length dst.old }
    ensures writes { Writes dst at (map legible s.now) result }
    ensures short { result ≡ at + length s.now }
{
    let mut end = at;
    for b in s {
        end = put_legible(dst, end, *b);
    }
    end
}

// The bytes, or - for none.
fn or_dash(bytes: &[u8]) -> &[u8]
    ensures { result.now ≡ or_dash bytes.now }
{
    if bytes.is_empty() { b"-" } else { bytes }
}

// Writes bytes as text and the byte that stands after it.
#[tactic(auto, using(row_types::proofs::ListLaws::trimmed_short, crate::proofs::TextLaws::dash_short))]
pub fn put_shown(dst: &mut [u8], at: usize, bytes: &[u8], after: u8) -> usize
    requires { at + length bytes.now + 2 ≤ length dst.old }
    ensures writes { Writes dst at (shown bytes.now ++ (after ∷ [])) result }
    ensures short { result ≤ at + length bytes.now + 2 }
{
    let end = put_text(dst, at, or_dash(slot_tests::trimmed(bytes)));
    byte_strings::put_byte(dst, end, after)
}
