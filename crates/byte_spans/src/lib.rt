// How many bytes stand before a delimiter.
#![tactic(auto)]

ghost use Rattle.std.specs.Prelude.{◌≡◌, true, not, ◌==◌, ◌≤◌, length, take};
ghost use Rattle.std.specs.List.{prefix_len};
ghost use Rattle.byte_strings.specs.Strings.{is_not, run, all_of};

// Whether no byte is the delimiter. No byte ends the loop, so that many are compared at a time.
fn lacks(s: &[u8], delimiter: u8) -> bool
    ensures { result ≡ all_of (is_not delimiter) s.now }
{
    s.iter().fold(true, |none, b| none & (*b != delimiter))
}

// How many bytes stand before the first delimiter, or before the end, looked at one by one.
fn count(s: &[u8], delimiter: u8) -> usize
    ensures value { result ≡ prefix_len (λ b. not (b == delimiter)) s.now }
    ensures short { result ≤ length s.now }
{
    s.iter().take_while(|b| **b != delimiter).count()
}

// A place before which no delimiter stands: sixteen bytes after the first sixteen, as often as none of them is one.
#[tactic(auto, using(crate::proofs::SpanLaws::skip_turn))]
fn skip(s: &[u8], delimiter: u8) -> usize
    requires { (16 ≤ length s.now) × (all_of (is_not delimiter) (take 16 s.now) ≡ true) }
    ensures s_value { all_of (is_not delimiter) (take result s.now) ≡ true }
    ensures within { result ≤ length s.now }
{
    let mut at = 16;
    while 16 <= s.len() - at && lacks(&s[at..at + 16], delimiter) {
        at += 16;
    }
    at
}

// How many bytes stand before the first delimiter, or before the end. Most are few, so sixteen are looked at one by
// one first.
#[tactic(auto, using(crate::proofs::SpanLaws::until_cases))]
pub fn until(bytes: &[u8], delimiter: u8) -> usize
    ensures value { result ≡ run (is_not delimiter) bytes.now }
    ensures short { result ≤ length bytes.now }
{
    if bytes.len() <= 32 {
        return count(bytes, delimiter);
    }
    let first = count(&bytes[..16], delimiter);
    if first < 16 {
        return first;
    }
    let at = skip(bytes, delimiter);
    at + count(&bytes[at..], delimiter)
}
