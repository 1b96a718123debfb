// The words of a line that the console prints (docs/CONSOLE.md): each with the space after it, and the last with the
// line feed; and rows, one after the other.
#![tactic(auto)]

ghost use Rattle.std.specs.Prelude.{◌≡◌, ℕ, List, [], ◌∷◌, ◌++◌, ◌+◌, ◌*◌, ◌≤◌, ◌<◌, length};
ghost use Rattle.byte_strings.specs.Texts.{text};
ghost use Rattle.byte_strings.specs.Wrote.{Wrote, Writes};
ghost use Rattle.row_types.specs.Lists.{in_turn};
ghost use Rattle.text_decimal_writer.specs.Digits.{decimal_bytes, long_bytes};

// Writes a word and the byte that stands after it.
fn put_ended(dst: &mut [u8], at: usize, word: &[u8], end: u8) -> usize
    requires { at + length word.now + 1 ≤ length dst.old }
    ensures writes { Writes dst at (word.now ++ (end ∷ [])) result }
    ensures short { result ≡ at + length word.now + 1 }
{
    let after = byte_strings::put(dst, at, word);
    byte_strings::put_byte(dst, after, end)
}

// Writes a word and a space.
pub fn put_word(dst: &mut [u8], at: usize, word: &[u8]) -> usize
    requires { at + length word.now + 1 ≤ length dst.old }
    ensures writes { Writes dst at (word.now ++ text " ") result }
    ensures short { result ≡ at + length word.now + 1 }
{
    put_ended(dst, at, word, b' ')
}

// Writes the last word and a line feed.
pub fn put_last(dst: &mut [u8], at: usize, word: &[u8]) -> usize
    requires { at + length word.now + 1 ≤ length dst.old }
    ensures writes { Writes dst at (word.now ++ text "\n") result }
    ensures short { result ≡ at + length word.now + 1 }
{
    put_ended(dst, at, word, b'\n')
}

// Writes a number and a space.
pub fn put_number(dst: &mut [u8], at: usize, number: u32) -> usize
    requires { at + 11 ≤ length dst.old }
    ensures writes { Writes dst at (decimal_bytes number ++ text " ") result }
    ensures short { result ≤ at + 11 }
{
    let end = text_decimal_writer::put_decimal(dst, at, number);
    byte_strings::put_byte(dst, end, b' ')
}

// Writes a number of any size and a space.
pub fn put_long(dst: &mut [u8], at: usize, number: u64) -> usize
    requires { at + 21 ≤ length dst.old }
    ensures writes { Writes dst at (long_bytes number ++ text " ") result }
    ensures short { result ≤ at + 21 }
{
    let after = text_decimal_writer::put_long(dst, at, number);
    byte_strings::put_byte(dst, after, b' ')
}

// Writes what is told of each row, one after the other, in at most so many bytes each; the first row has place 0.
pub fn put_each<T: Copy, F: Fn(&mut [u8], usize, usize, T) -> usize>(
    dst: &mut [u8],
    at: usize,
    rows: &[T],
    room: usize,
    put: F,
) -> usize
    ghost tell: { ℕ → T → List ℕ }
    requires fits { at + room * length rows.now ≤ length dst.old }
    requires may { (d : _) (a i : ℕ) (x : T) → a + room ≤ length d.now → i < length rows.now → F.pre put d a i x }
    requires tells { (d : _) (a i : ℕ) (x : T) (r : ℕ) (e : _) →
        F.post put d a i x r e → Wrote d.now a (tell i x) e.now r × (r ≤ a + room) }
    ensures writes { Writes dst at (in_turn tell 0 rows.now) result }
    ensures short { result ≤ at + room * length rows.now }
{
    let mut end = at;
    for (i, row) in rows.iter().enumerate() {
        end = put(dst, end, i, *row);
    }
    end
}
