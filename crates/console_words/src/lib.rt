// The words of a line of the console (docs/CONSOLE.md), split by one space.
#![tactic(auto, unfolding(crate::specs::Words::word, crate::specs::Words::rest, crate::specs::Words::has_rest))]

ghost use Rattle.std.specs.Prelude.{◌≡◌};
ghost use Rattle.console_words.specs.Words.{word, rest, has_rest};

// The first word.
pub fn word(line: &[u8]) -> &[u8]
    ensures { result.now ≡ word line.now }
{
    &line[..byte_spans::until(line, b' ')]
}

// What stands after the first space; nothing where there is none.
pub fn rest(line: &[u8]) -> &[u8]
    ensures { result.now ≡ rest line.now }
{
    let space = byte_spans::until(line, b' ');
    if space < line.len() {
        &line[space + 1..]
    } else {
        &[]
    }
}

// Whether there is a space.
pub fn has_rest(line: &[u8]) -> bool
    ensures { result ≡ has_rest line.now }
{
    byte_spans::until(line, b' ') < line.len()
}
