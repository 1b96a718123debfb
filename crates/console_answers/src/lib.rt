// The lines that the console answers with (docs/CONSOLE.md), over numbers.
#![tactic(auto)]

ghost use Rattle.std.specs.Prelude.{◌≡◌, cond, ◌+◌, ◌≤◌, length};
ghost use Rattle.byte_strings.specs.Texts.{text};
ghost use Rattle.byte_strings.specs.Wrote.{Writes};
ghost use Rattle.console_answers.specs.Answers.{reply_text, answer_line, usable_line, other_line};

// The response without its carriage return, or - for none.
#[tactic(auto, unfolding(crate::specs::Answers::reply_text))]
fn reply_text(response: &[u8]) -> &[u8]
    ensures result_value { result.now ≡ reply_text response.now }
    ensures short { length result.now ≤ length response.now + 1 }
{
    match response {
        [] => b"-",
        [kept @ .., _] => kept,
    }
}

// The line that answers a request, by the outcome's number and that of the slot state left, or 255.
pub fn put_answer(dst: &mut [u8], number: u64, outcome: u8, left: u8, response: &[u8]) -> usize
    requires { length response.now + 42 ≤ length dst.old }
    ensures writes { Writes dst 0 (answer_line number outcome left response.now) result }
    ensures fits { result ≤ length dst.old }
{
    let a = console_prints::put_long(dst, 0, number);
    let b = console_prints::put_number(dst, a, outcome as u32);
    let c = console_states::put_state(dst, b, left, b"-");
    console_prints::put_last(dst, c, reply_text(response))
}

fn yes_or_no(yes: bool) -> &'static [u8]
    ensures { result.now ≡ cond yes (text "yes") (text "no") }
{
    if yes { b"yes" } else { b"no" }
}

// The line that says whether a key may vend.
pub fn put_usable(dst: &mut [u8], number: u64, yes: bool) -> usize
    requires { 42 ≤ length dst.old }
    ensures writes { Writes dst 0 (usable_line number yes) result }
    ensures fits { result ≤ length dst.old }
{
    let end = console_prints::put_long(dst, 0, number);
    console_prints::put_last(dst, end, yes_or_no(yes))
}

// The line that answers a line of no form.
pub fn put_other(dst: &mut [u8], number: u64) -> usize
    requires { 42 ≤ length dst.old }
    ensures writes { Writes dst 0 (other_line number) result }
    ensures fits { result ≤ length dst.old }
{
    let at = console_prints::put_long(dst, 0, number);
    console_prints::put_last(dst, at, b"?")
}
