// Reads vectors from standard input, a line each, and prints each with what it gives. A line is a kind, a space and a
// text; # starts a comment.
#![tactic(auto)]

ghost use Rattle.std.specs.Prelude.{◌≡◌, ◌≤◌, true, length, IfOk};
ghost use Rattle.field_values.specs.Bounds.{Within};
ghost use Rattle.record_parser.specs.Records.{AreFields};
ghost use Rattle.record_identities.specs.Identities.{colon};

use field_values::Field;
use record_parser::Record;
use std::io;
use std::io::Read;

fn say(rt: &impl Print, s: &[u8]) -> io::Result<()> {
    rt.write_all(s)
}

// Prints the first n bytes, where there are so many.
fn say_front(rt: &impl Print, s: &[u8], n: usize) -> io::Result<()> {
    if n <= s.len() {
        say(rt, &s[0..n])?;
    }
    Ok(())
}

fn say_yes(rt: &impl Print, b: bool) -> io::Result<()> {
    if b {
        return say(rt, b"  yes\n");
    }
    say(rt, b"  no\n")
}

fn say_sum(rt: &impl Print, n: u16) -> io::Result<()> {
    let mut line = *b"  ....\n";
    check_digits::put_hex4(&mut line, 2, n);
    say(rt, &line)
}

fn show_field(rt: &impl Print, p: &[u8], f: Field) -> io::Result<()>
    requires { Within (length p.now) f }
{
    match f {
        Field::Number(n) => {
            say(rt, b"  number ")?;
            rt.print(n)?;
        }
        Field::Text { start, end } => {
            say(rt, b"  string ")?;
            say(rt, &p[start..end])?;
        }
        Field::Date { start, end } => {
            say(rt, b"  date ")?;
            say(rt, &p[start..end])?;
        }
        Field::Octets { start, end } => {
            say(rt, b"  octets ")?;
            say(rt, &p[start..end])?;
        }
        Field::Bad => say(rt, b"  no field")?,
    }
    say(rt, b"\n")
}

// Prints the fields of a payload, up to the first that is none.
fn show_fields(rt: &impl Print, p: &[u8]) -> io::Result<()> {
    let mut at = 0;
    let mut k: usize = 0;
    while k < 1024 {
        if p.len() <= at {
            return Ok(());
        }
        let r = field_values::read_field(p, at);
        let f = r.field;
        show_field(rt, p, f)?;
        if let Field::Bad = f {
            return Ok(());
        }
        at = r.next;
        k += 1;
    }
    Ok(())
}

fn is_timestamp(s: &[u8]) -> bool {
    text_timestamps::read_timestamp(s).is_some()
}

// Whether the first of two timestamps, split by a space, is the later one.
fn show_later(rt: &impl Print, s: &[u8]) -> io::Result<()> {
    let e = byte_pieces::piece_end(s, 0, b' ');
    if s.len() <= e {
        return say_yes(rt, false);
    }
    let a = text_timestamps::read_timestamp(&s[0..e]);
    let b = text_timestamps::read_timestamp(&s[e + 1..]);
    say_yes(rt, text_timestamps::is_later(a, b))
}

// Prints whether a record parses and whether it is in form.
fn show_record(rt: &impl Print, parses: bool, in_form: bool) -> io::Result<()> {
    if !parses {
        return say(rt, b"  does not parse (9)\n");
    }
    if !in_form {
        return say(rt, b"  parses, not in form (10)\n");
    }
    say(rt, b"  parses, in form\n")
}

fn show_identity(rt: &impl Print, identity: Record, s: &[u8]) -> io::Result<()>
    requires { identity.parsed ≡ true → AreFields colon 4 identity.fields s.now }
{
    if !identity.parsed {
        return show_record(rt, false, false);
    }
    let fields = identity.fields;
    show_record(rt, true, record_identities::is_identity_in_form(s, fields))
}

fn show_public_key(rt: &impl Print, s: &[u8]) -> io::Result<()> {
    let key = record_types::read_public_key(s);
    if !key.parsed {
        return show_record(rt, false, false);
    }
    show_record(rt, true, record_forms::is_public_key_in_form(s, key))
}

fn show_load_response(rt: &impl Print, s: &[u8]) -> io::Result<()> {
    let answer = record_types::read_response(s);
    if !answer.parsed {
        return show_record(rt, false, false);
    }
    show_record(rt, true, record_forms::is_response_in_form(s, answer))
}

fn show_key(rt: &impl Print, s: &[u8]) -> io::Result<()> {
    let key = record_types::read_key(s);
    if !key.parsed {
        return show_record(rt, false, false);
    }
    let fields = key.fields;
    let card = record_forms::read_key_card(s, fields);
    show_record(rt, true, card.in_form)
}

fn show_records(rt: &impl Print, kind: &[u8], s: &[u8]) -> io::Result<bool> {
    if byte_strings::same_bytes(kind, b"kmcid") {
        show_identity(rt, record_identities::read_kmc_identity(s), s)?;
        return Ok(true);
    }
    if byte_strings::same_bytes(kind, b"smid") {
        show_identity(rt, record_identities::read_module_identity(s), s)?;
        return Ok(true);
    }
    if byte_strings::same_bytes(kind, b"pubkey") {
        show_public_key(rt, s)?;
        return Ok(true);
    }
    if byte_strings::same_bytes(kind, b"vkloadresp") {
        show_load_response(rt, s)?;
        return Ok(true);
    }
    if byte_strings::same_bytes(kind, b"key") {
        show_key(rt, s)?;
        return Ok(true);
    }
    if byte_strings::same_bytes(kind, b"card") {
        show_card(rt, s)?;
        return Ok(true);
    }
    Ok(false)
}

// Prints what is stored of an incoming card in slot KMC1, with the check value of 001 example 6.3.5.4.
fn show_card(rt: &impl Print, s: &[u8]) -> io::Result<()> {
    let read = card_incoming::read_card(s);
    if !read.in_form {
        return say(rt, b"  refused (10)\n");
    }
    let values = read.values;
    let card = card_writer::write_stored(s, values, b"92E101", b"KMC1");
    let n = byte_pieces::piece_end(&card, 0, 0);
    say(rt, b"  ")?;
    say_front(rt, &card, n)?;
    say(rt, b"\n")
}

// Prints what the text gives and answers true, or answers false where the kind is another.
fn show_value(rt: &impl Print, kind: &[u8], s: &[u8]) -> io::Result<bool> {
    if byte_strings::same_bytes(kind, b"arc") {
        say_sum(rt, check_crc::crc_arc(s))?;
        return Ok(true);
    }
    if byte_strings::same_bytes(kind, b"modbus") {
        say_sum(rt, check_crc::crc_modbus(s))?;
        return Ok(true);
    }
    if byte_strings::same_bytes(kind, b"fields") {
        show_fields(rt, s)?;
        return Ok(true);
    }
    if byte_strings::same_bytes(kind, b"timestamp") {
        say_yes(rt, is_timestamp(s))?;
        return Ok(true);
    }
    if byte_strings::same_bytes(kind, b"later") {
        show_later(rt, s)?;
        return Ok(true);
    }
    if byte_strings::same_bytes(kind, b"identifier") {
        say_yes(rt, text_classes::is_identifier(s))?;
        return Ok(true);
    }
    show_records(rt, kind, s)
}

// Whether the frame is right; prints what is not.
fn is_framed(rt: &impl Print, m: &[u8]) -> io::Result<bool> {
    if !message_frames::is_whole(m) {
        say(rt, b"  length or carriage return wrong (5)\n")?;
        return Ok(false);
    }
    if !message_frames::is_checked(m) {
        say(rt, b"  checksum wrong (6)\n")?;
        return Ok(false);
    }
    Ok(true)
}

fn show_response(rt: &impl Print, m: &[u8]) -> io::Result<()> {
    if !is_framed(rt, m)? {
        return Ok(());
    }
    let p = message_frames::payload(m);
    if p.len() < 2 {
        return say(rt, b"  no status\n");
    }
    say(rt, b"  header ")?;
    say(rt, message_frames::header(m))?;
    say(rt, b"\n  status ")?;
    say(rt, &p[0..2])?;
    say(rt, b"\n")?;
    show_fields(rt, &p[2..])
}

// Adds the carriage return, and prints what the response says.
fn show_message(rt: &impl Print, s: &[u8]) -> io::Result<()> {
    if 1100 < s.len() {
        return say(rt, b"  length or carriage return wrong (5)\n");
    }
    let mut m = [0u8; 1101];
    let n = byte_strings::put(&mut m, 0, s);
    let e = byte_strings::put_byte(&mut m, n, b'\r');
    show_response(rt, &m[0..e])
}

// Prints what the text of a line gives, by its kind.
fn judge(rt: &impl Print, kind: &[u8], text: &[u8]) -> io::Result<()> {
    if show_value(rt, kind, text)? {
        return Ok(());
    }
    if byte_strings::same_bytes(kind, b"response") {
        return show_message(rt, text);
    }
    say(rt, b"  unknown kind\n")
}

fn show_line(rt: &impl Print, line: &[u8]) -> io::Result<()> {
    say(rt, line)?;
    say(rt, b"\n")?;
    if line.len() == 0 {
        return Ok(());
    }
    if line[0] == b'#' {
        return Ok(());
    }
    let e = byte_pieces::piece_end(line, 0, b' ');
    if line.len() <= e {
        return judge(rt, line, b"");
    }
    judge(rt, &line[0..e], &line[e + 1..])
}

fn show_all(rt: &impl Print, all: &[u8]) -> io::Result<()> {
    let mut at = 0;
    while at < all.len() {
        let e = byte_pieces::piece_end(all, at, b'\n');
        show_line(rt, &all[at..e])?;
        at = e + 1;
    }
    Ok(())
}

// Reads until the buffer is full or the input ends, and returns how many bytes it put at the start of it.
fn read_full<R: Read>(input: &mut R, buffer: &mut [u8]) -> io::Result<usize>
    ensures { IfOk result (λ n. n ≤ length buffer.new) }
{
    let mut done = 0;
    while done < buffer.len() {
        let n = input.read(&mut buffer[done..])?;
        if n == 0 {
            return Ok(done);
        }
        done += n;
    }
    Ok(done)
}

fn main(rt: HostRuntime) -> io::Result<()> {
    let mut buffer = [0u8; 65536];
    let n = read_full(&mut rt.stdin(), &mut buffer)?;
    show_all(&rt, &buffer[..n])
}
