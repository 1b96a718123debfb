// Records of delimited fields, parsed: PARSE-RECORD (003 clauses 5.5, 5.7.2 and 5.8.2; document 01, "Records").
#![tactic(auto)]

ghost use Rattle.std.specs.Prelude.{◌≡◌, true, false, ◌&&◌, [], ◌∷◌, ◌++◌, ◌+◌, ◌≤◌, ◌<◌, leb, eqb, length, take};
ghost use Rattle.byte_strings.specs.Strings.{same_bytes};
ghost use Rattle.byte_strings.specs.Texts.{all};
ghost use Rattle.byte_pieces.specs.Pieces.{pieces, is_ended};
ghost use Rattle.check_sums.specs.Checksum.{ends_in_sum};
ghost use Rattle.check_sums.specs.declared.Kind.TheVariants.{Modbus};
ghost use Rattle.record_parser.specs.Records.{body_of, AreFields, is_record};

use byte_bounds::Bounds;
use check_sums::Kind;
use text_classes::Class;

// A record, cut: whether it is one; and where it is, the bounds of its type and of its fields.
#[derive(Clone, Copy)]
pub struct Record {
    pub parsed: bool,
    pub fields: [Bounds; 6],
}

// What stands before the four digits.
fn body<'a>(source: &'a [u8]) -> &'a [u8]
    ensures { result.now ≡ body_of source.now }
{
    if source.len() < 4 {
        return &source[0..0];
    }
    let n = source.len() - 4;
    &source[..n]
}

// Whether the record starts with the type and the delimiter.
fn has_type(rectype: &[u8], delimiter: u8, source: &[u8]) -> bool
    requires { length rectype.now < length source.now }
    ensures { result ≡ same_bytes (take (length rectype.now + 1) source.now)
        (rectype.now ++ (delimiter ∷ [])) }
{
    let n = rectype.len();
    if source[n] != delimiter {
        return false;
    }
    byte_strings::same_bytes(&source[..n], rectype)
}

// Whether the record starts with the type and the delimiter, has room for the digits and ends in them.
fn is_framed(rectype: &[u8], delimiter: u8, source: &[u8]) -> bool
    ensures { result ≡ all (
        same_bytes (take (length rectype.now + 1) source.now)
        (rectype.now ++ (delimiter ∷ []))
        ∷ leb (length rectype.now + 5) (length source.now)
        ∷ ends_in_sum Modbus source.now ∷ []) }
{
    if source.len() < 5 {
        return false;
    }
    if source.len() - 5 < rectype.len() {
        return false;
    }
    if !has_type(rectype, delimiter, source) {
        return false;
    }
    check_sums::ends_in_sum(Kind::Modbus, source)
}

// The body, cut: whether it is so many fields after the type, each ended by the delimiter, and their bounds.
fn cut_fields(delimiter: u8, count: usize, body: &[u8]) -> Record
    requires { count ≤ 5 }
    ensures parsed_value { result.parsed ≡ (is_ended delimiter body.now
        && eqb (length (pieces delimiter body.now)) (count + 1)) }
    ensures fields { result.parsed ≡ true → AreFields delimiter count result.fields body.now }
{
    let mut fields = [Bounds { start: 0, end: 0 }; 6];
    let mut at = 0;
    let mut n = 0;
    while n <= count {
        let end = byte_pieces::piece_end(body, at, delimiter);
        if body.len() <= end {
            return Record {
                parsed: false,
                fields,
            };
        }
        fields[n] = Bounds { start: at, end };
        at = end + 1;
        n += 1;
    }
    Record {
        parsed: at == body.len(),
        fields,
    }
}

// What is not a record, with nothing noted.
fn no_record() -> Record
    ensures { result.parsed ≡ false }
{
    Record {
        parsed: false,
        fields: [Bounds { start: 0, end: 0 }; 6],
    }
}

// The record of a type with so many fields, cut (PARSE-RECORD, with DFPARSE).
pub fn read_record(rectype: &[u8], delimiter: u8, count: usize, source: &[u8]) -> Record
    requires { count ≤ 5 }
    ensures parsed_value { result.parsed ≡ is_record rectype.now delimiter count source.now }
    ensures fields { result.parsed ≡ true → AreFields delimiter count result.fields source.now }
{
    if !is_framed(rectype, delimiter, source) {
        return no_record();
    }
    let body = body(source);
    if !text_classes::are_all_long(Class::Printable, body) {
        return no_record();
    }
    cut_fields(delimiter, count, body)
}
