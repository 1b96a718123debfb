// Records of delimited fields written into a lent buffer: BUILD-RECORD (003 clauses 5.7.1 and 5.8.1; document 01,
// "Records").
#![tactic(auto)]

ghost use Rattle.std.specs.Prelude.{◌≡◌, [], ◌∷◌, ◌+◌, ◌-◌, ◌≤◌, length, map, sum_by, take, drop};
ghost use Rattle.byte_strings.specs.Wrote.{Writes};
ghost use Rattle.byte_pieces.specs.Pieces.{joined};
ghost use Rattle.check_sums.specs.Checksum.{sum_digits};
ghost use Rattle.check_sums.specs.declared.Kind.TheVariants.{Modbus};
ghost use Rattle.record_writer.specs.Build.{record_bytes};

use check_sums::Kind;

// Writes one field and its delimiter, and answers the place after it.
fn put_field(dst: &mut [u8], at: usize, field: &[u8], delimiter: u8) -> usize
    requires { at + length field.now + 1 ≤ length dst.old }
    ensures writes { Writes dst at (joined delimiter (field.now ∷ [])) result }
    ensures short { result ≡ at + length field.now + 1 }
{
    let o = byte_strings::put(dst, at, field);
    byte_strings::put_byte(dst, o, delimiter)
}

// Writes the four digits of the bytes from a place up to `to` behind them, and answers the place after the digits.
fn close_record(dst: &mut [u8], from: usize, to: usize) -> usize
    requires { (from ≤ to) × (to + 4 ≤ length dst.old) }
    ensures writes { Writes dst to (sum_digits Modbus (take (to - from) (drop from dst.old))) result }
    ensures short { result ≡ to + 4 }
{
    check_sums::put_sum(Kind::Modbus, dst, from, to)
}

// Writes fields, each with its delimiter, and answers the place after them.
fn put_fields(dst: &mut [u8], at: usize, delimiter: u8, fields: &[&[u8]]) -> usize
    requires { at + length (joined delimiter (map (λ f. f.now) fields.now)) ≤ length dst.old }
    ensures { Writes dst at (joined delimiter (map (λ f. f.now) fields.now)) result }
{
    let mut at = at;
    for field in fields {
        at = put_field(dst, at, field, delimiter);
    }
    at
}

// Writes a record of a type and fields, and answers the place after it.
pub fn put_record(
    dst: &mut [u8],
    at: usize,
    rectype: &[u8],
    delimiter: u8,
    fields: &[&[u8]],
) -> usize
    requires { at + length (record_bytes rectype.now delimiter (map (λ f. f.now) fields.now))
        ≤ length dst.old }
    ensures writes { Writes dst at
        (record_bytes rectype.now delimiter (map (λ f. f.now) fields.now)) result }
    ensures short { result ≡ at + length rectype.now + sum_by (λ f. length f.now + 1) fields.now + 5 }
{
    let o = put_field(dst, at, rectype, delimiter);
    let to = put_fields(dst, o, delimiter, fields);
    close_record(dst, at, to)
}
