// The check value that ends a message or a record: four digits of the CRC-16 of all that stands before them.
#![tactic(auto)]

ghost use Rattle.std.specs.Prelude.{◌≡◌, ◌+◌, ◌-◌, ◌≤◌, length, take, drop};
ghost use Rattle.byte_strings.specs.Wrote.{Writes};
ghost use Rattle.check_sums.specs.Checksum.{sum_of, sum_digits, ends_in_sum};

// Of which kind the CRC is: of a message, or of a record.
#[derive(Clone, Copy)]
pub enum Kind {
    Arc,
    Modbus,
}

fn sum_of(kind: Kind, s: &[u8]) -> u16
    ensures { result ≡ sum_of kind s.now }
{
    match kind {
        Kind::Arc => check_crc::crc_arc(s),
        Kind::Modbus => check_crc::crc_modbus(s),
    }
}

// Whether the bytes end in the four digits of what stands before them.
#[tactic(auto, using(crate::proofs::SumLaws::compared), unfolding(crate::specs::Checksum::ends_in_sum))]
pub fn ends_in_sum(kind: Kind, bytes: &[u8]) -> bool
    ensures { result ≡ ends_in_sum kind bytes.now }
{
    let Some((before, digits)) = bytes.split_last_chunk::<4>() else {
        return false;
    };
    check_digits::read_hex4(digits, 0) == Some(sum_of(kind, before))
}

// Writes the four digits of the bytes from a place up to `to` behind them, and answers the place after the digits.
#[tactic(auto, unfolding(crate::specs::Checksum::sum_digits))]
pub fn put_sum(kind: Kind, dst: &mut [u8], from: usize, to: usize) -> usize
    requires { (from ≤ to) × (to + 4 ≤ length dst.old) }
    ensures writes { Writes dst to (sum_digits kind (take (to - from) (drop from dst.old))) result }
    ensures short { result ≡ to + 4 }
{
    let c = sum_of(kind, &dst[from..to]);
    check_digits::put_hex4(dst, to, c)
}
