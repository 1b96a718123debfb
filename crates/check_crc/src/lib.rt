// CRC-16 with the polynomial x^16 + x^15 + x^2 + 1 = (x + 1)(x^15 + x + 1), least significant bit first (001 clause
// 5.2, 003 clause 5.5), seven bytes at a step and without a table.
//
// Bytes may be added to the check value ahead of their turn: it then has more than sixteen bits. Modulo the second
// factor, x^14 is 1 + x^-1, and so x^56 is 1 + x^-4: that many bits take two shifts. The result may lack the second
// factor, 0xC001, which later bits leave as it is. They leave the parity of the check value as it is too, so at the end
// the parity tells whether to add it.
#![tactic(auto)]

ghost use Rattle.std.specs.Prelude.{◌≡◌, ◌+◌, ◌*◌, ◌/◌, ◌%◌, ◌<◌, ◌≤◌, length, drop, replicate};
ghost use Rattle.std.specs.Int.Bits.{bit_xor};
ghost use Rattle.std.specs.Int.Count.{ones};
ghost use Rattle.check_crc.specs.Crc.{crc_byte, crc_of, arc_of, modbus_of};
ghost use Rattle.check_crc.specs.Words.{little_endian};

// Eight bytes as a number, the first lowest.
#[tactic(auto, using(crate::proofs::Words::word_value))]
fn word(eight: &[u8; 8]) -> u64
    ensures { result ≡ little_endian 8 eight.now }
{
    u64::from_le_bytes(*eight)
}

// What v becomes by some bits, but for the second factor: SPAN is two to their number, and UP is 2^14 over that.
#[tactic(auto, using(crate::proofs::Folds::up_fits))]
fn by_bits<const SPAN: u64, const UP: u64>(v: u64) -> u64
    requires { SPAN * UP ≡ 16384 }
    ensures { result ≡ bit_xor (bit_xor (v / SPAN) (v % SPAN * UP)) (v % SPAN * (UP * 2)) }
{
    let low = v % SPAN;
    (v / SPAN) ^ (low * UP) ^ (low * (UP * 2))
}

// By eight bits, and by fourteen.
fn eight_bits(v: u64) -> u64
    ensures { result ≡ bit_xor (bit_xor (v / 256) (v % 256 * 64)) (v % 256 * 128) }
{
    by_bits::<256, 64>(v)
}

fn fourteen_bits(v: u64) -> u64
    ensures { result ≡ bit_xor (bit_xor (v / 16384) (v % 16384)) (v % 16384 * 2) }
{
    by_bits::<16384, 1>(v)
}

// The value v, with the second factor where the count of ones among the bits is odd.
fn with_factor(v: u64, bits: u64) -> u16
    ensures { result ≡ bit_xor v (ones bits % 2 * 0xC001) % 65536 }
{
    let odd = u64::from(bits.count_ones() % 2);
    ((v ^ (odd * 0xC001)) % 65536) as u16
}

// The check value with one byte more.
#[tactic(auto, using(crate::proofs::Folds::byte_done), unfolding(crate::proofs::Folds::eight_bits))]
fn crc_byte(c: u16, b: u8) -> u16
    ensures { result ≡ crc_byte c b }
{
    let v = u64::from(c) ^ u64::from(b);
    let r = eight_bits(v);
    with_factor(r, v ^ r)
}

// The check value of s, from a start value, byte by byte.
fn crc_bytes(start: u16, s: &[u8]) -> u16
    ensures { result ≡ crc_of start s.now }
{
    s.iter().fold(start, |c, b| crc_byte(c, *b))
}

// What v becomes by sixty-four bits, with the second factor where `lacks` has an odd count of ones.
fn crc_word(v: u64, lacks: u64) -> u16
    ensures { result ≡ bit_xor (crc_of v (replicate 8 0)) (ones lacks % 2 * 0xC001) }
{
    let r = eight_bits(fourteen_bits(fourteen_bits(fourteen_bits(fourteen_bits(v)))));
    with_factor(r, v ^ r ^ lacks)
}

// The check value of s, from a start value: seven bytes, a number below 2^56, at a step while at least eight are left
// after them, then eight, which leave sixteen bits, then byte by byte. The second factor is lacking where `lacks` has
// an odd count of ones. Both steps are turns of one loop over a place: steps of one size alone, or over what is left,
// are counted by a division.
fn crc_from(start: u16, s: &[u8]) -> u16
    ensures { result ≡ crc_of start s.now }
{
    let mut v = u64::from(start);
    let mut lacks = 0;
    let mut i = 0;
    while let Some(eight) = s[i..].first_chunk::<8>() {
        if 15 <= s.len() - i {
            let low = (v ^ word(eight)) % 0x100000000000000;
            v = (low ^ (low * 16)) ^ (v / 0x100000000000000);
            lacks = lacks ^ low;
            i += 7;
        } else {
            v = u64::from(crc_word(v ^ word(eight), lacks));
            lacks = 0;
            i += 8;
        }
    }
    crc_bytes((v % 65536) as u16, &s[i..])
}

// CRC-16/ARC, of requests and responses.
pub fn crc_arc(bytes: &[u8]) -> u16
    ensures { result ≡ arc_of bytes.now }
{
    crc_from(0, bytes)
}

// CRC-16/MODBUS, of records.
pub fn crc_modbus(bytes: &[u8]) -> u16
    ensures { result ≡ modbus_of bytes.now }
{
    crc_from(0xFFFF, bytes)
}
