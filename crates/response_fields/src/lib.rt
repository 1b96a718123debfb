// The fields of the responses of SM?KC, SM?KL and SM?GA (001 clauses 6.3.3, 6.3.5 and 6.3.8).
#![tactic(auto)]

ghost use Rattle.std.specs.Prelude.{[], ◌∷◌, ◌+◌, ◌≤◌, ◌<◌, length};
ghost use Rattle.byte_strings.specs.Wrote.{Writes};
ghost use Rattle.field_values.specs.Values.{number, string, payload_bytes};
ghost use Rattle.row_types.specs.Lists.{trimmed};
ghost use Rattle.row_types.specs.Supplements.{load_request};

use row_types::Supplement;

// SM?KC: writes the KMCID and the load request, and answers the place after them.
pub fn put_started(dst: &mut [u8], at: usize, kmcid: &[u8], supplement: Supplement) -> usize
    requires { (length kmcid.now ≤ 40) × (supplement.request_length ≤ 700) × (at + 744 ≤ length dst.old) }
    ensures writes { Writes dst at
        (payload_bytes (string kmcid.now ∷ string (load_request supplement) ∷ [])) result }
    ensures short { result ≤ at + 744 }
{
    let length = supplement.request_length;
    let request = supplement.request;
    let end = field_writer::put_string(dst, at, kmcid);
    field_writer::put_string(dst, end, &request[..length])
}

// SM?GA: writes a card without the zeros after it, and answers the place after it.
pub fn put_card(dst: &mut [u8], at: usize, card: &[u8]) -> usize
    requires { (length card.now ≤ 256) × (at + 258 ≤ length dst.old) }
    ensures writes { Writes dst at (payload_bytes (string (trimmed card.now) ∷ [])) result }
    ensures short { result ≤ at + 258 }
{
    field_writer::put_string(dst, at, slot_tests::trimmed(card))
}

// SM?KL: writes the number of the register, counted from 1, and its card without the zeros after it. Answers the place
// after them.
pub fn put_loaded(dst: &mut [u8], at: usize, place: usize, card: &[u8]) -> usize
    requires { (place < 32) × (length card.now ≤ 256) × (at + 270 ≤ length dst.old) }
    ensures writes { Writes dst at
        (payload_bytes (number (place + 1) ∷ string (trimmed card.now) ∷ [])) result }
    ensures short { result ≤ at + 270 }
{
    let end = field_writer::put_number(dst, at, place as u32 + 1);
    put_card(dst, end, card)
}
