// The tests behind questions 11 to 18 (document 01, "Questions in order"): each judges one record, row or supplement,
// or makes one search of a table.
#![tactic(auto)]

ghost use Rattle.std.specs.Prelude.{◌≡◌, true, ◌||◌, List, ◌+◌, ◌*◌, ◌≤◌, eqb, take};
ghost use Rattle.byte_strings.specs.Strings.{same_bytes};
ghost use Rattle.byte_bounds.specs.Bounds.{Stands};
ghost use Rattle.text_decimals.specs.Decimals.{decimal};
ghost use Rattle.record_identities.specs.Identities.{colon, name_in, fingerprint_in};
ghost use Rattle.record_parser.specs.Records.{field};
ghost use Rattle.record_types.specs.KeyRecords.{IsPublicKey, IsResponse};
ghost use Rattle.card_incoming.specs.Incoming.{is_incoming, AreValues};
ghost use Rattle.text_timestamps.specs.Timestamps.{timestamp_of, is_later};
ghost use Rattle.row_types.specs.Slots.{has_state};
ghost use Rattle.row_types.specs.declared.RegisterRow.{RegisterRow};
ghost use Rattle.row_types.specs.declared.SlotState.TheVariants.{Pending, Loading};
ghost use Rattle.row_types.specs.Places.{place_of, PlaceWithin};
ghost use Rattle.row_types.specs.Supplements.{own_identity};
ghost use Rattle.row_index.specs.Found.{AreKeys};
ghost use Rattle.engine.specs.Requests.{kmc_identity_in, module_identity_in, expiry_in, tvp_in, tag_in};
ghost use Rattle.engine.specs.Questions.{is_filled, slot_place, session_place, store_place, group_in, revision_in};
ghost use Rattle.decide_records.specs.Identity.{HasKmcIdentity};

use byte_bounds::Bounds;
use card_attributes::ROWS;
use record_types::{LoadResponse, PublicKey};
use row_types::{Place, SlotRow, SlotState, Supplement};

// Question 11: the expiry of a public key is later than the clock.
pub fn is_not_expired(source: &[u8], key: PublicKey, clock: &[u8]) -> bool
    requires { IsPublicKey key.fields key.kmc source.now }
    ensures { result ≡ is_later (timestamp_of (expiry_in source.now)) (timestamp_of clock.now) }
{
    let fields = key.fields;
    let expiry = text_timestamps::read_timestamp(byte_bounds::part(source, fields[3]));
    let now = text_timestamps::read_timestamp(clock);
    text_timestamps::is_later(expiry, now)
}

// The bounds, in a record, of a field of the KMC identity that is its first field.
fn identity_part(source: &[u8], fields: [Bounds; 6], kmc: [Bounds; 6], number: usize) -> Bounds
    requires { HasKmcIdentity fields kmc source.now × (number ≤ 4) }
    ensures { Stands source.now result (field colon number (kmc_identity_in source.now)) }
{
    byte_bounds::inside(fields[1], kmc[number])
}

// Those of the KMCID.
pub fn kmcid_bounds(source: &[u8], fields: [Bounds; 6], kmc: [Bounds; 6]) -> Bounds
    requires { HasKmcIdentity fields kmc source.now }
    ensures { Stands source.now result (name_in (kmc_identity_in source.now)) }
{
    identity_part(source, fields, kmc, 2)
}

// Those of the fingerprint.
pub fn fingerprint_bounds(source: &[u8], fields: [Bounds; 6], kmc: [Bounds; 6]) -> Bounds
    requires { HasKmcIdentity fields kmc source.now }
    ensures { Stands source.now result (fingerprint_in (kmc_identity_in source.now)) }
{
    identity_part(source, fields, kmc, 4)
}

// The place of the slot that a record names, in the KMC identity that is its first field.
pub fn known_place(slots: [SlotRow; 8], slot_count: usize, source: &[u8], name: Bounds) -> Place
    requires { (slot_count ≤ 8) × Stands source.now name (name_in (kmc_identity_in source.now)) }
    ensures result_value { place_of result ≡ slot_place (name_in (kmc_identity_in source.now)) (take slot_count slots) }
    ensures within { PlaceWithin slot_count result }
{
    slot_tables::slot_place(slots, slot_count, byte_bounds::part(source, name))
}

// Question 13: that place, else the lowest free row.
pub fn session_place(slots: [SlotRow; 8], slot_count: usize, source: &[u8], name: Bounds) -> Place
    requires { (slot_count ≤ 8) × Stands source.now name (name_in (kmc_identity_in source.now)) }
    ensures { place_of result
        ≡ session_place (name_in (kmc_identity_in source.now)) (take slot_count slots) }
{
    let known = known_place(slots, slot_count, source, name);
    if let Place::At(k) = known {
        return Place::At(k);
    }
    slot_tables::free_place(slots, slot_count)
}

// Question 16: the cryptographic check passed.
pub fn has_passed(supplement: Supplement) -> bool
    ensures { result ≡ eqb supplement.passed 1 }
{
    supplement.passed == 1
}

// Question 15: the module identity of a load response is the module's own.
pub fn is_own_module(source: &[u8], answer: LoadResponse, supplement: Supplement) -> bool
    requires { IsResponse answer.fields answer.kmc answer.module source.now }
    ensures { result ≡ same_bytes (module_identity_in source.now) (own_identity supplement) }
{
    let fields = answer.fields;
    let identity = byte_bounds::part(source, fields[2]);
    let n = supplement.identity_length;
    let own = supplement.identity;
    if 128 < n {
        return byte_strings::same_bytes(identity, &own);
    }
    byte_strings::same_bytes(identity, &own[..n])
}

// Then the fingerprint is the slot's.
pub fn has_fingerprint(source: &[u8], answer: LoadResponse, row: SlotRow) -> bool
    requires { IsResponse answer.fields answer.kmc answer.module source.now }
    ensures { result ≡ same_bytes (fingerprint_in (kmc_identity_in source.now)) row.fingerprint }
{
    let fields = answer.fields;
    let kmc = answer.kmc;
    let identity = byte_bounds::part(source, fields[1]);
    byte_strings::same_bytes(byte_bounds::part(identity, kmc[4]), &row.fingerprint)
}

// The TVP is the slot's.
pub fn has_tvp(source: &[u8], answer: LoadResponse, row: SlotRow) -> bool
    requires { IsResponse answer.fields answer.kmc answer.module source.now }
    ensures { result ≡ same_bytes (tvp_in source.now) row.tvp }
{
    let fields = answer.fields;
    byte_strings::same_bytes(byte_bounds::part(source, fields[3]), &row.tvp)
}

// The tag is the one expected.
pub fn has_tag(source: &[u8], answer: LoadResponse, supplement: Supplement) -> bool
    requires { IsResponse answer.fields answer.kmc answer.module source.now }
    ensures { result ≡ same_bytes (tag_in source.now) supplement.tag }
{
    let fields = answer.fields;
    byte_strings::same_secret(byte_bounds::part(source, fields[4]), &supplement.tag)
}

// The key of an incoming card in form as a number: SGC, ten digits, and KRN, one, at the bounds of their values.
fn card_key(card: &[u8], values: [Bounds; ROWS]) -> u64
    requires { (is_incoming card.now ≡ true) × AreValues values card.now }
    ensures { result ≡ decimal (group_in card.now) * 10 + decimal (revision_in card.now) }
{
    let group = text_decimals::decimal(byte_bounds::part(card, values[12]));
    let revision = text_decimals::decimal(byte_bounds::part(card, values[8]));
    group * 10 + revision
}

// Question 17: the register that holds the card's SGC and KRN, else the lowest free one.
pub fn store_place(
    keys: [u64; 32],
    register_count: usize,
    card: &[u8],
    values: [Bounds; ROWS],
) -> Place
    requires { (register_count ≤ 32) × ((is_incoming card.now ≡ true) × AreValues values card.now) }
    ensures { (R : List RegisterRow) → AreKeys (take register_count keys) R
        → place_of result ≡ store_place (group_in card.now) (revision_in card.now) R }
{
    let held = register_searches::key_place(keys, register_count, card_key(card, values));
    if let Place::At(k) = held {
        return Place::At(k);
    }
    register_searches::key_place(keys, register_count, 0)
}

// Whether the slot has a session: PENDING or LOADING.
pub fn has_session(row: SlotRow) -> bool
    ensures { result ≡ (has_state Pending row || has_state Loading row) }
{
    if slot_tests::has_state(row, SlotState::Pending) {
        return true;
    }
    slot_tests::has_state(row, SlotState::Loading)
}

// Question 18: whether a register, counted from 1, is filled.
pub fn is_filled(keys: [u64; 32], register_count: usize, register: usize) -> bool
    requires { register_count ≤ 32 }
    ensures { (R : List RegisterRow) → AreKeys (take register_count keys) R → result ≡ is_filled register R }
{
    if register < 1 {
        return false;
    }
    if register_count < register {
        return false;
    }
    keys[register - 1] != 0
}
