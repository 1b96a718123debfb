// Whether the fields of a public key, load response or wrapped key are in form: question 10 (003 clauses 7.2 to 7.5;
// document 01, "Records").
#![tactic(auto)]

ghost use Rattle.std.specs.Prelude.{◌≡◌, true, ◌&&◌};
ghost use Rattle.record_parser.specs.Records.{field, AreFields};
ghost use Rattle.text_forms.specs.Forms.{in_form};
ghost use Rattle.text_forms.specs.declared.Form.TheVariants.{Empty};
ghost use Rattle.card_incoming.specs.Incoming.{AreValues};
ghost use Rattle.record_types.specs.KeyRecords.{bar, public_key_in_form, response_in_form, key_in_form};
ghost use Rattle.record_types.specs.KeyRecords.{IsPublicKey, IsResponse};

use byte_bounds::Bounds;
use card_incoming::Incoming;
use record_types::{LoadResponse, PublicKey};
use text_forms::Form;

// Whether the last two fields of a public key are empty.
fn are_last_empty(source: &[u8], fields: [Bounds; 6]) -> bool
    requires { AreFields bar 5 fields source.now }
    ensures { result ≡ (in_form Empty (field bar 4 source.now)
        && in_form Empty (field bar 5 source.now)) }
{
    if !record_identities::is_part_in_form(source, fields[4], Form::Empty) {
        return false;
    }
    record_identities::is_part_in_form(source, fields[5], Form::Empty)
}

// Whether the fields of a public key are in form.
pub fn is_public_key_in_form(source: &[u8], key: PublicKey) -> bool
    requires { IsPublicKey key.fields key.kmc source.now }
    ensures { result ≡ public_key_in_form source.now }
{
    let fields = key.fields;
    let kmc = key.kmc;
    if !record_identities::is_identity_in_form(byte_bounds::part(source, fields[1]), kmc) {
        return false;
    }
    if !record_identities::is_part_in_form(source, fields[2], Form::HexSome) {
        return false;
    }
    if !record_identities::is_part_in_form(source, fields[3], Form::Timestamp) {
        return false;
    }
    are_last_empty(source, fields)
}

// Whether the fields of a load response are in form.
pub fn is_response_in_form(source: &[u8], answer: LoadResponse) -> bool
    requires { IsResponse answer.fields answer.kmc answer.module source.now }
    ensures { result ≡ response_in_form source.now }
{
    let fields = answer.fields;
    let kmc = answer.kmc;
    let module = answer.module;
    if !record_identities::is_identity_in_form(byte_bounds::part(source, fields[1]), kmc) {
        return false;
    }
    if !record_identities::is_identity_in_form(byte_bounds::part(source, fields[2]), module) {
        return false;
    }
    if !record_identities::is_part_in_form(source, fields[3], Form::Timestamp) {
        return false;
    }
    record_identities::is_part_in_form(source, fields[4], Form::Hex(48))
}

// The card of a wrapped key, read; in form where all fields of the key are.
pub fn read_key_card(source: &[u8], fields: [Bounds; 6]) -> Incoming
    requires { AreFields bar 3 fields source.now }
    ensures in_form_value { result.in_form ≡ key_in_form source.now }
    ensures values { result.in_form ≡ true → AreValues result.values (field bar 2 source.now) }
{
    let nonce = record_identities::is_part_in_form(source, fields[1], Form::HexSome);
    let card = card_incoming::read_card(byte_bounds::part(source, fields[2]));
    let key = record_identities::is_part_in_form(source, fields[3], Form::HexSome);
    let values = card.values;
    Incoming {
        in_form: nonce & (card.in_form & key),
        values,
    }
}
