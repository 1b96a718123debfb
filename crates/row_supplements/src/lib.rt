// The supplement, a term of document 01 ("What the caller lends"): whether all of it is well formed (question 4).
#![tactic(auto)]

ghost use Rattle.std.specs.Prelude.{◌≡◌};
ghost use Rattle.row_types.specs.Supplements.{is_identity_right, is_load_request_right, is_well_formed};

use row_types::Supplement;
use text_classes::Class;
use text_forms::Form;

// Whether the module's own record parses and its fields are in form.
fn is_identity_right(supplement: Supplement) -> bool
    ensures { result ≡ is_identity_right supplement }
{
    let n = supplement.identity_length;
    if 128 < n {
        return false;
    }
    let identity = supplement.identity;
    let record = record_identities::read_module_identity(&identity[..n]);
    if !record.parsed {
        return false;
    }
    let fields = record.fields;
    record_identities::is_identity_in_form(&identity[..n], fields)
}

// Whether the load request is 1 to 700 bytes of text.
fn is_load_request_right(supplement: Supplement) -> bool
    ensures { result ≡ is_load_request_right supplement }
{
    let n = supplement.request_length;
    if n < 1 {
        return false;
    }
    if 700 < n {
        return false;
    }
    let request = supplement.request;
    text_classes::are_all_long(Class::Text, &request[..n])
}

// Whether the supplement is well formed, all of it.
pub fn is_well_formed(supplement: Supplement) -> bool
    ensures { result ≡ is_well_formed supplement }
{
    if !text_forms::in_form(Form::Timestamp, &supplement.clock) {
        return false;
    }
    if !is_identity_right(supplement) {
        return false;
    }
    if !is_load_request_right(supplement) {
        return false;
    }
    if !text_forms::in_form(Form::Hex(48), &supplement.tag) {
        return false;
    }
    if !text_forms::in_form(Form::Hex(6), &supplement.check) {
        return false;
    }
    if 1 < supplement.passed {
        return false;
    }
    true
}
