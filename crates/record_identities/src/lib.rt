// Identities of key management centres and modules (003 clause 7.1; document 01, "Records"), and the form of a
// record's fields.
#![tactic(auto)]

ghost use Rattle.std.specs.Prelude.{◌≡◌, true, length};
ghost use Rattle.byte_bounds.specs.Bounds.{bytes_in, FitIn};
ghost use Rattle.record_parser.specs.Records.{AreFields};
ghost use Rattle.text_forms.specs.Forms.{in_form};
ghost use Rattle.record_identities.specs.Identities.{colon, is_kmc_identity, is_module_identity, identity_in_form};

use byte_bounds::Bounds;
use record_parser::Record;
use text_forms::Form;

// The identity of a KMC, cut.
pub fn read_kmc_identity(source: &[u8]) -> Record
    ensures parsed_value { result.parsed ≡ is_kmc_identity source.now }
    ensures fields { result.parsed ≡ true → AreFields colon 4 result.fields source.now }
{
    record_parser::read_record(b"KMCID.1", b':', 4, source)
}

// The identity of a module, cut.
pub fn read_module_identity(source: &[u8]) -> Record
    ensures parsed_value { result.parsed ≡ is_module_identity source.now }
    ensures fields { result.parsed ≡ true → AreFields colon 4 result.fields source.now }
{
    record_parser::read_record(b"SMID.1", b':', 4, source)
}

// Whether the part within bounds is in a form.
pub fn is_part_in_form(source: &[u8], bounds: Bounds, form: Form) -> bool
    requires { FitIn (length source.now) bounds }
    ensures { result ≡ in_form form (bytes_in source.now bounds) }
{
    text_forms::in_form(form, byte_bounds::part(source, bounds))
}

// Whether the fields of an identity are in form.
pub fn is_identity_in_form(source: &[u8], fields: [Bounds; 6]) -> bool
    requires { AreFields colon 4 fields source.now }
    ensures { result ≡ identity_in_form source.now }
{
    if !is_part_in_form(source, fields[1], Form::Name) {
        return false;
    }
    if !is_part_in_form(source, fields[2], Form::Name) {
        return false;
    }
    if !is_part_in_form(source, fields[3], Form::Timestamp) {
        return false;
    }
    is_part_in_form(source, fields[4], Form::Hex(16))
}
