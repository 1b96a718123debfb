// The records of key management, cut: the public key, load response and wrapped key, with the identities inside them:
// question 9 (003 clauses 7.2 to 7.5; document 01, "Records").
#![tactic(auto)]

ghost use Rattle.std.specs.Prelude.{◌≡◌, true};
ghost use Rattle.record_parser.specs.Records.{AreFields};
ghost use Rattle.record_types.specs.KeyRecords.{bar, parses_public_key, parses_response, parses_key};
ghost use Rattle.record_types.specs.KeyRecords.{IsPublicKey, IsResponse};

use byte_bounds::Bounds;
use record_parser::Record;

// A public key record, cut, with its KMC identity.
#[derive(Clone, Copy)]
pub struct PublicKey {
    pub parsed: bool,
    pub fields: [Bounds; 6],
    pub kmc: [Bounds; 6],
}

// A load response record, cut, with its two identities.
#[derive(Clone, Copy)]
pub struct LoadResponse {
    pub parsed: bool,
    pub fields: [Bounds; 6],
    pub kmc: [Bounds; 6],
    pub module: [Bounds; 6],
}

// The public key, cut.
pub fn read_public_key(source: &[u8]) -> PublicKey
    ensures parsed_value { result.parsed ≡ parses_public_key source.now }
    ensures fields { result.parsed ≡ true → IsPublicKey result.fields result.kmc source.now }
{
    let record = record_parser::read_record(b"PK.ECDH.1", b'|', 5, source);
    let fields = record.fields;
    if !record.parsed {
        return PublicKey {
            parsed: false,
            fields,
            kmc: fields,
        };
    }
    let identity = record_identities::read_kmc_identity(byte_bounds::part(source, fields[1]));
    let kmc = identity.fields;
    PublicKey {
        parsed: identity.parsed,
        fields,
        kmc,
    }
}

// The load response, cut.
pub fn read_response(source: &[u8]) -> LoadResponse
    ensures parsed_value { result.parsed ≡ parses_response source.now }
    ensures fields { result.parsed ≡ true → IsResponse result.fields result.kmc result.module source.now }
{
    let record = record_parser::read_record(b"VKLOAD.RESP.1", b'|', 4, source);
    let fields = record.fields;
    if !record.parsed {
        return LoadResponse {
            parsed: false,
            fields,
            kmc: fields,
            module: fields,
        };
    }
    let centre = record_identities::read_kmc_identity(byte_bounds::part(source, fields[1]));
    let kmc = centre.fields;
    if !centre.parsed {
        return LoadResponse {
            parsed: false,
            fields,
            kmc,
            module: fields,
        };
    }
    let identity = record_identities::read_module_identity(byte_bounds::part(source, fields[2]));
    let module = identity.fields;
    LoadResponse {
        parsed: identity.parsed,
        fields,
        kmc,
        module,
    }
}

// The wrapped key, cut.
pub fn read_key(source: &[u8]) -> Record
    ensures parsed_value { result.parsed ≡ parses_key source.now }
    ensures fields { result.parsed ≡ true → AreFields bar 3 result.fields source.now }
{
    record_parser::read_record(b"KEY.1", b'|', 3, source)
}
