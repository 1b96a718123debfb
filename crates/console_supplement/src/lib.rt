// The supplement that the console hands in (docs/CONSOLE.md): each part set by a line, and all of it at the start.
#![tactic(auto)]

ghost use Rattle.std.specs.Prelude.{◌≡◌};
ghost use Rattle.row_types.specs.Lists.{padded};
ghost use Rattle.console_supplement.specs.Parts.{fitted, with_part, with_passed, blank, start_supplement};

use console_verbs::Part;
use row_types::Supplement;

// Bytes that fill their place; where they do not, zeros.
#[tactic(auto, unfolding(crate::specs::Parts::fitted))]
fn fitted<const N: usize>(v: &[u8]) -> [u8; N]
    ensures { result ≡ fitted N v.now }
{
    <[u8; N]>::try_from(v).unwrap_or([0; N])
}

// What fits of the bytes into their place, with zeros after it.
#[tactic(auto, unfolding(row_types::specs::Lists::padded))]
fn padded<const N: usize>(v: &[u8]) -> [u8; N]
    ensures { result ≡ padded N v.now }
{
    let mut space = [0; N];
    let front = byte_strings::front(v, N);
    space[..front.len()].copy_from_slice(front);
    space
}

// The supplement with one part set.
pub fn set_part(supplement: Supplement, part: Part, value: &[u8]) -> Supplement
    ensures { result ≡ with_part part value.now supplement }
{
    match part {
        Part::Clock => Supplement {
            clock: fitted(value),
            ..supplement
        },
        Part::Identity => Supplement {
            identity: padded(value),
            identity_length: value.len(),
            ..supplement
        },
        Part::LoadRequest => Supplement {
            request: padded(value),
            request_length: value.len(),
            ..supplement
        },
        Part::Tag => Supplement {
            tag: fitted(value),
            ..supplement
        },
        Part::Check => Supplement {
            check: fitted(value),
            ..supplement
        },
    }
}

// The supplement with another yes or no.
pub fn set_passed(supplement: Supplement, passed: u8) -> Supplement
    ensures { result ≡ with_passed passed supplement }
{
    Supplement {
        passed,
        ..supplement
    }
}

#[tactic(auto, unfolding(crate::specs::Parts::blank))]
fn blank() -> Supplement
    ensures { result ≡ blank }
{
    Supplement {
        clock: [0; 16],
        identity: [0; 128],
        identity_length: 0,
        request: [0; 700],
        request_length: 0,
        tag: [b'0'; 48],
        check: [b'0'; 6],
        passed: 1,
    }
}

// The supplement at the start.
#[tactic(auto, unfolding(crate::specs::Parts::start_supplement))]
pub fn start_supplement() -> Supplement
    ensures { result ≡ start_supplement }
{
    let a = set_part(blank(), Part::Clock, b"20260101T000000Z");
    let b = set_part(
        a,
        Part::Identity,
        b"SMID.1:Prism:12345678:20130303T153830Z:E7C42215AF1FE951:9C7D",
    );
    set_part(b, Part::LoadRequest, b"VKLOAD.REQ.1")
}
