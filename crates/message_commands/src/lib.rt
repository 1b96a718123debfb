// The ten commands of document 01 by their headers, fixed byte strings that are compared with a request's (001
// clauses 6.2.7 and 6.3).
#![tactic(auto)]

ghost use Rattle.std.specs.Prelude.{◌≡◌, ◌∷◌, ◌+◌, ◌<◌, drop};
ghost use Rattle.message_commands.specs.Commands.{headers, command_of};

// The commands by the letters of their headers, and what is none of them.
#[derive(Clone, Copy)]
pub enum Command {
    RS,
    KC,
    KR,
    KL,
    KF,
    KX,
    KD,
    GA,
    GL,
    KQ,
    Unknown,
}

// A command and the header of its request.
#[derive(Clone, Copy)]
pub struct Header(pub Command, pub [u8; 5]);

const HEADERS: [Header; 10] = [
    Header(Command::RS, *b"GL?RS"),
    Header(Command::KC, *b"SM?KC"),
    Header(Command::KR, *b"SM?KR"),
    Header(Command::KL, *b"SM?KL"),
    Header(Command::KF, *b"SM?KF"),
    Header(Command::KX, *b"SM?KX"),
    Header(Command::KD, *b"SM?KD"),
    Header(Command::GA, *b"SM?GA"),
    Header(Command::GL, *b"SM?GL"),
    Header(Command::KQ, *b"SM?KQ"),
];

fn header_at(k: usize) -> Header
    requires { k < 10 }
    ensures { drop k headers ≡ result ∷ drop (k + 1) headers }
{
    HEADERS[k]
}

// The command of a request's header (question 7).
pub fn command_of(header: &[u8]) -> Command
    ensures { result ≡ command_of header.now }
{
    let mut k = 0;
    while k < 10 {
        let e = header_at(k);
        let name = e.1;
        if byte_strings::same_bytes(header, &name) {
            return e.0;
        }
        k += 1;
    }
    Command::Unknown
}
