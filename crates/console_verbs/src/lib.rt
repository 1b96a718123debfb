// What the first word of a line of the console names (docs/CONSOLE.md).
#![tactic(auto)]

ghost use Rattle.std.specs.Prelude.{◌≡◌};
ghost use Rattle.console_verbs.specs.Verbs.{word_of, verb_of};

// The parts of the supplement that a line can set.
#[derive(Clone, Copy)]
pub enum Part {
    Clock,
    Identity,
    LoadRequest,
    Tag,
    Check,
}

// The first words that there are.
#[derive(Clone, Copy)]
pub enum Verb {
    Tables,
    Buffer,
    Set(Part),
    Passed,
    Send,
    Raw,
    Slot,
    Register,
    Rows,
    Usable,
    Show,
}

const VERBS: [Verb; 15] = [
    Verb::Tables,
    Verb::Buffer,
    Verb::Set(Part::Clock),
    Verb::Set(Part::Identity),
    Verb::Set(Part::LoadRequest),
    Verb::Set(Part::Tag),
    Verb::Set(Part::Check),
    Verb::Passed,
    Verb::Send,
    Verb::Raw,
    Verb::Slot,
    Verb::Register,
    Verb::Rows,
    Verb::Usable,
    Verb::Show,
];

// The word that names a verb.
fn word_of(verb: Verb) -> &'static [u8]
    ensures { result.now ≡ word_of verb }
{
    match verb {
        Verb::Tables => b"tables",
        Verb::Buffer => b"buffer",
        Verb::Set(Part::Clock) => b"clock",
        Verb::Set(Part::Identity) => b"identity",
        Verb::Set(Part::LoadRequest) => b"loadreq",
        Verb::Set(Part::Tag) => b"tag",
        Verb::Set(Part::Check) => b"check",
        Verb::Passed => b"passed",
        Verb::Send => b"send",
        Verb::Raw => b"raw",
        Verb::Slot => b"slot",
        Verb::Register => b"register",
        Verb::Rows => b"rows",
        Verb::Usable => b"usable",
        Verb::Show => b"show",
    }
}

// The verb that a word names; none where there is no such verb.
pub fn verb_of(word: &[u8]) -> Option<Verb>
    ensures { result ≡ verb_of word.now }
{
    VERBS.iter().find(|verb| word == word_of(**verb)).copied()
}
