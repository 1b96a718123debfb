// Attribute cards: entries of a name, a value and a semicolon (document 01, Cards; 001 Annex F; 003 Appendix B).
#![tactic(auto)]

ghost use Rattle.std.specs.Prelude.{◌≡◌, ◌<◌};
ghost use Rattle.card_entries.specs.Entries.{name_of};

use text_classes::Class;

// Where a value stands in a card.
#[derive(Clone, Copy)]
pub enum Found {
    At { start: usize, end: usize },
    Nothing,
}

// The name of an entry, 0 where it has none.
#[tactic(auto, unfolding(crate::specs::Entries::name_of))]
pub fn name_of(entry: &[u8]) -> u32
    ensures { result ≡ name_of entry.now }
{
    let [first, second, third, ..] = entry else {
        return 0;
    };
    if text_classes::is_of(Class::Capital, *first)
        && text_classes::is_of(Class::Capital, *second)
        && text_classes::is_of(Class::Capital, *third)
    {
        u32::from(*first) * 65536 + u32::from(*second) * 256 + u32::from(*third)
    } else {
        0
    }
}
