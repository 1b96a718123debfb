// The slots' names as they are kept, zeros after them (document 01, "Slots and registers"): the number of the one
// that a name is, and whether no two are one.
#![tactic(auto)]

ghost use Rattle.std.specs.Prelude.{◌≡◌};
ghost use Rattle.row_types.specs.Lists.{distinct_rows};
ghost use Rattle.row_types.specs.Index.{is_called, is_same_name};
ghost use Rattle.row_index.specs.Found.{number_of};

// Whether a kept name is the name. Names mostly differ in their last byte, so that is compared before the name's
// end is looked for.
fn is_called(kept: &[u8], name: &[u8]) -> bool
    ensures { result ≡ is_called name.now kept.now }
{
    if name.len() == 0 {
        return false;
    }
    if kept.len() < name.len() {
        return false;
    }
    let last = name.len() - 1;
    if kept[last] != name[last] {
        return false;
    }
    byte_strings::same_bytes(slot_tests::trimmed(kept), name)
}

// The number of the kept name that is the name, counted from 1; 0 where none is.
pub fn number_of(names: &[[u8; 40]], name: &[u8]) -> usize
    ensures { result ≡ number_of (is_called name.now) names.now }
{
    let mut i = 0;
    while i < names.len() {
        if is_called(&names[i], name) {
            return i + 1;
        }
        i += 1;
    }
    0
}

// Whether no two names are one.
pub fn are_names_distinct(names: &[[u8; 40]]) -> bool
    ensures { result ≡ distinct_rows is_same_name names.now }
{
    let mut i = 0;
    while i < names.len() {
        let a = slot_tests::trimmed(&names[i]);
        let mut j = i + 1;
        while j < names.len() {
            if is_called(&names[j], a) {
                return false;
            }
            j += 1;
        }
        i += 1;
    }
    true
}
