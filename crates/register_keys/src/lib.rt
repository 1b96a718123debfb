// Question 3 of the registers (document 01, "Questions in order"): each row judged by itself and by its owner, its
// card read once; and their keys and owners as numbers, for the test that no two registers hold one key and for the
// questions after it.
#![tactic(auto)]

ghost use Rattle.std.specs.Prelude.{◌≡◌, true, false, map, ◌+◌, ◌-◌, ◌*◌, ◌≤◌, length, take, drop};
ghost use Rattle.text_decimals.specs.Decimals.{decimal};
ghost use Rattle.row_types.specs.Lists.{every_row, distinct_rows};
ghost use Rattle.row_types.specs.Index.{is_called, key_number, is_same_number};
ghost use Rattle.row_index.specs.Found.{number_of, owner_number};
ghost use Rattle.row_index.specs.Lent.{row_with, rows_with};
ghost use Rattle.register_keys.specs.Judged.{is_card_owned, card_number, card_owner, is_sound_under};

// Whether a row is sound and owned; and where it is, its key and the number of its owner.
#[derive(Clone, Copy)]
struct Judged {
    sound: bool,
    key: u64,
    owner: usize,
}

// The number of the name that is the value of the entry at ksl, which ends before ktc.
fn owner_at(card: &[u8], ksl: usize, ktc: usize, names: &[[u8; 40]]) -> usize
    requires { (ksl + 3 ≤ ktc - 1) × (1 ≤ ktc) × (ktc - 1 ≤ length card.now) }
    ensures { result ≡ number_of
        (is_called (take (ktc - 1 - (ksl + 3)) (drop (ksl + 3) card.now)))
        names.now }
{
    let start = ksl + 3;
    let end = ktc - 1;
    slot_names::number_of(names, &card[start..end])
}

// The ten digits of the entry at sgc and the one of that at krn, as a number.
fn key_at(card: &[u8], sgc: usize, krn: usize) -> u64
    requires { (sgc + 13 ≤ length card.now) × (krn + 4 ≤ length card.now) }
    ensures { result ≡ decimal (take (sgc + 13 - (sgc + 3)) (drop (sgc + 3) card.now)) * 10
        + decimal (take (krn + 4 - (krn + 3)) (drop (krn + 3) card.now)) }
{
    let group = text_decimals::decimal(&card[sgc + 3..sgc + 13]);
    let revision = text_decimals::decimal(&card[krn + 3..krn + 4]);
    group * 10 + revision
}

// A row that is not sound or not owned, of which no number is told.
fn unsound() -> Judged
    ensures { result.sound ≡ false }
{
    Judged {
        sound: false,
        key: 0,
        owner: 0,
    }
}

// A filled row's card.
fn judge_card(card: &[u8], names: &[[u8; 40]]) -> Judged
    ensures sound_value { result.sound ≡ is_card_owned names.now card.now }
    ensures key { result.sound ≡ true → result.key ≡ card_number card.now }
    ensures owner { result.sound ≡ true → result.owner ≡ card_owner names.now card.now }
{
    let p = card_places::find_places(card);
    if !p.stored {
        return unsound();
    }
    let owner = owner_at(card, p.ksl, p.ktc, names);
    if owner == 0 {
        return unsound();
    }
    let key = key_at(card, p.sgc, p.krn);
    Judged {
        sound: true,
        key,
        owner,
    }
}

// A row by its card; the numbers of a free one are 0.
fn judge_register(card: &[u8; 256], names: &[[u8; 40]]) -> Judged
    ensures sound_value { result.sound ≡ is_sound_under names.now (row_with card.now) }
    ensures key { result.sound ≡ true
        → result.key ≡ key_number (row_with card.now) }
    ensures owner { result.sound ≡ true
        → result.owner ≡ owner_number names.now (row_with card.now) }
{
    if register_rows::is_clear(card) {
        return Judged {
            sound: true,
            key: 0,
            owner: 0,
        };
    }
    judge_card(card, names)
}

// Whether each row is sound and owned; and where they are, their keys and the numbers of their owners.
#[derive(Clone, Copy)]
pub struct Findings {
    pub sound: bool,
    pub keys: [u64; 32],
    pub owners: [usize; 32],
}

// The registers, by their cards, owned by slots with these names.
pub fn judge_registers(cards: &[[u8; 256]], names: &[[u8; 40]]) -> Findings
    requires { length cards.now ≤ 32 }
    ensures sound_value { result.sound ≡ every_row (is_sound_under names.now) (rows_with cards.now) }
    ensures places { length result.keys ≡ 32 }
    ensures keys { result.sound ≡ true
        → take (length cards.now) result.keys ≡ map key_number (rows_with cards.now) }
    ensures owners { result.sound ≡ true
        → take (length cards.now) result.owners
        ≡ map (owner_number names.now) (rows_with cards.now) }
{
    let mut keys = [0u64; 32];
    let mut owners = [0usize; 32];
    let mut i = 0;
    while i < cards.len() {
        let j = judge_register(&cards[i], names);
        if !j.sound {
            return Findings {
                sound: false,
                keys,
                owners,
            };
        }
        keys[i] = j.key;
        owners[i] = j.owner;
        i += 1;
    }
    Findings {
        sound: true,
        keys,
        owners,
    }
}

// Whether two rows with these keys hold one; 0 is the key of a free row.
fn is_same_number(a: u64, b: u64) -> bool
    ensures { result ≡ is_same_number a b }
{
    if a == 0 {
        return false;
    }
    a == b
}

// Whether no two registers hold one key.
pub fn are_keys_distinct(keys: &[u64]) -> bool
    ensures { result ≡ distinct_rows is_same_number keys.now }
{
    let mut i = 0;
    while i < keys.len() {
        let a = keys[i];
        let mut j = i + 1;
        while j < keys.len() {
            if is_same_number(a, keys[j]) {
                return false;
            }
            j += 1;
        }
        i += 1;
    }
    true
}
