// A card as stored, read once: whether it is one, and where the values stand that question 3 compares (document 01,
// Cards and question 3). Most values have one length, so that most bytes stand at known places and are compared with a
// pattern: a digit for itself and the smaller ones, F for every hexadecimal digit, any other byte for itself.
#![tactic(auto)]

ghost use Rattle.std.specs.Prelude.{◌≡◌, ◌+◌, ◌≤◌, ◌<◌, length, take};
ghost use Rattle.text_forms.specs.declared.Form.TheVariants.{Number, Label};
ghost use Rattle.card_attributes.specs.Table.{KEN, KRN, SGN, ULM, table};
ghost use Rattle.card_stored.specs.Stored.{is_stored};
ghost use Rattle.card_steps.specs.Steps.{after};
ghost use Rattle.card_places.specs.Places.{after_all, after_kept, after_fitting, is_clear};

use card_attributes::{KEN, KSL, SGN, ULM, VND};
use text_classes::Class;
use text_forms::Form;

// The place after entries whose values have one length, told by a pattern.
fn after_fitting(s: &[u8], at: usize, pattern: &[u8]) -> usize
    requires { (at ≤ length s.now + 1) × (0 < length pattern.now) × (length pattern.now ≤ 256) }
    ensures value { result ≡ after_fitting pattern.now s.now at }
    ensures within { result ≤ length s.now + 1 }
{
    if s.len() < at + pattern.len() {
        return s.len() + 1;
    }
    if !text_patterns::fits(s, at, pattern) {
        return s.len() + 1;
    }
    at + pattern.len()
}

// The place after the entry of KRN, 1 to 9.
fn after_revision(s: &[u8], at: usize) -> usize
    requires { at ≤ length s.now + 1 }
    ensures value { result ≡ after KRN (Number 1 1 9) s.now at }
    ensures within { result ≤ length s.now + 1 }
{
    let end = after_fitting(s, at, b"KRN9;");
    if s.len() < end {
        return s.len() + 1;
    }
    if s[at + 3] < b'1' {
        return s.len() + 1;
    }
    end
}

// The place of KEN's entry, the eighth; beyond the end, where the seven before it or its name do not stand. The name is
// compared with them, since that makes 96 bytes, six times the sixteen that are compared at a time.
fn after_first(s: &[u8]) -> usize
    ensures result_value { after KEN (Number 3 0 255) s.now result ≡ after_all (take 8 table) s.now 0 }
    ensures within { result ≤ length s.now + 1 }
{
    if s.len() < 96 {
        return s.len() + 1;
    }
    if !text_patterns::fits(
        s,
        0,
        b"ACT99999999T999999Z;BDT99999999T999999Z;CLMFFFFFFFF;CLU0;DKG04;IUT99999999T999999Z;KCVFFFFFF;KEN",
    ) {
        return s.len() + 1;
    }
    if !text_forms::in_form(Form::Timestamp, &s[3..19]) {
        return s.len() + 1;
    }
    if !text_forms::in_form(Form::Timestamp, &s[23..39]) {
        return s.len() + 1;
    }
    if !text_forms::in_form(Form::Algorithm, &s[60..62]) {
        return s.len() + 1;
    }
    if !text_forms::in_form(Form::Timestamp, &s[66..82]) {
        return s.len() + 1;
    }
    93
}

// The place after the entry of ULM, before which that of SGN may stand. ULM is looked for first, since most cards have
// no SGN.
fn after_limit(s: &[u8], at: usize) -> usize
    requires { at ≤ length s.now + 1 }
    ensures value { result
        ≡ after ULM (Number 9 0 999999999) s.now (after_kept SGN (Label 24) s.now at) }
    ensures within { result ≤ length s.now + 1 }
{
    let end = card_steps::after_number(s, at, ULM, 9, 999999999);
    if end <= s.len() {
        return end;
    }
    let ulm = card_steps::after_any(s, at, SGN, Form::Label(24));
    card_steps::after_number(s, ulm, ULM, 9, 999999999)
}

// Whether s is 256 bytes, and from a place within them on only zeros stand.
fn is_clear(s: &[u8], at: usize) -> bool
    ensures { result ≡ is_clear s.now at }
{
    if s.len() != 256 {
        return false;
    }
    if s.len() < at {
        return false;
    }
    text_classes::are_all_long(Class::Zero, &s[at..])
}

// Whether a card is one as stored; where the entries of KRN and KSL, the one after KSL, and that of SGC stand in it.
#[derive(Clone, Copy)]
pub struct Places {
    pub stored: bool,
    pub krn: usize,
    pub ksl: usize,
    pub ktc: usize,
    pub sgc: usize,
}

// The places in a card, which is to be 256 bytes.
pub fn find_places(card: &[u8]) -> Places
    ensures stored_value { result.stored ≡ is_stored card.now }
    ensures krn { result.krn ≡ after_all (take 8 table) card.now 0 }
    ensures ksl { result.ksl ≡ after_all (take 9 table) card.now 0 }
    ensures ktc { result.ktc ≡ after_all (take 10 table) card.now 0 }
    ensures sgc { result.sgc ≡ after_all (take 12 table) card.now 0 }
{
    let ken = after_first(card);
    let krn = card_steps::after_number(card, ken, KEN, 3, 255);
    let ksl = after_revision(card, krn);
    let ktc = card_steps::after_any(card, ksl, KSL, Form::Name);
    let sgc = after_fitting(card, ktc, b"KTC3;SBMFFFF;");
    let sgn = after_fitting(card, sgc, b"SGC9999999999;");
    let vnd = after_limit(card, sgn);
    let end = card_steps::after_number(card, vnd, VND, 9, 999999999);
    let stored = is_clear(card, end);
    Places {
        stored,
        krn,
        ksl,
        ktc,
        sgc,
    }
}
