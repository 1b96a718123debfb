// Questions 1 and 2 (document 01, "Questions in order"): the row counts, and the length of the response buffer. They
// look at no row.
#![tactic(auto)]

ghost use Rattle.std.specs.Prelude.{◌≡◌};
ghost use Rattle.engine.specs.Questions.{are_counts};
ghost use Rattle.decide_counts.specs.First.{first_refusal};

// Whether there are 1 to 8 slots and 1 to 32 registers.
pub fn are_counts(slot_count: usize, register_count: usize) -> bool
    ensures { result ≡ are_counts slot_count register_count }
{
    if slot_count < 1 {
        return false;
    }
    if 8 < slot_count {
        return false;
    }
    if register_count < 1 {
        return false;
    }
    register_count <= 32
}

// The number of the refusal that questions 1 and 2 come to; 0 where both are a yes.
pub fn first_refusal(slot_count: usize, register_count: usize, room: usize) -> u8
    ensures { result ≡ first_refusal slot_count register_count room }
{
    if !are_counts(slot_count, register_count) {
        return 1;
    }
    if room < 1024 {
        return 2;
    }
    0
}
