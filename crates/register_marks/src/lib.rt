// Question 3 of the marks (document 02, N3): closed, or open beside a key whose slot is PENDING or LOADING; by the
// numbers of the registers' owners and of the slots' states, which question 3 found before.
#![tactic(auto)]

ghost use Rattle.std.specs.Prelude.{◌≡◌, ◌≤◌, take};
ghost use Rattle.register_marks.specs.Marked.{is_mark_right, are_marks_right, AreUpTo};

use row_types::{CLOSED, OPEN};

// Whether a register with this owner may have this mark.
fn is_mark_right(states: [u8; 8], owner: usize, mark: u8) -> bool
    requires { owner ≤ 8 }
    ensures { result ≡ is_mark_right states owner mark }
{
    if mark == CLOSED {
        return true;
    }
    if mark != OPEN {
        return false;
    }
    if owner == 0 {
        return false;
    }
    // PENDING is 1, LOADING 2
    let state = states[owner - 1];
    if state == 1 {
        return true;
    }
    state == 2
}

// Whether each of the first register_count registers may have its mark.
pub fn are_marks_right(
    states: [u8; 8],
    owners: [usize; 32],
    marks: [u8; 32],
    register_count: usize,
) -> bool
    requires { (register_count ≤ 32) × AreUpTo 8 (take register_count owners) }
    ensures { result ≡ are_marks_right states (take register_count owners) marks }
{
    let mut i = 0;
    while i < register_count {
        if !is_mark_right(states, owners[i], marks[i]) {
            return false;
        }
        i += 1;
    }
    true
}
