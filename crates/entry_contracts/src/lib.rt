// What the entry points promise, as definitions: of a call over lent rows and of one over tables, in numbers; and the
// reply that they return. Numbers stand in place of enums (document 01, "Where an answer is an enum, a definition gives
// this paper's number and values for each of its cases").
#![tactic(auto)]

// The outcome's number, the slot state that the answer carries (255 where it carries none), and the length of the
// response.
#[repr(C)]
#[derive(Clone, Copy)]
pub struct Reply {
    pub outcome: u8,
    pub state: u8,
    pub length: usize,
}
