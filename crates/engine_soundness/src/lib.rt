// Theorems about question 3 (document 01, "Questions in order"): every answer leaves sound rows sound, so from empty
// tables on no call is refused for its rows (proofs/StaysSound). No code.
#![tactic(auto)]
