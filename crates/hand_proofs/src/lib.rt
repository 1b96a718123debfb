#![tactic(auto)]

// What proofs by hand share: their imports (proofs/Prelude), steps of any function (proofs/Walk, proofs/Loan),
// and functions of one parameter (proofs/OneParameter). No code.
