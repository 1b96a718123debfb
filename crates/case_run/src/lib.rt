// A run of all seven commands over two centres, computed: requests, items and rows as bytes (specs/Run), through the
// readings of demand 3 (proofs/Computed). No code.
#![tactic(auto)]
