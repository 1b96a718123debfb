// What question 3 finds of each register beside its answer, for the questions after it (document 01, "Questions in
// order"): its key and its owner as numbers, and what they say of the rows. Definitions and laws; no function.
#![tactic(auto)]
