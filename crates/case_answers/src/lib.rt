// Theorems about the answer (document 01, "Cards", "Questions in order", "Sample values"): cards that are refused, what
// the stored card reads back as, and the numbers and statuses of the answers. No code.
#![tactic(auto)]
