// Whole requests and responses as they are written and read: definitions and laws, no code (001 clauses 5.2 and 5.3).
#![tactic(auto)]
