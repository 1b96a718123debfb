// Theorems about cards: what is written of an incoming card is a card as stored and reads back (proofs/RoundTrip,
// proofs/Incoming), and a card as stored is text (proofs/StoredText). No code.
#![tactic(auto)]
