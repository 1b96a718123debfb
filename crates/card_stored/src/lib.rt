// What a card as stored is (document 01, Cards and question 3): definitions and their laws, no code. `card_writer`
// writes one, `card_places` tests whether one is.
#![tactic(auto)]
