// Rows of symbols: definitions and laws, no code.
#![tactic(auto)]
