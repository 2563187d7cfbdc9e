// The reference model of demand 3, and what demand 3 says: definitions and laws, no code.

#![tactic(auto)]
