// The starred worked examples of the scope paper: definitions and their computation, no code.

#![tactic(auto)]
