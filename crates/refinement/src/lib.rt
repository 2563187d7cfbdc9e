// The events refine the reference model: an edited list is the list worked out afresh, and each call is the model's
// step. Laws, no code.

#![tactic(auto)]
