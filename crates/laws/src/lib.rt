// Mathematics about the definitions of model; no code.

#![tactic(auto)]
