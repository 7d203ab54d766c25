// No code: specs/ has the claim that lay gives the crossings that the former rule gave.

#![tactic(auto)]
