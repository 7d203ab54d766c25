// No code: specs/ has the claim over every list of calls.

#![tactic(auto)]
