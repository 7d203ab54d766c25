// No code: specs/ has what a chart that was written gives when it is read.

#![tactic(auto)]
