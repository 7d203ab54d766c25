// No code: specs/ has what an export gives when it is imported, and an import when it is exported.

#![tactic(auto)]
