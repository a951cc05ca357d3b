// What reading a source text is worth: the definitions that its theorems cite, in specs/, and the theorems, in proofs/. No code.
#![tactic(auto)]
