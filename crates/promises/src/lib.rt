// Other languages: what the calls say and promise, stated in specs/ and proved in proofs/, without code.
#![tactic(auto)]
