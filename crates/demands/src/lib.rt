// The three demands, of what the calls of crates `loading` and `engine` give: stated in specs/Demands.antt and proved in proofs/, over the
// definitions that the contracts of the calls cite, without code.
#![tactic(auto)]
