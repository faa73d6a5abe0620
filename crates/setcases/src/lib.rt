// Cases of the sets and of the calls, document 004's examples among them, which take longer to compute than 01's own: over the definitions
// of `network`, without code.
#![tactic(auto)]
