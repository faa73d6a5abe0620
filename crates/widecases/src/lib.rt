// Cases of gates with five and six fan-ins, which take longer to compute than the others: over the definitions of `network`, without code.
#![tactic(auto)]
