// BLIF: what a text means as a network, and a network as a text, without code; their cases, and the laws of lines and words.
#![tactic(auto)]
