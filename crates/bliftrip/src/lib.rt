// What goes out as BLIF comes back, what a text gives, and how reading and writing end: laws over the definitions of `blif`, without code.
#![tactic(auto)]
