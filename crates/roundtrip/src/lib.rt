// The file: its laws, without code. Written and read again it is the same network; the longest, the bytes that matter, those cut short;
// and what is kept of the file of 01 alone, which has one gate record. They are stated in specs/RoundTrip.antt and specs/Kept.antt and
// proved in proofs/, over the definitions of crate `network`.
#![tactic(auto)]
