// A panel end and a shore end, joined: proofs/Main. Theorems only, no code.
//
// specs/Ends says what is on its way between the two and what can come about; specs/Joined, what then holds.
#![tactic(auto)]
