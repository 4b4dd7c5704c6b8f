// The two ends as a host in C calls them, with what the demands say of that: proofs/Main. Theorems only, no code.
//
// specs/Tables says what an end can hold; specs/Runs and specs/ShoreRuns, what a run of C calls is; specs/Face, what then holds.
#![tactic(auto)]
