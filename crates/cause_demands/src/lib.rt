// What is said of a place of the walker's input, beside the run that the input is: proofs/Main. Theorems only, no code.
//
// specs/Why says what a run is, and what is promised of what is said.
#![tactic(auto)]
