// The demands at the shore end, on one page: proofs/Main. Theorems only, no code.
//
// specs/ says what a run of the shore is, what one number should be told for its own events alone, the refusals row by row,
// and the demands sentence by sentence; what is the same at both ends stands in `demands` and is cited.
#![tactic(auto)]
