// What the judge says, beside what `receive` answers: proofs/Main. Theorems only, no code.
//
// specs/Received says what receiving PDUs one by one gives; specs/Sender, what is promised of the judge.
#![tactic(auto)]
