// The demands, stated for a reader and proved. This crate holds theorems only: begin with proofs/Main.
#![tactic(auto)]
