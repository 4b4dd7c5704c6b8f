// The laws of the client's steps: theorems only, on the definitions that the contracts of `client` cite.
#![tactic(auto)]
