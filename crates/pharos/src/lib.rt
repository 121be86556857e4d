// The model and its theorems stand in specs/ and are proved in proofs/: there is no code.
#![tactic(auto)]
