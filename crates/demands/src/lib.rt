// What 01 demands of the executive, proved of its words against the published model. The theorems stand in specs/ and proofs/: there is no code.
#![tactic(auto)]
