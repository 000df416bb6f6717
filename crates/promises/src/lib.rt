// The promises: theorems about the rules alone, in proofs/. There is no code here.
#![tactic(auto)]
