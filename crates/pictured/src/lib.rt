// What a picture shows (T-07): theorems about the rules alone, in proofs/. There is no code here.
#![tactic(auto)]
