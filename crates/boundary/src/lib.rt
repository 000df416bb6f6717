// Demand 3 for those who link the panel interface: theorems about its definitions, in proofs/. There is no code here.
#![tactic(auto)]
