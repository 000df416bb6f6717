// What the promises say, as types over the rules alone in specs/, each from its theorem in proofs/. There is no code here.
#![tactic(auto)]
