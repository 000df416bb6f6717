// Laws that the code and the promises both stand on, in proofs/: records, chains and sound tables. There is no code here.
#![tactic(auto)]
