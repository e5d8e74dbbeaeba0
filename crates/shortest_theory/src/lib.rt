// The definitions of a run of sheets are in specs/, what holds of every run in proofs/; there is no code here.
#![tactic(auto)]
