// Two benches, one matrix: calls, the desk, and what is proved of every run of calls; no code.
#![tactic(auto)]
