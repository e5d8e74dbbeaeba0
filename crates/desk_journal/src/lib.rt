// The desk's journal: which lines are kept, and what is proved of a desk that they are replayed on; no code.
#![tactic(auto)]
