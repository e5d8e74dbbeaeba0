// Texts that are pieces one behind the other: no code, only what they are and how they are written.
#![tactic(auto)]
