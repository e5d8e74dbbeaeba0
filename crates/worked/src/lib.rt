// Sheet A and a few other sheets, worked through by the checker from their bytes to their prints: definitions and laws
// only.
#![tactic(auto)]
