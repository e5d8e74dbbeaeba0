// RULES, One distance corrected: what a correction is asked, the matrix after it, and the split sums and counts that are kept beside
// it; definitions and proofs, no code.
#![tactic(auto)]
