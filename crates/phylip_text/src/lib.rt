// The square matrices of PHYLIP: the form of a text, what it holds, the text of a matrix, and that reading what was written gives
// the same matrix and names. No code: specs/ says it and proofs/ shows it; phylip_read and phylip_write meet it.
#![tactic(auto)]
