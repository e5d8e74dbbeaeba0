// There and back: what the reader of trees in text gives for a text that the writer wrote. No code: specs/ says it and proofs/ shows it of
// the two contracts.
#![tactic(auto)]
