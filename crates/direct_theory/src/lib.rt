// Resolved trees: the lengths by averages between subtrees, and what is proved of them: definitions and laws only.
#![tactic(auto)]
