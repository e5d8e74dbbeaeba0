// The quantities and the tests of a fit, and what is proved of them: definitions and laws only.
#![tactic(auto)]
