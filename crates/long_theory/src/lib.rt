// Lengths whose denominator and numerators are written in digits: definitions and laws only.
#![tactic(auto)]
