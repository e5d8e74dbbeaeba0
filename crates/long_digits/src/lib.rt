// Numbers written in digits of base 1,000,000: definitions and laws only.
#![tactic(auto)]
