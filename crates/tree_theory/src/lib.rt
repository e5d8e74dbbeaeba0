// Strain trees: definitions and laws only. The code that tests and walks them is in the crates tree, clusters and paths.
#![tactic(auto)]
