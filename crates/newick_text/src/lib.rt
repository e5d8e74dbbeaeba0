// Trees as Newick text: the form of a text, the tree that it is, the table of that tree and the tree of a table, and that reading
// what was written gives the same tree back. No code: specs/ says it and proofs/ shows it.
#![tactic(auto)]
