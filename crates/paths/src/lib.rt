// What is asked of tables over which paths are summed, and how far such a path can go. There is no code here: the paths themselves are made in
// inner_paths.
#![tactic(auto)]
