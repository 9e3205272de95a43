// No code: the theory of the tree that a pool holds.
#![tactic(auto)]
