// No code: what going down a pool comes to, where the pool holds a tree.
#![tactic(auto)]
