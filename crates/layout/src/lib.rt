// No code: the layout of a pool as a shape that trees are held in, and what each operation's stores do to the tree.
#![tactic(auto)]
