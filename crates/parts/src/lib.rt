// Definitions and laws of the reduction of a block to its tree of parts: it finds one exactly when the block is series-parallel, in whatever order gates go. No code.

#![tactic(auto)]
