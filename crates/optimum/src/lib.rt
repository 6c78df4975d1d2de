// Why the ticks handed out to a series-parallel block are the best: definitions and laws. No code.

#![tactic(auto)]
