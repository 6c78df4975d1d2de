// Several arrays in one array of words: definitions and laws, no code.

#![tactic(auto)]
