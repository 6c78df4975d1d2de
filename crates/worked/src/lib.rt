// The worked cases of document 01 as one table, and the theorem that the tables of refusals allow each row. No code.

#![tactic(auto)]
