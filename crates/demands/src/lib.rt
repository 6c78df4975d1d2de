// The demands are theorems about definitions: no code. They stand in proofs/Demands.antt.

#![tactic(auto)]
