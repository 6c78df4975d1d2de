// What a well-formed file's block is to the reduction and to the theorem, and its tree planted.
#![tactic(auto)]

pub mod plant;
