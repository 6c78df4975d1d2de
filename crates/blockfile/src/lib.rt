// A whole block file read into lent arrays: refusals 1 to 7.
#![tactic(auto)]

pub mod read;
mod store;
