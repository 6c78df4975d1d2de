// The fields of a block file, one at a time: where they begin and end, and the field reader.
#![tactic(auto)]

pub mod field;
pub mod reader;
