// The curve and the best increases of a block that is in arrays: refusals 11 and 12, or what is found. For the calls above.
#![tactic(auto)]

pub mod best_lines;
pub mod curve_lines;
