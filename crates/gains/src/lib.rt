// What slowing gates earns, on lent arrays: input activities, the sums of widths, and the saving of a list of increases.
#![tactic(auto)]

pub mod inputs;
pub mod saving;
pub mod steps;
