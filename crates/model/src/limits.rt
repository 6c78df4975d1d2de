// The limits of a file (specs/Limits.antt), and the lengths of arrays that follow from them.

// Gates of a file.
pub const MAX_GATES: usize = 200;

// Wires of a file.
pub const MAX_WIRES: usize = 600;

// Steps of a gate.
pub const MAX_STEPS: usize = 8;

// Steps of all gates, and pairs of a curve.
pub const MAX_PAIRS: usize = MAX_GATES * MAX_STEPS;

// Pairs of gates.
pub const GATES_SQUARED: usize = MAX_GATES * MAX_GATES;

// Bytes of its input that the printing program reads.
pub const MAX_BYTES: usize = 16384;

// A number for each gate.
pub type GateNumbers = [u32; MAX_GATES];

// A number for each step.
pub type StepNumbers = [u32; MAX_PAIRS];

// A number for each wire.
pub type WireNumbers = [u32; MAX_WIRES];
