// A block in arrays, with an order of its gates along the wires.
ghost use Rattle.std.specs.Prelude.{◌≡◌};
ghost use Rattle.loading.specs.HeldBlock.{LoadsIn};

use crate::load;
use model::Refusal;
use model::limits::{GateNumbers, MAX_GATES, MAX_PAIRS, MAX_WIRES, StepNumbers, WireNumbers};
use ordering::wires::Wires;

// Gate g stands at place g of the arrays of gates, step j of gate g at place MAX_STEPS * g + j, wire i at place i.
#[derive(Drop)]
pub struct HeldBlock {
    // How many gates and wires there are.
    pub gates: usize,
    pub wires: usize,
    pub arrival: u32,
    pub deadline: u32,
    // The activity of the block's input.
    pub activity: u32,
    pub delays: GateNumbers,
    pub activities: GateNumbers,
    // How many steps each gate has.
    pub counts: GateNumbers,
    pub step_widths: StepNumbers,
    pub drops: StepNumbers,
    pub sources: WireNumbers,
    pub targets: WireNumbers,
    pub wire_delays: WireNumbers,
    // The gates in an order along the wires.
    pub order: GateNumbers,
}

impl HeldBlock {
    // No gate and no wire: 0 everywhere.
    pub const EMPTY: HeldBlock = HeldBlock {
        gates: 0,
        wires: 0,
        arrival: 0,
        deadline: 0,
        activity: 0,
        delays: [0; MAX_GATES],
        activities: [0; MAX_GATES],
        counts: [0; MAX_GATES],
        step_widths: [0; MAX_PAIRS],
        drops: [0; MAX_PAIRS],
        sources: [0; MAX_WIRES],
        targets: [0; MAX_WIRES],
        wire_delays: [0; MAX_WIRES],
        order: [0; MAX_GATES],
    };

    // Loads the block of a file, with an order of its gates along the wires, whose others are as before; or answers the first refusal of 1 to 9.
    // What the other arrays hold beyond the block's gates, steps and wires is free, and after a refusal what the block holds. The block is filled where it stands: one that is handed back is copied.
    pub fn load(&mut self, file: &[u8]) -> Result<(), Refusal>
        ensures { LoadsIn file.now result self.old self.new }
    {
        let head = load(
            file,
            &mut self.delays,
            &mut self.activities,
            &mut self.counts,
            &mut self.step_widths,
            &mut self.drops,
            &mut self.sources,
            &mut self.targets,
            &mut self.wire_delays,
            &mut self.order,
        )?;
        self.gates = head.gates;
        self.wires = head.wires;
        self.arrival = head.arrival;
        self.deadline = head.deadline;
        self.activity = head.activity;
        Ok(())
    }

    // The wires, in the block's arrays.
    pub fn wires(&self) -> Wires<'_>
        ensures count { result.count ≡ self.now.wires }
        ensures sources { result.sources.now ≡ self.now.sources }
        ensures targets { result.targets.now ≡ self.now.targets }
        ensures delays { result.delays.now ≡ self.now.wire_delays }
    {
        Wires {
            count: self.wires,
            sources: &self.sources,
            targets: &self.targets,
            delays: &self.wire_delays,
        }
    }
}
