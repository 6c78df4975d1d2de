// A block file read into lent arrays, one field after another: refusals 1 to 7.
// `read_block` is public for the crates above, which lend the arrays.
ghost use Rattle.std.specs.Prelude.{◌≡◌, List, [], map, ◌<◌, ◌≤◌, length};
ghost use Rattle.model.specs.Limits.{max_gates, max_wires};
ghost use Rattle.model.specs.Activity as Activity;
ghost use Rattle.model.specs.Block.{Wire};
ghost use Rattle.model.specs.Netlist.{gate_of};
ghost use Rattle.model.specs.File.{read_gates, read_wires, read_block};
ghost use Rattle.blockfile.specs.Held.{gate_arrays, gates_held, GateRoom, wire_arrays, WireRoom};
ghost use Rattle.blockfile.specs.Reads.{GateRead, WireRead, passing, reading_map, wires_passing, said_of, block_passing};
ghost use Rattle.ranges.specs.Seen.{pairs, Marks};

use crate::store::store_gate;
use faults::{block_fault, gate_fault, wire_fault};
use fields::field::number_at;
use fields::reader::FieldReader;
use model::Refusal;
use model::activity::{ActivityTable, activity_table};
use model::limits::MAX_WIRES;
use ranges::edition::{activity_of, wire_delay};
use ranges::seen::mark;

// What a block file says of its block beside the gates and wires themselves: how many they are, and the numbers of the block field.
#[derive(Clone, Copy, Debug, PartialEq, Eq)]
pub struct BlockHead {
    pub gates: usize,
    pub wires: usize,
    pub arrival: u32,
    pub deadline: u32,
    pub activity: u32,
}

// The gate field of an edition at an offset, read into place `gate`, and the offset behind it. After a refusal every array is as it was; after reading, what the arrays hold above the gate is free.
fn read_gate(
    file: &[u8],
    offset: usize,
    edition: u8,
    gate: usize,
    delays: &mut [u32],
    activities: &mut [u32],
    counts: &mut [u32],
    step_widths: &mut [u32],
    drops: &mut [u32],
    table: &ActivityTable,
) -> Result<usize, Refusal>
    requires gate_lt_max_gates { gate < max_gates }
    requires gate_room { GateRoom (gate_arrays delays.old activities.old counts.old step_widths.old drops.old) }
    requires table_value { table.now ≡ Activity.activities }
    ensures { GateRead file.now offset edition gate (gate_arrays delays.old activities.old counts.old step_widths.old drops.old) (gate_arrays delays.new activities.new counts.new step_widths.new drops.new) result }
{
    let reader = FieldReader::new(file, offset);
    let body = reader.body();
    gate_fault(reader.field(), body, edition).map_err(|fault| fault.at(offset))?;
    store_gate(
        body,
        activity_of(edition, number_at(body, 2), table),
        gate,
        delays,
        activities,
        counts,
        step_widths,
        drops,
    );
    Ok(reader.behind().offset)
}

// So many gate fields from an offset on, read into the places from 0 on, and the offset behind them. After a refusal, and beyond these gates, what the arrays hold is free.
fn read_gates(
    file: &[u8],
    start: usize,
    edition: u8,
    gates: usize,
    delays: &mut [u32],
    activities: &mut [u32],
    counts: &mut [u32],
    step_widths: &mut [u32],
    drops: &mut [u32],
    table: &ActivityTable,
) -> Result<usize, Refusal>
    requires gates_le_max_gates { gates ≤ max_gates }
    requires gate_room { GateRoom (gate_arrays delays.old activities.old counts.old step_widths.old drops.old) }
    requires table_value { table.now ≡ Activity.activities }
    ensures { passing result (gates_held (gate_arrays delays.new activities.new counts.new step_widths.new drops.new) gates) ≡ reading_map (map (gate_of edition)) (read_gates edition gates file.now start) }
{
    let mut offset = start;
    for gate in 0..gates {
        offset = read_gate(
            file,
            offset,
            edition,
            gate,
            delays,
            activities,
            counts,
            step_widths,
            drops,
            table,
        )?;
    }
    Ok(offset)
}

// The wire field at an offset, read into place `wire`, after the wires that the table holds, and the offset behind it. After a refusal every array is as it was; after reading, what the arrays hold above the wire is free.
fn read_wire(
    file: &[u8],
    offset: usize,
    edition: u8,
    gates: u8,
    wire: usize,
    sources: &mut [u32],
    targets: &mut [u32],
    wire_delays: &mut [u32],
    seen: &mut [u8],
) -> Result<usize, Refusal>
    requires gates_le_max_gates { (gates ≤ max_gates) × (wire < max_wires) }
    requires wire_room { WireRoom (wire_arrays sources.old targets.old wire_delays.old) }
    requires pairs_in_bounds { (pairs ≤ length seen.old) × ((ws : List Wire) × Marks seen.old ws) }
    ensures { WireRead file.now offset edition gates wire (wire_arrays sources.old targets.old wire_delays.old) (wire_arrays sources.new targets.new wire_delays.new) seen.old seen.new result }
{
    let reader = FieldReader::new(file, offset);
    let body = reader.body();
    wire_fault(reader.field(), body, edition, gates, seen).map_err(|fault| fault.at(offset))?;
    sources[wire] = u32::from(body[0]);
    targets[wire] = u32::from(body[1]);
    wire_delays[wire] = wire_delay(edition, body);
    mark(seen, body[0], body[1]);
    Ok(reader.behind().offset)
}

// The wire fields from an offset on until the bytes end, read into the places from 0 on, and how many they are. After a refusal, and beyond these wires, what the arrays hold is free, and so is the table `seen`, which holds no mark before.
fn read_wires(
    file: &[u8],
    start: usize,
    edition: u8,
    gates: u8,
    sources: &mut [u32],
    targets: &mut [u32],
    wire_delays: &mut [u32],
    seen: &mut [u8],
) -> Result<usize, Refusal>
    requires start_in_bounds { (start ≤ length file.now) × (gates ≤ max_gates) }
    requires wire_room { WireRoom (wire_arrays sources.old targets.old wire_delays.old) }
    requires pairs_in_bounds { (pairs ≤ length seen.old) × Marks seen.old [] }
    ensures { wires_passing file.now result (wire_arrays sources.new targets.new wire_delays.new) ≡ read_wires max_wires edition gates [] file.now start }
{
    let mut offset = start;
    let mut wires = 0;
    while offset < file.len() {
        if wires == MAX_WIRES {
            return Err(Refusal::Excess { offset });
        }
        offset = read_wire(
            file,
            offset,
            edition,
            gates,
            wires,
            sources,
            targets,
            wire_delays,
            seen,
        )?;
        wires += 1;
    }
    Ok(wires)
}

// What the body of the block field says of a block with so many wires.
fn block_said(body: &[u8], wires: usize, table: &ActivityTable) -> BlockHead
    requires body_len { length body.now ≡ 8 }
    requires table_value { table.now ≡ Activity.activities }
    ensures { result ≡ said_of body.now wires }
{
    let edition = body[0];
    BlockHead {
        gates: usize::from(body[1]),
        wires,
        arrival: number_at(body, 2),
        deadline: number_at(body, 4),
        activity: activity_of(edition, number_at(body, 6), table),
    }
}

// A block file read into the arrays: the block that they hold, or the first refusal of 1 to 7. After a refusal, and beyond the gates and wires of the file, what the arrays hold is free, and so is the table `seen`, which holds no mark before.
// Nine slices, not a struct of them: a struct of `&mut` slices needs a clause on each slice's `ghost_name` in every function that takes it, and one of arrays would ask the callers for more than slices with room.
pub fn read_block(
    file: &[u8],
    delays: &mut [u32],
    activities: &mut [u32],
    counts: &mut [u32],
    step_widths: &mut [u32],
    drops: &mut [u32],
    sources: &mut [u32],
    targets: &mut [u32],
    wire_delays: &mut [u32],
    seen: &mut [u8],
) -> Result<BlockHead, Refusal>
    requires gate_room { GateRoom (gate_arrays delays.old activities.old counts.old step_widths.old drops.old) }
    requires wire_room { WireRoom (wire_arrays sources.old targets.old wire_delays.old) }
    requires pairs_in_bounds { (pairs ≤ length seen.old) × Marks seen.old [] }
    ensures { block_passing file.now result (gate_arrays delays.new activities.new counts.new step_widths.new drops.new) (wire_arrays sources.new targets.new wire_delays.new) ≡ read_block file.now }
{
    let table = activity_table();
    let reader = FieldReader::new(file, 0);
    let body = reader.body();
    block_fault(reader.field(), body).map_err(|fault| fault.at(0))?;
    let edition = body[0];
    let gates = body[1];
    let gates_end = read_gates(
        file,
        reader.behind().offset,
        edition,
        usize::from(gates),
        delays,
        activities,
        counts,
        step_widths,
        drops,
        &table,
    )?;
    let wires = read_wires(
        file,
        gates_end,
        edition,
        gates,
        sources,
        targets,
        wire_delays,
        seen,
    )?;
    Ok(block_said(body, wires, &table))
}
