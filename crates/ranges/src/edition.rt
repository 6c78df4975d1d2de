// What differs by edition of the block file: from edition 2 on a wire has a delay, and from edition 3 on a net has a measured activity in place of a probability (document 02, K2 and K3). It stands here and nowhere else in the code.
// Public for `faults` and `blockfile` alone.
ghost use Rattle.std.specs.Prelude.{◌≡◌, length};
ghost use Rattle.model.specs.Activity.{activities};
ghost use Rattle.model.specs.Edition.{wire_bytes, delay_in, max_switching, activity_of};

use fields::field::number_at;
use model::activity::{ActivityTable, activity_in};

// Editions are numbered from 1 to this.
pub const MAX_EDITION: u8 = 3;

// The first edition whose wires have delays.
const WIRE_DELAYS: u8 = 2;

// The first edition whose nets have measured activities.
const ACTIVITIES: u8 = 3;

// A probability is in 256ths.
const MAX_PROBABILITY: u32 = 256;

// An activity counts transitions in 65,536 clock cycles.
const MAX_ACTIVITY: u32 = 65535;

// The bytes of a wire's body: its two gates, then its delay.
pub fn wire_bytes(edition: u8) -> usize
    ensures { result ≡ wire_bytes edition }
{
    if edition < WIRE_DELAYS { 2 } else { 4 }
}

// The delay of a wire by its body.
pub fn wire_delay(edition: u8, body: &[u8]) -> u32
    requires { length body.now ≡ wire_bytes edition }
    ensures { result ≡ delay_in edition body.now }
{
    if edition < WIRE_DELAYS {
        0
    } else {
        number_at(body, 2)
    }
}

// The greatest number for a net's switching: a probability or an activity.
pub fn max_switching(edition: u8) -> u32
    ensures { result ≡ max_switching edition }
{
    if ACTIVITIES <= edition {
        MAX_ACTIVITY
    } else {
        MAX_PROBABILITY
    }
}

// The activity of a net by the number for its switching.
pub fn activity_of(edition: u8, switching: u32, table: &ActivityTable) -> u32
    requires { table.now ≡ activities }
    ensures { result ≡ activity_of edition switching }
{
    if edition < ACTIVITIES {
        activity_in(table, switching)
    } else {
        switching
    }
}
