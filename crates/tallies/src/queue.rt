// The queue of gates that may go. A gate counts at its place only, which is the last where it was put.
ghost use Rattle.std.specs.Prelude.{◌≡◌, ◌+◌, ◌^◌, ◌≤◌, ◌<◌, length, set};
ghost use Rattle.lists.specs.Search.{Says};
ghost use Rattle.model.specs.Limits.{max_gates};
ghost use Rattle.tallies.specs.Queue.{LinedUp, Waits, max_turns};

use crate::tally::Tallies;
use model::limits::MAX_GATES;

// Turns in the queue, at most: one for each gate, and two for each gate that goes.
pub const MAX_TURNS: usize = MAX_GATES + MAX_GATES + MAX_GATES;

// The gates in the queue stand from `head` on and below `tail`; for each gate its place.
#[derive(Drop)]
pub struct Queue {
    pub gates: [u8; MAX_TURNS],
    pub places: [u32; MAX_GATES],
    pub head: usize,
    pub tail: usize,
}

impl Queue {
    pub const EMPTY: Queue = Queue {
        gates: [0; MAX_TURNS],
        places: [0; MAX_GATES],
        head: 0,
        tail: 0,
    };

    // The first n gates stand in the queue.
    pub fn line_up(&mut self, n: usize)
        requires { n ≤ max_gates }
        ensures lined_up { LinedUp n self.new.gates self.new.places }
        ensures ends { (self.new.head ≡ 0) × (self.new.tail ≡ n) }
    {
        self.head = 0;
        self.tail = 0;
        for g in 0..n {
            self.put(g);
        }
    }

    // Gate g stands at the tail.
    fn put(&mut self, g: usize)
        requires { (self.old.tail < max_turns) × (g < max_gates) }
        ensures gates_after { self.new.gates ≡ set self.old.gates self.old.tail g }
        ensures places_after { self.new.places ≡ set self.old.places g self.old.tail }
        ensures ends { (self.new.head ≡ self.old.head) × (self.new.tail ≡ self.old.tail + 1) }
    {
        self.gates[self.tail] = g as u8;
        self.places[g] = self.tail as u32;
        self.tail += 1;
    }

    // The neighbours u and v of a gate that goes stand at the tail.
    pub fn put_both(&mut self, u: usize, v: usize)
        requires { (self.old.tail + 2 ≤ max_turns) × (u < max_gates) × (v < max_gates) }
        ensures gates_after { self.new.gates ≡ set (set self.old.gates self.old.tail u) (self.old.tail + 1) v }
        ensures places_after { self.new.places ≡ set (set self.old.places u self.old.tail) v (self.old.tail + 1) }
        ensures ends { (self.new.head ≡ self.old.head) × (self.new.tail ≡ self.old.tail + 2) }
    {
        self.put(u);
        self.put(v);
    }

    // Whether gate m, which stands at the head, has its place there and can go.
    pub fn waits(&self, tallies: &Tallies, m: usize, first: usize, last: usize) -> bool
        requires { (m < max_gates) × (self.now.head < 2 ^ 32) }
        ensures { Says (Waits tallies.now.ins tallies.now.outs self.now.places first last self.now.head m) result }
    {
        self.places[m] == self.head as u32 && tallies.can_go(m, first, last)
    }
}
