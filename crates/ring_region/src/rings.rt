ghost use Rattle.std.specs.Prelude.{◌≡◌, ◌<◌, ◌≤◌, ◌^◌, ◌↔◌, ℕ, map, sum, length, slice_set, slice_index_or, pos, All, IfOk, IsTrue};
ghost use Rattle.ring_region.specs.Fifos.{emptied, fifo_at, place_of, with_item, without_oldest};

use crate::NoMemory;
use crate::part::{Part, next_place};
use std::alloc::Global;
use std::marker::Model;

/// Bounded queues of numbers, each a ring in its own part of one region. The parts stand in queue order without gaps
/// and fill the region.
#[derive(Drop)]
pub struct Rings {
    region: Vec<i128>,
    parts: Vec<Part>,
}

// Clauses see each queue as its capacity, the place of its oldest item in its part, and its items, oldest first.
impl Model for Rings {
    ghost use Rattle.std.specs.Prelude.{List, length, map};
    ghost use Rattle.ring_region.specs.Fifos.{Fifo};

    ghost Value = { List Fifo };

    ghost use Rattle.ring_region.specs.machine.Parts.{fifo_of, AreParts};

    ghost view = { λ r. map (fifo_of r.region.items) r.parts.items };

    ghost invariant = { λ r. AreParts (length r.region.items) r.parts.items };
}

impl Rings {
    /// Empty queues of these capacities, each at least 1. Where no memory is so large as to hold them all together, it is
    /// refused. No other call takes memory.
    pub fn new(alloc: Global, capacities: &[u64]) -> Result<Rings, NoMemory>
        requires positive { All (λ c. 0 < c) capacities.now }
        ensures { IfOk result (λ rings. rings ≡ map emptied capacities.now) }
    {
        let mut parts = Vec::new(alloc);
        let mut total: usize = 0;
        for capacity in capacities {
            let Some(end) = total.checked_add(*capacity as usize) else {
                return Err(NoMemory);
            };
            parts.push(Part {
                begin: total,
                end,
                put: total,
                take: total,
                held: 0,
            })?;
            total = end;
        }
        let region = vec![in alloc; 0i128; total]?;
        Ok(Rings { region, parts })
    }

    /// The region, as long as all capacities together. Item i of a queue, counted from its oldest, lies at the first
    /// place of the queue's part plus the place of the oldest and i, by the remainder with the capacity.
    pub fn region(&self) -> &[i128]
        ensures filled { length result.now ≡ sum (map (λ fifo. fifo.capacity) self.now) }
        ensures items { (queue i : ℕ) → queue < length self.now → i < length (fifo_at self.now queue).items
            → slice_index_or result.now (place_of self.now queue i) (pos 0)
            ≡ slice_index_or (fifo_at self.now queue).items i (pos 0) }
        ensures first { (queue : ℕ) → queue < length self.now
            → (fifo_at self.now queue).first < (fifo_at self.now queue).capacity }
        ensures few { (queue : ℕ) → queue < length self.now
            → length (fifo_at self.now queue).items ≤ (fifo_at self.now queue).capacity }
        ensures small { length result.now < 2 ^ 63 }
    {
        &self.region
    }

    /// How many items a queue holds.
    pub fn held(&self, queue: u32) -> u64
        requires { queue < length self.now }
        ensures held { result ≡ length (fifo_at self.now queue).items }
        ensures within { result ≤ (fifo_at self.now queue).capacity }
    {
        self.parts[queue as usize].held as u64
    }

    /// Whether a queue holds nothing.
    pub fn is_empty(&self, queue: u32) -> bool
        requires { queue < length self.now }
        ensures { IsTrue result ↔ (length (fifo_at self.now queue).items ≡ 0) }
    {
        self.parts[queue as usize].held == 0
    }

    /// Whether a queue holds as many items as it can.
    pub fn is_full(&self, queue: u32) -> bool
        requires { queue < length self.now }
        ensures full { IsTrue result
            ↔ (length (fifo_at self.now queue).items ≡ (fifo_at self.now queue).capacity) }
        ensures within { length (fifo_at self.now queue).items ≤ (fifo_at self.now queue).capacity }
    {
        let part = &self.parts[queue as usize];
        part.held == part.end - part.begin
    }

    /// Puts an item into a queue that isn't full, after its others. Every other queue stays as it is.
    pub fn put(&mut self, queue: u32, value: i128)
        requires known { queue < length self.old }
        requires room { length (fifo_at self.old queue).items < (fifo_at self.old queue).capacity }
        ensures { self.new ≡ slice_set self.old queue (with_item value (fifo_at self.old queue)) }
    {
        let part = self.parts[queue as usize];
        self.region[part.put] = value;
        self.parts[queue as usize] = Part {
            put: next_place(&part, part.put),
            held: part.held + 1,
            ..part
        };
    }

    /// Takes the oldest item of a queue that isn't empty. Every other queue stays as it is.
    pub fn take(&mut self, queue: u32) -> i128
        requires known { queue < length self.old }
        requires filled { 0 < length (fifo_at self.old queue).items }
        ensures value { result ≡ slice_index_or (fifo_at self.old queue).items 0 (pos 0) }
        ensures rest { self.new ≡ slice_set self.old queue (without_oldest (fifo_at self.old queue)) }
    {
        let part = self.parts[queue as usize];
        let value = self.region[part.take];
        self.parts[queue as usize] = Part {
            take: next_place(&part, part.take),
            held: part.held - 1,
            ..part
        };
        value
    }
}
