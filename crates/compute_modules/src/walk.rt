ghost use Rattle.std.specs.Prelude.{◌≡◌, ◌≢◌, ◌<◌, ◌^◌, ◌+ℤ◌, IfOk, length, pos};
ghost use Rattle.soda_ir.specs.Points.{size};
ghost use Rattle.time_stages.specs.Margins.{at_least_none};
ghost use Rattle.compute_modules.specs.pieces.Walks.{StandAt, before, box, cells_of, number_at, sides_of, spot_in};

use crate::NoMemory;
use crate::side::{Side, Spot, add_sides, advance, cells_in, keep};
use std::alloc::Global;

/// A cell of a box that moves on by so many cells.
#[derive(Drop)]
pub(crate) struct Walk {
    /// How many cells before the first, and 0 from the first on.
    pub early: u64,
    /// How many cells behind the first, and 0 up to the first.
    pub at: u64,
    /// How many cells there are.
    pub cells: u64,
    /// How many cells it moves on by.
    pub step: u32,
    /// The dimensions of the box, with the point of the cell, or of the first one where it stands before that.
    pub sides: Vec<Side>,
    ghost one: { early ≢ 0 → at ≡ 0 },
    ghost all: { cells ≡ cells_of sides.items },
    ghost fit: { cells < 2 ^ 64 },
    ghost there: { ∥ StandAt sides.items at ∥₁ },
}

// How many cells a number stands before the first.
fn before(number: i64) -> u64
    ensures { result ≡ before number }
{
    if number < 0 { number.unsigned_abs() } else { 0 }
}

// A number from the first cell on, and 0 before that.
fn from(number: i64) -> u64
    ensures { result ≡ at_least_none number }
{
    if number < 0 { 0 } else { number as u64 }
}

impl Walk {
    /// The cell of a number in a box of these extents, with these margins in each dimension.
    pub(crate) fn new(
        alloc: Global,
        extents: &[u64],
        low: &[u64],
        high: &[u64],
        first: i64,
        step: u32,
    ) -> Result<Walk, NoMemory>
        requires small { size extents.now < 2 ^ 64 }
        requires low { length low.now ≡ length extents.now }
        requires high { length high.now ≡ length extents.now }
        ensures sides { IfOk result (λ walk. box walk.sides.items ≡ sides_of extents.now low.now high.now) }
        ensures place { IfOk result (λ walk. number_at walk.at walk.early ≡ first) }
        ensures step { IfOk result (λ walk. walk.step ≡ step) }
    {
        let mut sides = Vec::new(alloc);
        add_sides(&mut sides, extents, low, high)?;
        let cells = cells_in(extents);
        let at = from(first);
        advance(&mut sides, at);
        Ok(Walk {
            early: before(first),
            at,
            cells,
            step,
            sides,
        })
    }

    /// Where the cell stands.
    pub(crate) fn spot(&self) -> Spot
        ensures { result ≡ spot_in (box self.now.sides.items) (number_at self.now.at self.now.early) }
    {
        if self.early != 0 {
            Spot::Nowhere
        } else if self.at >= self.cells {
            Spot::Nowhere
        } else if keep(&self.sides) {
            Spot::Inside
        } else {
            Spot::Outside
        }
    }

    /// Moves on by one step.
    pub(crate) fn go_on(&mut self)
        requires small { self.old.at < 2 ^ 60 }
        ensures sides { box self.new.sides.items ≡ box self.old.sides.items }
        ensures place { number_at self.new.at self.new.early
            ≡ number_at self.old.at self.old.early +ℤ pos self.old.step }
        ensures step { self.new.step ≡ self.old.step }
    {
        let step = u64::from(self.step);
        let count = step.saturating_sub(self.early);
        self.early = self.early.saturating_sub(step);
        self.at += count;
        advance(&mut self.sides, count);
    }
}
