ghost use Rattle.std.specs.Prelude.{◌≡◌, ◌^◌, ◌≤◌, [], ◌∷◌, ◌++◌, pos, ◌+ℤ◌, unsigned_abs, slice_index_or};
ghost use Rattle.soda_ir.specs.Counts.{reach};
ghost use Rattle.soda_ir.specs.Points.{linear};
ghost use Rattle.soda_run.specs.pieces.Reads.{numbered};

use soda_eval::Cells;
use soda_ir::{Offset, distance};
use sqlite_items::Items;

/// The cells of whole arrays around a place, found by their distances from it. The extents are all but the last.
#[derive(Drop)]
pub(crate) struct Spot<'a> {
    pub extents: &'a [u64],
    pub arrays: &'a [Items<i128>],
    pub place: u64,
    ghost small: { reach extents.now ≤ 2 ^ 26 },
}

impl<'a> Cells for Spot<'a> {
    ghost value = { λ s t o. numbered (slice_index_or s.arrays.now t [])
        (pos s.place +ℤ linear (s.extents.now ++ 1 ∷ []) o) };

    fn cell(&self, tensor: u32, offset: &Offset) -> i128 {
        held(
            self.arrays,
            tensor,
            number_at(self.place, distance(self.extents, offset.as_slice())),
        )
    }
}

// The number of the cell that stands so far from a place.
fn number_at(place: u64, distance: i128) -> i128
    requires { unsigned_abs distance ≤ 2 ^ 90 }
    ensures { result ≡ pos place +ℤ distance }
{
    place as i128 + distance
}

// The cell of a number, and 0 where there is none.
fn numbered(cells: &[i128], number: i128) -> i128
    ensures { result ≡ numbered cells.now number }
{
    if number < 0 || number >= cells.len() as i128 {
        return 0;
    }
    cells[number as usize]
}

fn held(arrays: &[Items<i128>], tensor: u32, number: i128) -> i128
    ensures { result ≡ numbered (slice_index_or arrays.now tensor []) number }
{
    match arrays.get(tensor as usize) {
        Some(array) => numbered(array.as_slice(), number),
        None => 0,
    }
}
