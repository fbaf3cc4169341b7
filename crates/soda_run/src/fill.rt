ghost use Rattle.std.specs.Prelude.{◌≡◌, ℕ, ◌+◌, ◌*◌, ◌<◌, ◌≤◌, ◌^◌, ◌&&◌, [], drop, length, min, pos, slice_index_or, slice_set, true, replicate};
ghost use Rattle.soda_words.specs.Limits.{most_cells};
ghost use Rattle.soda_ir.specs.Points.{listed, size};
ghost use Rattle.soda_ir.specs.Program.{extents_at, plain};
ghost use Rattle.soda_eval.specs.Points.{point};
ghost use Rattle.soda_eval.specs.Runs.{HasValues, cells_at, place_types};
ghost use Rattle.time_stages.specs.Margins.{keeps_away};
ghost use Rattle.soda_run.specs.pieces.Filled.{CanFill, cell_made, is_kept, is_within, made};

use crate::plain::plain_cell;
use crate::sizes::{first_of, rest_of, size};
use int_types::wrap;
use soda_eval::tensor_type;
use soda_ir::Program;
use soda_words::Ty;
use sqlite_items::Items;
use time_stages::Margins;

/// A tensor that is to be filled, and all that its cells come from.
#[derive(Drop)]
pub(crate) struct Target<'a> {
    pub program: &'a Program,
    pub rows: u64,
    pub arrays: &'a [Items<i128>],
    pub params: &'a [i128],
    pub tensor: u32,
    pub margins: &'a Margins,
    /// What stands outside its region, cell by cell; past the end that is 0.
    pub outside: &'a [i128],
}

// The cell of a number, and 0 past the last.
fn cell_or_none(cells: &[i128], place: u64) -> i128
    ensures { result ≡ slice_index_or cells.now place (pos 0) }
{
    match cells.get(place as usize) {
        Some(cell) => *cell,
        None => 0,
    }
}

// Whether a number of a line keeps the margins of its two ends.
fn is_within(extent: u64, low: u64, high: u64, number: u64) -> bool
    requires { number < extent }
    ensures { result ≡ is_within extent low high number }
{
    low <= number && high < extent - number
}

// Whether the point of a cell number keeps the margins.
fn keeps(extents: &[u64], low: &[u64], high: &[u64], place: u64) -> bool
    ensures { result ≡ keeps_away extents.now low.now high.now (point extents.now place) }
{
    match extents {
        [] => low.is_empty() && high.is_empty(),
        [n, ns @ ..] => match low {
            [] => false,
            [l, ls @ ..] => match high {
                [] => false,
                [h, hs @ ..] => {
                    *n != 0 && is_within(*n, *l, *h, place % *n) && keeps(ns, ls, hs, place / *n)
                }
            },
        },
    }
}

impl<'a> Target<'a> {
    // The cell of a number inside the region.
    fn inner(&self, place: u64) -> i128
        requires ready { CanFill (plain self.now.program.now) self.now.rows self.now.arrays.now self.now.tensor
            self.now.margins.now }
        requires small { cells_at (plain self.now.program.now) self.now.rows ≤ most_cells }
        requires params { HasValues (place_types (plain self.now.program.now).params) self.now.params.now }
        requires there { place < cells_at (plain self.now.program.now) self.now.rows }
        requires kept { is_kept (plain self.now.program.now) self.now.rows self.now.margins.now place ≡ true }
        ensures { result ≡ cell_made (plain self.now.program.now) self.now.rows self.now.arrays.now
            self.now.params.now self.now.tensor place }
    {
        wrap(
            tensor_type(self.program.parts(), self.tensor),
            plain_cell(
                self.program,
                self.rows,
                self.arrays,
                self.params,
                self.tensor,
                place,
            ),
        )
    }

    // The cell of a number, which is inside the region or not.
    fn cell(&self, place: u64, is_inside: bool) -> i128
        requires ready { CanFill (plain self.now.program.now) self.now.rows self.now.arrays.now self.now.tensor
            self.now.margins.now }
        requires small { cells_at (plain self.now.program.now) self.now.rows ≤ most_cells }
        requires params { HasValues (place_types (plain self.now.program.now).params) self.now.params.now }
        requires there { place < cells_at (plain self.now.program.now) self.now.rows }
        requires kept { is_inside ≡ is_kept (plain self.now.program.now) self.now.rows self.now.margins.now place }
        ensures { result ≡ made (plain self.now.program.now) self.now.rows self.now.arrays.now self.now.params.now
            self.now.tensor self.now.margins.now self.now.outside.now place }
    {
        if is_inside {
            self.inner(place)
        } else {
            cell_or_none(self.outside, place)
        }
    }

    // Fills a line along the first dimension. Its cells begin at this number, and `is_inside` says whether it keeps the
    // margins in the other dimensions.
    fn fill_line(
        &self,
        extent: u64,
        start: u64,
        low: u64,
        high: u64,
        is_inside: bool,
        cells: &mut Items<i128>,
    )
        requires ready { CanFill (plain self.now.program.now) self.now.rows self.now.arrays.now self.now.tensor
            self.now.margins.now }
        requires small { cells_at (plain self.now.program.now) self.now.rows ≤ most_cells }
        requires params { HasValues (place_types (plain self.now.program.now).params) self.now.params.now }
        requires room { start + extent ≤ cells_at (plain self.now.program.now) self.now.rows }
        requires kept { (c : ℕ) → c < extent → (is_within extent low high c && is_inside)
            ≡ is_kept (plain self.now.program.now) self.now.rows self.now.margins.now (start + c) }
        requires whole { length cells.old ≡ cells_at (plain self.now.program.now) self.now.rows }
        requires done { (i : ℕ) → i < start → slice_index_or cells.old i (pos 0)
            ≡ made (plain self.now.program.now) self.now.rows self.now.arrays.now self.now.params.now self.now.tensor
            self.now.margins.now self.now.outside.now i }
        ensures whole { length cells.new ≡ cells_at (plain self.now.program.now) self.now.rows }
        ensures done { (i : ℕ) → i < start + extent → slice_index_or cells.new i (pos 0)
            ≡ made (plain self.now.program.now) self.now.rows self.now.arrays.now self.now.params.now self.now.tensor
            self.now.margins.now self.now.outside.now i }
    {
        for number in 0..extent {
            let place = start + number;
            let is_kept = is_within(extent, low, high, number) & is_inside;
            cells.set(place as usize, self.cell(place, is_kept));
        }
    }

    /// Fills the tensor's cells, line by line along the first dimension.
    pub fn fill(&self, extents: &[u64], cells: &mut Items<i128>)
        requires ready { CanFill (plain self.now.program.now) self.now.rows self.now.arrays.now self.now.tensor
            self.now.margins.now }
        requires small { cells_at (plain self.now.program.now) self.now.rows ≤ most_cells }
        requires lines { size (drop 1 extents.now) ≤ most_cells }
        requires params { HasValues (place_types (plain self.now.program.now).params) self.now.params.now }
        requires extents { extents.now ≡ extents_at (plain self.now.program.now) self.now.rows }
        requires whole { length cells.old ≡ cells_at (plain self.now.program.now) self.now.rows }
        ensures { cells.new ≡ listed (made (plain self.now.program.now) self.now.rows self.now.arrays.now
            self.now.params.now self.now.tensor self.now.margins.now self.now.outside.now)
            (cells_at (plain self.now.program.now) self.now.rows) }
    {
        let low = self.margins.low.as_slice();
        let high = self.margins.high.as_slice();
        let extent = first_of(extents);
        for line in 0..size(rest_of(extents)) as u64 {
            let is_inside = keeps(rest_of(extents), rest_of(low), rest_of(high), line);
            let start = line * extent;
            self.fill_line(
                extent,
                start,
                first_of(low),
                first_of(high),
                is_inside,
                cells,
            );
        }
    }
}
