ghost use Rattle.std.specs.Prelude.{◌≡◌, ◌≤◌, ◌^◌, ◌++◌, ◌∷◌, [], min};
ghost use Rattle.soda_words.specs.Limits.{most_cells};
ghost use Rattle.soda_ir.specs.Points.{size};
ghost use Rattle.soda_ir.specs.Program.{extents_at, plain};
ghost use Rattle.net_build.specs.Limits.{greatest_delay, most_delay};
ghost use Rattle.net_build.specs.Planned.{firings_for, plan_of};

use crate::delays::greatest_of;
use soda_ir::Program;

// No product matters past this one.
const MOST: u128 = 1 << 64;

// How many cells an array of these fixed extents and so many rows has, and 2^64 where it has more.
fn cells_in(extents: &[u64], rows: u64) -> u128
    ensures { result ≡ min (size (extents.now ++ rows ∷ [])) (2 ^ 64) }
{
    match extents {
        [] => rows as u128,
        [n, rest @ ..] => (*n as u128 * cells_in(rest, rows)).min(MOST),
    }
}

/// How often a module of age 0 fires, where arrays have so many rows: as many cells as an array has and the greatest
/// delay together, divided by the unroll factor and rounded up. An array has no more cells, and no delay is greater,
/// than the limits allow.
pub fn firings(rows: u64, program: &Program, delays: &[u64]) -> u64
    requires cells { size (extents_at (plain program.now) rows) ≤ most_cells }
    requires delays { greatest_delay (plan_of (plain program.now) delays.now) ≤ most_delay }
    ensures { result ≡ firings_for (size (extents_at (plain program.now) rows))
        (plan_of (plain program.now) delays.now) }
{
    let parts = program.parts();
    let cells = cells_in(parts.extents.as_slice(), rows) as u64;
    (cells + greatest_of(delays) + (parts.unroll - 1)) / parts.unroll
}
