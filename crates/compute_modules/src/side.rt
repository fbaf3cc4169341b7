ghost use Rattle.std.specs.Prelude.{◌≡◌, ◌+◌, ◌-◌, ◌/◌, ◌<◌, ◌^◌, ◌++◌, min, OnOk};
ghost use Rattle.std.specs.List.{list_all};
ghost use Rattle.soda_ir.specs.Points.{size};
ghost use Rattle.compute_modules.specs.pieces.Walks.{keeps_side, moved_side, moved_sides, sides_of};

use crate::NoMemory;

/// Where a cell stands.
#[derive(Clone, Copy)]
pub(crate) enum Spot {
    /// There is no cell of the number.
    Nowhere,
    /// Its point keeps the margins.
    Inside,
    /// Its point doesn't keep them.
    Outside,
}

/// One dimension of a box, with a point's coordinate there.
#[derive(Clone, Copy)]
pub(crate) struct Side {
    /// How many numbers there are.
    pub extent: u64,
    /// The first that keeps the margins.
    pub low: u64,
    /// The one behind the last that keeps the margins.
    pub end: u64,
    /// The coordinate.
    pub at: u64,
}

// Whether the coordinate keeps the margins.
fn keeps_side(side: Side) -> bool
    ensures { result ≡ keeps_side side }
{
    side.low <= side.at && side.at < side.end
}

/// Whether the point keeps the margins in each dimension.
pub(crate) fn keep(sides: &[Side]) -> bool
    ensures { result ≡ list_all keeps_side sides.now }
{
    match sides {
        [] => true,
        [side, rest @ ..] => keeps_side(*side) && keep(rest),
    }
}

// A dimension so many numbers on, and how many numbers that is in the next dimension.
fn moved_side(side: Side, count: u64) -> (Side, u64)
    ensures side { result.0 ≡ moved_side side count }
    ensures over { result.1 ≡ min (side.at + count) (2 ^ 64 - 1) / side.extent }
{
    let mut side = side;
    let at = side.at.saturating_add(count);
    if at < side.extent {
        side.at = at;
        (side, 0)
    } else if side.extent == 0 {
        side.at = at;
        (side, 0)
    } else {
        side.at = at % side.extent;
        (side, at / side.extent)
    }
}

/// The point of the cell that stands so many behind.
pub(crate) fn advance(sides: &mut [Side], count: u64)
    ensures { sides.new ≡ moved_sides sides.old count }
{
    let mut carry = count;
    for d in 0..sides.len() {
        let (side, over) = moved_side(sides[d], carry);
        sides[d] = side;
        carry = over;
    }
}

/// How many cells there are, where these are less than 2^64.
pub(crate) fn cells_in(extents: &[u64]) -> u64
    ensures { size extents.now < 2 ^ 64 → result ≡ size extents.now }
{
    match extents {
        [] => 1,
        [n, rest @ ..] => n.saturating_mul(cells_in(rest)),
    }
}

/// Adds the dimensions of a box at its first point, with these margins.
pub(crate) fn add_sides(
    sides: &mut Vec<Side>,
    extents: &[u64],
    low: &[u64],
    high: &[u64],
) -> Result<(), NoMemory>
    ensures { OnOk result (sides.new.items ≡ sides.old.items ++ sides_of extents.now low.now high.now) }
{
    match extents {
        [] => Ok(()),
        [n, ns @ ..] => match low {
            [] => Ok(()),
            [l, ls @ ..] => match high {
                [] => Ok(()),
                [h, hs @ ..] => {
                    let side = Side {
                        extent: *n,
                        low: *l,
                        end: n.saturating_sub(*h),
                        at: 0,
                    };
                    sides.push(side)?;
                    add_sides(sides, ns, ls, hs)
                }
            },
        },
    }
}
