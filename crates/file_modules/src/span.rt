// The lanes of a firing whose cells are there.
ghost use Rattle.std.specs.Prelude.{◌≡◌, ◌+◌, ◌-◌, ◌*◌, ◌^◌, ◌≤◌, ◌<◌, min};
ghost use Rattle.file_modules.specs.Firings.{cells_before};

// How many of the cells the firings before this one are about.
fn cells_before(unroll: u32, delay: u64, cells: u64, firing: u64) -> u64
    requires most { unroll ≤ 64 }
    requires small { firing ≤ 2 ^ 40 }
    ensures { result ≡ cells_before unroll delay cells firing }
{
    cells.min((u64::from(unroll) * firing).saturating_sub(delay))
}

// The first lane whose cell has a number; all of them if none has.
pub(crate) fn first_lane(unroll: u32, delay: u64, firing: u64) -> usize
    requires most { unroll ≤ 64 }
    requires small { firing < 2 ^ 40 }
    ensures { result ≡ min (delay - unroll * firing) unroll }
{
    let lanes = u64::from(unroll);
    delay.saturating_sub(lanes * firing).min(lanes) as usize
}

// How many cells the firing is about. Their lanes stand together, from the first lane on.
pub(crate) fn cell_count(unroll: u32, delay: u64, cells: u64, firing: u64) -> usize
    requires most { unroll ≤ 64 }
    requires small { firing < 2 ^ 40 }
    ensures value { result ≡ cells_before unroll delay cells (firing + 1)
        - cells_before unroll delay cells firing }
    ensures within { min (delay - unroll * firing) unroll + result ≤ unroll }
    ensures behind { cells_before unroll delay cells firing + result
        ≡ cells_before unroll delay cells (firing + 1) }
{
    let before = cells_before(unroll, delay, cells, firing);
    let behind = cells_before(unroll, delay, cells, firing + 1);
    (behind - before) as usize
}
