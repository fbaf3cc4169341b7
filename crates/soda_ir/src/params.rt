ghost use Rattle.std.specs.Prelude.{◌≡◌, ◌^◌, map, min};
ghost use Rattle.soda_ir.specs.Points.{size};
ghost use Rattle.soda_ir.specs.Program.{plain_param};
ghost use Rattle.soda_ir.specs.Valid.{value_count};

use crate::program::Param;

/// No count of values matters past this one.
const MOST: u128 = 1 << 64;

/// How many values there are along all of these sizes, and 2^64 where there are more.
pub(crate) fn product(sizes: &[u64]) -> u128
    ensures { result ≡ min (size sizes.now) (2 ^ 64) }
{
    match sizes {
        [] => 1,
        [n, rest @ ..] => (*n as u128 * product(rest)).min(MOST),
    }
}

/// How many values these params have together, and 2^64 where there are more.
pub fn value_count(params: &[Param]) -> u128
    ensures { result ≡ min (value_count (map plain_param params.now)) (2 ^ 64) }
{
    let mut count = 0;
    for param in params {
        count = (count + product(param.sizes.as_slice())).min(MOST);
    }
    count
}
