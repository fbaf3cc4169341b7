use super::are_below_end;
use reuse_chain::{gaps, taps};
use std::alloc::{AllocError, Global};
use std::process::Abort;
use std::test::Fail;

// Ages, a lane and an unroll factor, and the taps and gaps of that lane.
type Row = (&'static [u64], u32, u32, &'static [u64], &'static [u64]);

const LANES: &[Row] = &[
    (&[0, 1, 2], 1, 2, &[0, 1], &[0, 1]),
    (&[4000, 2000, 0], 5, 16, &[0, 125, 250], &[0, 125, 125]),
    (&[], 0, 1, &[], &[]),
    (&[7], 0, 1, &[7], &[7]),
    (&[7], 1, 2, &[4], &[4]),
    (&[3, 3, 0, 3], 0, 1, &[0, 3], &[0, 3]),
    (&[0, 1, 2], 0, 2, &[0, 1], &[0, 1]),
    (&[5, 9, 1], 63, 64, &[1], &[1]),
    (
        &[4611686018427387903, 0],
        63,
        64,
        &[0, 72057594037927936],
        &[0, 72057594037927936],
    ),
    (&[12, 4, 8], 0, 1, &[4, 8, 12], &[4, 4, 4]),
];

fn expect_lane(rt: &impl Abort, alloc: Global, row: Row) -> Result<(), AllocError> {
    let (ages, lane, unroll, taps_wanted, gaps_wanted) = row;
    assert!(rt; are_below_end(ages));
    assert!(rt; lane < unroll && unroll <= 64);
    let taps = taps(alloc, ages, lane, unroll)?;
    assert!(rt; taps.as_slice() == taps_wanted);
    let found = gaps(alloc, taps.as_slice());
    drop(taps);
    let gaps = found?;
    assert!(rt; gaps.as_slice() == gaps_wanted);
    drop(gaps);
    Ok(())
}

#[test]
fn lanes(rt: HostRuntime) -> Result<(), Fail> {
    for row in LANES {
        expect_lane(&rt, rt.alloc(), *row)?;
    }
    Ok(())
}
