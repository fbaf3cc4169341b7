use super::{BLUR, FAR, Reading, net_of};
use flow_solve::solve;
use std::alloc::{AllocError, Global};
use std::process::Abort;
use std::test::Fail;

// Widths and reads, and the plan.
type Row = (&'static [u8], &'static [Reading], &'static [u64]);

// Two worked nets, and small ones whose plans a search through all assignments found.
const PLANS: &[Row] = &[
    (&[16, 16, 16], &BLUR, &[0, 4000, 4002]),
    (&[8, 32, 32], &FAR, &[0, 1000, 1000]),
    (
        &[2, 8, 1, 1],
        &[(2, 0, 2), (3, 0, -2), (3, 2, 1), (3, 2, -2)],
        &[0, 0, 2, 3],
    ),
    (
        &[2, 16, 1, 16],
        &[(1, 0, 2), (2, 0, -2), (2, 1, 0)],
        &[0, 2, 2, 0],
    ),
    (
        &[16, 8, 2],
        &[(1, 0, -1), (2, 0, 1), (2, 0, -2)],
        &[0, 0, 1],
    ),
    (
        &[3, 3, 16, 8],
        &[(1, 0, -2), (2, 0, 1), (3, 1, 3), (3, 2, 0), (3, 2, 3)],
        &[0, 0, 1, 4],
    ),
    (
        &[2, 2, 1, 2],
        &[
            (1, 0, -1),
            (2, 0, -2),
            (2, 1, 2),
            (2, 1, -1),
            (3, 0, 0),
            (3, 2, 1),
        ],
        &[1, 0, 2, 3],
    ),
    (&[1, 8, 8], &[(1, 0, 1), (1, 0, 0), (2, 1, -2)], &[1, 2, 0]),
    (&[2, 2, 2], &[(2, 0, 2), (2, 1, 3), (2, 1, -1)], &[1, 0, 3]),
    (
        &[2, 16, 1, 2],
        &[
            (1, 0, -1),
            (2, 0, 2),
            (2, 0, 3),
            (3, 1, 3),
            (3, 2, -2),
            (3, 2, 2),
        ],
        &[0, 2, 3, 5],
    ),
];

fn expect_plan(rt: &impl Abort, alloc: Global, row: Row) -> Result<(), AllocError> {
    let (weights, rows, plan) = row;
    let net = net_of(rt, alloc, weights, rows)?;
    let found = solve(alloc, &net);
    drop(net);
    let (delays, flow) = found?;
    drop(flow);
    assert!(rt; delays.as_slice() == plan);
    drop(delays);
    Ok(())
}

#[test]
fn plans(rt: HostRuntime) -> Result<(), Fail> {
    for row in PLANS {
        expect_plan(&rt, rt.alloc(), *row)?;
    }
    Ok(())
}
