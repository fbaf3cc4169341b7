ghost use Rattle.std.specs.Prelude.{◌≡◌, IfOk};

use super::{BLUR, FAR, Reading, are_below_end, net_of};
use delay_net::{Amounts, Flow, Net, check, is_balanced, meets, storage, storage_of};
use std::alloc::{AllocError, Global};
use std::process::Abort;
use std::test::Fail;

// Widths, reads and delays, the storage of each tensor, and that of all. There are none where the delays don't
// meet the windows.
type StorageRow = (
    &'static [u8],
    &'static [Reading],
    &'static [u64],
    &'static [u64],
    u128,
);

const STORAGES: &[StorageRow] = &[
    (&[16, 16, 16], &BLUR, &[0, 4000, 4002], &[4000, 2, 0], 64032),
    (&[8, 32, 32], &FAR, &[0, 1000, 1000], &[1000, 0, 0], 8000),
    (&[8, 32, 32], &FAR, &[0, 0, 1000], &[0, 1000, 0], 32000),
    (&[8, 32, 32], &FAR, &[0, 1000, 999], &[], 0),
];

fn expect_storages(rt: &impl Abort, net: &Net, delays: &[u64], storages: &[u64], total: u128) {
    assert!(rt; delays.len() == net.weights().len());
    assert!(rt; are_below_end(delays));
    if !meets(net, delays) {
        assert!(rt; storages.is_empty());
        return;
    }
    assert!(rt; storages.len() == delays.len());
    for tensor in 0..delays.len() {
        assert!(rt; storage_of(net, delays, tensor as u32) == storages[tensor]);
    }
    assert!(rt; storage(net, delays) == total);
}

fn expect_storage(rt: &impl Abort, alloc: Global, row: StorageRow) -> Result<(), AllocError> {
    let (weights, rows, delays, storages, total) = row;
    let net = net_of(rt, alloc, weights, rows)?;
    expect_storages(rt, &net, delays, storages, total);
    drop(net);
    Ok(())
}

#[test]
fn storages(rt: HostRuntime) -> Result<(), Fail> {
    for row in STORAGES {
        expect_storage(&rt, rt.alloc(), *row)?;
    }
    Ok(())
}

fn flow_of(alloc: Global, hold: &[u32], need: &[u32]) -> Result<Flow, AllocError>
    ensures { IfOk result (λ flow. (flow.hold ≡ hold.now) × (flow.need ≡ need.now)) }
{
    let hold = Vec::from_slice(alloc, hold)?;
    let need = Vec::from_slice(alloc, need)?;
    Ok(Flow {
        hold: Amounts::from_vec(hold),
        need: Amounts::from_vec(need),
    })
}

// Widths, reads and delays, holds and needs, whether these are balanced, and whether they fit.
type CertificateRow = (
    &'static [u8],
    &'static [Reading],
    &'static [u64],
    &'static [u32],
    &'static [u32],
    bool,
    bool,
);

const LATE: &[u64] = &[0, 1000, 1000];

const CERTIFICATES: &[CertificateRow] = &[
    (
        &[16, 16, 16],
        &BLUR,
        &[0, 4000, 4002],
        &[16, 0, 0, 16, 0, 0],
        &[0, 0, 16, 0, 0, 16],
        true,
        true,
    ),
    (
        &[8, 32, 32],
        &FAR,
        LATE,
        &[8, 0, 32],
        &[0, 8, 24],
        true,
        true,
    ),
    (
        &[8, 32, 32],
        &FAR,
        &[0, 0, 1000],
        &[8, 0, 32],
        &[0, 8, 24],
        true,
        false,
    ),
    (
        &[8, 32, 32],
        &FAR,
        LATE,
        &[8, 0, 31],
        &[0, 8, 24],
        false,
        false,
    ),
    (
        &[8, 32, 32],
        &FAR,
        LATE,
        &[8, 0, 32],
        &[1, 8, 24],
        false,
        false,
    ),
];

// Whether the holds and needs are balanced, and whether they fit.
fn told(
    rt: &impl Abort,
    alloc: Global,
    net: &Net,
    delays: &[u64],
    hold: &[u32],
    need: &[u32],
) -> Result<(bool, bool), AllocError> {
    assert!(rt; delays.len() == net.weights().len());
    assert!(rt; are_below_end(delays));
    assert!(rt; hold.len() == net.reads().len() && need.len() == net.reads().len());
    assert!(rt; meets(net, delays));
    let balanced = is_balanced(net, hold, need);
    let flow = flow_of(alloc, hold, need)?;
    let fits = check(net, delays, &flow);
    assert!(rt; flow.need.as_slice() == need);
    let Flow { hold, need } = flow;
    drop(need);
    drop(hold.into_vec());
    Ok((balanced, fits))
}

fn expect_certificate(
    rt: &impl Abort,
    alloc: Global,
    row: CertificateRow,
) -> Result<(), AllocError> {
    let (weights, rows, delays, hold, need, balanced, fits) = row;
    let net = net_of(rt, alloc, weights, rows)?;
    let found = told(rt, alloc, &net, delays, hold, need);
    drop(net);
    let (is_balanced, does_fit) = found?;
    assert!(rt; is_balanced == balanced && does_fit == fits);
    Ok(())
}

#[test]
fn certificates(rt: HostRuntime) -> Result<(), Fail> {
    for row in CERTIFICATES {
        expect_certificate(&rt, rt.alloc(), *row)?;
    }
    Ok(())
}
