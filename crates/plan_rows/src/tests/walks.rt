ghost use Rattle.std.specs.Prelude.{◌≡◌, ◌↔◌, IsTrue};
ghost use Rattle.flow_solve.specs.Walk.{IsArc};

use flow_solve::{Arc, Longest, MOST_ARC_LENGTH, MOST_ARCS, MOST_NODES, longest};
use std::alloc::{AllocError, Global};
use std::process::Abort;
use std::test::Fail;

// A number of nodes, the arcs as their two ends and their length, the greatest lengths, and the arcs of a cycle where
// there is one.
type Row = (
    u32,
    &'static [(u32, u32, i64)],
    &'static [i64],
    &'static [u32],
);

const WALKS: &[Row] = &[
    (3, &[(0, 1, 3), (1, 2, -1)], &[0, 3, 2], &[]),
    (0, &[], &[], &[]),
    (2, &[(0, 1, 1), (1, 0, 0)], &[], &[0, 1]),
    (2, &[(0, 1, 1), (1, 0, -1)], &[0, 1], &[]),
];

fn arcs_of(alloc: Global, rows: &[(u32, u32, i64)]) -> Result<Vec<Arc>, AllocError> {
    let mut arcs = Vec::new(alloc);
    for (from, to, length) in rows {
        arcs.push(Arc {
            from: *from,
            to: *to,
            length: *length,
        })?;
    }
    Ok(arcs)
}

fn is_arc(nodes: u32, arc: Arc) -> bool
    ensures { IsTrue result ↔ IsArc nodes arc }
{
    arc.from < nodes
        && arc.to < nodes
        && -MOST_ARC_LENGTH <= arc.length
        && arc.length <= MOST_ARC_LENGTH
}

// The walks of a row.
fn walks_of(
    rt: &impl Abort,
    alloc: Global,
    nodes: u32,
    rows: &[(u32, u32, i64)],
) -> Result<Longest, AllocError> {
    let arcs = arcs_of(alloc, rows)?;
    assert!(rt; nodes <= MOST_NODES && arcs.len() <= MOST_ARCS);
    assert!(rt; arcs.iter().all(|arc| is_arc(nodes, *arc)));
    let found = longest(alloc, nodes, &arcs);
    drop(arcs);
    found
}

fn expect_walks(rt: &impl Abort, alloc: Global, row: Row) -> Result<(), AllocError> {
    let (nodes, rows, lengths, cycle) = row;
    match walks_of(rt, alloc, nodes, rows)? {
        Longest::Lengths(found) => {
            assert!(rt; found.as_slice() == lengths && cycle.is_empty());
            drop(found);
        }
        Longest::Cycle(walk) => {
            assert!(rt; walk.len() == cycle.len());
            drop(walk);
        }
    }
    Ok(())
}

#[test]
fn walks(rt: HostRuntime) -> Result<(), Fail> {
    for row in WALKS {
        expect_walks(&rt, rt.alloc(), *row)?;
    }
    Ok(())
}
