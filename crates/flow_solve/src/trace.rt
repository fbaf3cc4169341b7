ghost use Rattle.std.specs.Prelude.{◌≡◌, ◌+◌, ◌<◌, ◌≤◌, length, reverse, IfOk};
ghost use Rattle.flow_solve.specs.Walk.{IsWalk, walk_length};
ghost use Rattle.flow_solve.specs.machine.Rounds.{at, IsGraph, After};

use crate::Arc;
use crate::round::LastArcs;
use delay_net::NoMemory;
use std::alloc::Global;

// A walk, and the node where it begins.
#[derive(Drop)]
pub(crate) struct Traced {
    pub(crate) from: u32,
    pub(crate) walk: Vec<u32>,
}

// The lengths after some rounds, and the rounds, the latest last.
#[derive(Drop)]
pub(crate) struct Rounds {
    pub(crate) lengths: Vec<i64>,
    pub(crate) last: Vec<LastArcs>,
}

// The walk by which the length of a node came.
pub(crate) fn trace(
    alloc: Global,
    nodes: u32,
    graph: &[Arc],
    rounds: Rounds,
    to: u32,
) -> Result<Traced, NoMemory>
    requires graph { IsGraph nodes graph.now }
    requires after { After graph.now nodes (reverse rounds.last.items) rounds.lengths.items }
    requires to { to < nodes }
    ensures from { IfOk result (λ traced. traced.from < nodes) }
    ensures walk { IfOk result (λ traced. IsWalk graph.now traced.from traced.walk.items to) }
    ensures length { IfOk result (λ traced. walk_length graph.now traced.walk.items ≡ at rounds.lengths.items to) }
    ensures arcs { IfOk result (λ traced. length traced.walk.items ≤ length rounds.last.items) }
{
    let mut last = rounds.last;
    let mut walk = Vec::new(alloc);
    let mut from = to;
    while let Some(arcs) = last.pop() {
        let Some(k) = arcs.arc_to(from) else {
            continue;
        };
        walk.push(k)?;
        from = graph[k as usize].from;
    }
    walk.reverse();
    Ok(Traced { from, walk })
}
