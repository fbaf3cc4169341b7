ghost use Rattle.std.specs.Prelude.{◌≡◌, ◌≢◌, slice_index, ℕ, ◌<◌, ◌≤◌, ◌<ℤ◌, List, length, take, reverse, replicate, IfOk};
ghost use Rattle.flow_solve.specs.Limits.{most_nodes};
ghost use Rattle.flow_solve.specs.Walk.{at, IsGraph, IsWalk, walk_length, IsPositiveCycle, NoRepeat};
ghost use Rattle.flow_solve.specs.machine.Rounds.{After};

use crate::Arc;
use crate::round::no_arcs;
use crate::trace::{Rounds, Traced, trace};
use delay_net::NoMemory;
use std::alloc::Global;

// Two places of a walk at which it is at one node, the earlier first.
pub(crate) fn repeated(
    nodes: u32,
    graph: &[Arc],
    from: u32,
    walk: &[u32],
    seen: &mut [Option<u32>],
) -> (u32, u32)
    requires graph { IsGraph nodes graph.now }
    requires from { from < nodes }
    requires walk { (to : ℕ) × IsWalk graph.now from walk.now to }
    requires long { nodes ≤ length walk.now }
    requires short { length walk.now ≤ most_nodes }
    requires seen { seen.old ≡ replicate nodes None }
    ensures rises { result.0 < result.1 }
    ensures within { result.1 ≤ length walk.now }
    ensures once { (p q : ℕ) → result.0 ≤ p → p < q → q < result.1 → slice_index walk.now p ≢ slice_index walk.now q }
    ensures same { (u : ℕ) × IsWalk graph.now from (take result.0 walk.now) u
        × IsWalk graph.now from (take result.1 walk.now) u }
{
    seen[from as usize] = Some(0);
    for (i, k) in walk.iter().enumerate() {
        let node = graph[*k as usize].to as usize;
        if let Some(first) = seen[node] {
            return (first, i as u32 + 1);
        }
        seen[node] = Some(i as u32 + 1);
    }
    unreachable!()
}

// A positive cycle on the walk by which the length of a node came, where each walk to it of fewer
// arcs than there are nodes is less long.
pub(crate) fn positive_cycle(
    alloc: Global,
    nodes: u32,
    graph: &[Arc],
    rounds: Rounds,
    to: u32,
) -> Result<Vec<u32>, NoMemory>
    requires graph { IsGraph nodes graph.now }
    requires after { After graph.now nodes (reverse rounds.last.items) rounds.lengths.items }
    requires count { length rounds.last.items ≡ nodes }
    requires to { to < nodes }
    requires shorter { (from : ℕ) (walk : List ℕ) → IsWalk graph.now from walk to
        → length walk < nodes → walk_length graph.now walk <ℤ at rounds.lengths.items to }
    ensures cycle { IfOk result (λ walk. IsPositiveCycle graph.now walk.items) }
    ensures once { IfOk result (λ walk. NoRepeat walk.items) }
    ensures short { IfOk result (λ walk. length walk.items ≤ most_nodes) }
{
    let Traced { from, walk } = trace(alloc, nodes, graph, rounds, to)?;
    let mut seen = no_arcs(alloc, nodes)?;
    let (first, again) = repeated(nodes, graph, from, &walk, &mut seen);
    let cycle = Vec::from_slice(alloc, &walk[first as usize..again as usize])?;
    Ok(cycle)
}
