ghost use Rattle.std.specs.Prelude.{◌≡◌, ℕ, ◌<◌, pos, neg_ℤ, ◌+ℤ◌, ◌<ℤ◌, ◌≤ℤ◌, length, replicate, IfOk, IfSome, IfNone};
ghost use Rattle.std.specs.List.{slice_index_or};
ghost use Rattle.flow_solve.specs.Limits.{most_arc_length, most_length};
ghost use Rattle.flow_solve.specs.machine.Rounds.{at, IsGraph, IsRound};

use crate::Arc;
use delay_net::NoMemory;
use std::alloc::Global;
use std::marker::Model;

// For each node, the arc by which its length came in a round, if it rose.
#[derive(Drop)]
pub(crate) struct LastArcs {
    arcs: Vec<Option<u32>>,
}

impl Model for LastArcs {
    ghost use Rattle.std.specs.Prelude.{ℕ, List, Option};

    ghost Value = { List (Option ℕ) };

    ghost view = { λ last. last.arcs.items };
}

impl LastArcs {
    // The arc by which the length of a node came, if it rose.
    pub(crate) fn arc_to(&self, node: u32) -> Option<u32>
        requires { node < length self.now }
        ensures { result ≡ slice_index_or self.now node None }
    {
        self.arcs[node as usize]
    }
}

// One round over the arcs.
#[derive(Drop)]
pub(crate) struct Round {
    // For each node, the greatest length of a walk of one arc more.
    pub(crate) lengths: Vec<i64>,
    pub(crate) last: LastArcs,
    // A node whose length rose.
    pub(crate) raised: Option<u32>,
}

// The length of a walk that goes on by an arc.
fn gone_on(arc: Arc, old: &[i64]) -> i64
    requires end { arc.from < length old.now }
    requires small { (neg_ℤ (pos most_arc_length) ≤ℤ arc.length) × (arc.length ≤ℤ pos most_arc_length) }
    requires from { pos 0 ≤ℤ at old.now arc.from }
    requires to { at old.now arc.from ≤ℤ pos most_length }
    ensures { result ≡ at old.now arc.from +ℤ arc.length }
{
    old[arc.from as usize] + arc.length
}

// Takes each arc that leads further than the lengths so far, and answers where one did.
fn take_arcs(
    nodes: u32,
    graph: &[Arc],
    old: &[i64],
    lengths: &mut [i64],
    last: &mut [Option<u32>],
) -> Option<u32>
    requires graph { IsGraph nodes graph.now }
    requires size { length old.now ≡ nodes }
    requires from { (v : ℕ) → v < nodes → pos 0 ≤ℤ at old.now v }
    requires to { (v : ℕ) → v < nodes → at old.now v ≤ℤ pos most_length }
    requires lengths { lengths.old ≡ old.now }
    requires last { last.old ≡ replicate nodes None }
    ensures round { IsRound graph.now old.now last.new lengths.new }
    ensures raised { IfSome result (λ v. (v < nodes) × (at old.now v <ℤ at lengths.new v)) }
    ensures still { IfNone result ((v : ℕ) → v < nodes → at lengths.new v ≡ at old.now v) }
{
    let mut raised = None;
    for (k, arc) in graph.iter().enumerate() {
        let length = gone_on(*arc, old);
        let to = arc.to as usize;
        if length > lengths[to] {
            lengths[to] = length;
            last[to] = Some(k as u32);
            raised = Some(arc.to);
        }
    }
    raised
}

// Looks one arc further than the walks of these lengths.
pub(crate) fn next_round(
    alloc: Global,
    nodes: u32,
    graph: &[Arc],
    old: &[i64],
) -> Result<Round, NoMemory>
    requires graph { IsGraph nodes graph.now }
    requires size { length old.now ≡ nodes }
    requires from { (v : ℕ) → v < nodes → pos 0 ≤ℤ at old.now v }
    requires to { (v : ℕ) → v < nodes → at old.now v ≤ℤ pos most_length }
    ensures round { IfOk result (λ round. IsRound graph.now old.now round.last round.lengths.items) }
    ensures raised { IfOk result (λ round. IfSome round.raised (λ v. (v < nodes)
        × (at old.now v <ℤ at round.lengths.items v))) }
    ensures still { IfOk result (λ round. IfNone round.raised ((v : ℕ) → v < nodes
        → at round.lengths.items v ≡ at old.now v)) }
{
    let mut lengths = Vec::from_slice(alloc, old)?;
    let mut arcs = no_arcs(alloc, nodes)?;
    let raised = take_arcs(nodes, graph, old, &mut lengths, &mut arcs);
    Ok(Round {
        lengths,
        last: LastArcs { arcs },
        raised,
    })
}

// No arc for each node.
pub(crate) fn no_arcs(alloc: Global, nodes: u32) -> Result<Vec<Option<u32>>, NoMemory>
    ensures { IfOk result (λ arcs. arcs.items ≡ replicate nodes None) }
{
    let arcs = vec![in alloc; None; nodes as usize]?;
    Ok(arcs)
}
