ghost use Rattle.std.specs.Prelude.{◌≡◌, ◌↔◌, pos, replicate, IfOk};
ghost use Rattle.flow_solve.specs.Walk.{IsGraph, IsCycle, IsSimple, TellsWalks, HasPositiveCycle};

use crate::cycle::positive_cycle;
use crate::round::{Round, next_round};
use crate::trace::Rounds;
use crate::{Arc, Longest};
use delay_net::NoMemory;
use std::alloc::Global;

/// The greatest length of a walk to each node, where the empty walk counts as 0; or a closed walk
/// of positive length, exactly where there is one. The graph has at most 1,024 nodes and 65,536
/// arcs, whose lengths are within plus or minus 2^42. The only error is that memory ran out.
pub fn longest(alloc: Global, nodes: u32, arcs: &[Arc]) -> Result<Longest, NoMemory>
    requires graph { IsGraph nodes arcs.now }
    ensures told { IfOk result (λ found. TellsWalks nodes arcs.now found) }
    ensures simple { IfOk result (IsSimple nodes) }
    ensures cycle { IfOk result (λ found. IsCycle found ↔ HasPositiveCycle arcs.now) }
{
    let mut lengths = zeros(alloc, nodes)?;
    let mut last = Vec::new(alloc);
    let mut raised = None;
    for _ in 0..nodes {
        let round = next_round(alloc, nodes, arcs, &lengths)?;
        let Round {
            lengths: longer,
            last: taken,
            raised: risen,
        } = round;
        let Some(node) = risen else {
            return Ok(Longest::Lengths(lengths));
        };
        raised = Some(node);
        lengths = longer;
        last.push(taken)?;
    }
    let Some(to) = raised else {
        return Ok(Longest::Lengths(lengths));
    };
    let walk = positive_cycle(alloc, nodes, arcs, Rounds { lengths, last }, to)?;
    Ok(Longest::Cycle(walk))
}

// 0 for each node.
fn zeros(alloc: Global, nodes: u32) -> Result<Vec<i64>, NoMemory>
    ensures { IfOk result (λ lengths. lengths.items ≡ replicate nodes (pos 0)) }
{
    let lengths = vec![in alloc; 0; nodes as usize]?;
    Ok(lengths)
}
