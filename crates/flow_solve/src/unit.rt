ghost use Rattle.std.specs.Prelude.{◌≡◌, ◌≢◌, ℕ, ◌+◌, ◌/◌, ◌%◌, ◌^◌, ◌<◌, ◌≤◌, ◌<ℤ◌, ◌==◌, length, slice_index};
ghost use Rattle.flow_solve.specs.Limits.{most_nodes};
ghost use Rattle.delay_net.specs.Shape.{IsNet};
ghost use Rattle.delay_net.specs.Certificate.{IsBalanced, value_of};
ghost use Rattle.flow_solve.specs.Walk.{IsPositiveCycle};
ghost use Rattle.flow_solve.specs.machine.Residual.{residual};
ghost use Rattle.flow_solve.specs.machine.Conserve.{need_after, hold_after, NoRepeat};

use crate::Arc;
use delay_net::Net;

// Sends a unit along an arc that a certificate leaves.
pub(crate) fn send_unit(arc: Arc, number: u32, hold: &mut [u32], need: &mut [u32])
    requires hold_place { number / 4 < length hold.old }
    requires need_place { number / 4 < length need.old }
    requires hold_small { slice_index hold.old (number / 4) < 2 ^ 31 }
    requires need_small { slice_index need.old (number / 4) < 2 ^ 31 }
    requires needed { arc.from ≢ arc.to → number % 4 ≡ 2 → 0 < slice_index need.old (number / 4) }
    requires held { arc.from ≢ arc.to → number % 4 ≡ 3 → 0 < slice_index hold.old (number / 4) }
    ensures hold { hold.new ≡ hold_after (arc.from == arc.to) (number % 4) (number / 4) hold.old }
    ensures need { need.new ≡ need_after (arc.from == arc.to) (number % 4) (number / 4) need.old }
{
    if arc.from == arc.to {
        return;
    }
    let read = (number / 4) as usize;
    let kind = number % 4;
    if kind == 0 {
        need[read] += 1;
    } else if kind == 1 {
        hold[read] += 1;
    } else if kind == 2 {
        need[read] -= 1;
    } else {
        hold[read] -= 1;
    }
}

// Sends a unit along a cycle that a certificate leaves.
pub(crate) fn send_around(net: &Net, arcs: &[Arc], walk: &[u32], hold: &mut [u32], need: &mut [u32])
    requires net { IsNet net.now.weights net.now.reads }
    requires holds { length hold.old ≡ length net.now.reads }
    requires needs { length need.old ≡ length net.now.reads }
    requires arcs { arcs.now ≡ residual (length net.now.weights) net.now.reads hold.old need.old }
    requires balanced { IsBalanced net.now.weights net.now.reads hold.old need.old }
    requires cycle { IsPositiveCycle arcs.now walk.now }
    requires once { NoRepeat walk.now }
    requires short { length walk.now ≤ most_nodes }
    ensures holds { length hold.new ≡ length net.now.reads }
    ensures needs { length need.new ≡ length net.now.reads }
    ensures balanced { IsBalanced net.now.weights net.now.reads hold.new need.new }
    ensures more { value_of net.now.reads hold.old need.old <ℤ value_of net.now.reads hold.new need.new }
{
    for number in walk {
        send_unit(arcs[*number as usize], *number, hold, need);
    }
}
