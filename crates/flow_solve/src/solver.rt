ghost use Rattle.std.specs.Prelude.{◌≡◌, ℕ, ◌+◌, ◌<◌, pos, ◌≤ℤ◌, List, length, slice_index, IfOk};
ghost use Rattle.delay_net.specs.Shape.{IsNet};
ghost use Rattle.delay_net.specs.Windows.{HasShortDelays};
ghost use Rattle.delay_net.specs.Certificate.{Fits};
ghost use Rattle.flow_solve.specs.Walk.{at};
ghost use Rattle.flow_solve.specs.LeastPlan.{IsLeastPlan};

use crate::proposal::Certificate;
use crate::residual::residual;
use crate::start::first_certificate;
use crate::unit::send_around;
use crate::{Longest, longest};
use delay_net::{Amounts, Flow, Net, NoMemory};
use std::alloc::Global;

/// The plan of a net, and a certificate that `check` of `delay_net` accepts for it: of the
/// assignments of least total storage the one that is pointwise at most every other. The only
/// error is that memory ran out.
pub fn solve(alloc: Global, net: &Net) -> Result<(Vec<u64>, Flow), NoMemory>
    ensures plan { IfOk result (λ found. IsLeastPlan net.now.weights net.now.reads found.0.items) }
    ensures one { IfOk result (λ found. (plan : List ℕ) → IsLeastPlan net.now.weights net.now.reads plan
        → plan ≡ found.0.items) }
    ensures fits { IfOk result (λ found. Fits net.now.weights net.now.reads found.0.items found.1.hold found.1.need) }
    ensures holds { IfOk result (λ found. length found.1.hold ≡ length net.now.reads) }
    ensures needs { IfOk result (λ found. length found.1.need ≡ length net.now.reads) }
    ensures short { IfOk result (λ found. HasShortDelays found.0.items) }
{
    let tensors = net.weights().len() as u32;
    let Certificate { mut hold, mut need } = first_certificate(alloc, net)?;
    loop {
        let arcs = residual(alloc, net, &hold, &need)?;
        match longest(alloc, 2 * tensors, &arcs)? {
            Longest::Lengths(lengths) => {
                let delays = delays_of(alloc, tensors, &lengths)?;
                let hold = Amounts::from_vec(hold);
                let need = Amounts::from_vec(need);
                return Ok((delays, Flow { hold, need }));
            }
            Longest::Cycle(walk) => send_around(net, &arcs, &walk, &mut hold, &mut need),
        }
    }
}

// The first lengths, as delays.
fn delays_of(alloc: Global, tensors: u32, lengths: &[i64]) -> Result<Vec<u64>, NoMemory>
    requires count { tensors < length lengths.now + 1 }
    requires from { (v : ℕ) → v < tensors → pos 0 ≤ℤ at lengths.now v }
    ensures size { IfOk result (λ delays. length delays.items ≡ tensors) }
    ensures value { IfOk result (λ delays. (t : ℕ) → t < tensors
        → at lengths.now t ≡ pos (slice_index delays.items t)) }
{
    let mut delays = Vec::new(alloc);
    for t in 0..tensors {
        delays.push(lengths[t as usize] as u64)?;
    }
    Ok(delays)
}
