ghost use Rattle.std.specs.Prelude.{◌≡◌, length, if◌then◌else◌, IfOk};
ghost use Rattle.delay_net.specs.Certificate.{IsBalanced};

use crate::proposal::{Certificate, proposal};
use delay_net::{MOST_TENSORS, Net, NoMemory, is_balanced};
use std::alloc::Global;

// The width of a tensor for its first read, and 0 for the others.
fn first_amount(met: bool, width: u8) -> u32
    ensures { result ≡ (if met then 0 else width) }
{
    if met { 0 } else { width as u32 }
}

// Amounts that are both the holds and the needs of a balanced certificate: the first read of each
// tensor has its width.
fn first_amounts(alloc: Global, net: &Net) -> Result<Vec<u32>, NoMemory>
    ensures size { IfOk result (λ amounts. length amounts.items ≡ length net.now.reads) }
    ensures balanced { IfOk result (λ amounts. IsBalanced net.now.weights net.now.reads amounts.items amounts.items) }
{
    let weights = net.weights();
    let mut met = [false; MOST_TENSORS];
    let mut amounts = Vec::new(alloc);
    for read in net.reads() {
        let of = read.of as usize;
        let amount = first_amount(met[of], weights[of]);
        met[of] = true;
        amounts.push(amount)?;
    }
    Ok(amounts)
}

// A balanced certificate to begin with: what longest walks give, where that is balanced.
pub(crate) fn first_certificate(alloc: Global, net: &Net) -> Result<Certificate, NoMemory>
    ensures holds { IfOk result (λ first. length first.hold.items ≡ length net.now.reads) }
    ensures needs { IfOk result (λ first. length first.need.items ≡ length net.now.reads) }
    ensures balanced { IfOk result (λ first.
        IsBalanced net.now.weights net.now.reads first.hold.items first.need.items) }
{
    let proposed = proposal(alloc, net)?;
    if is_balanced(net, &proposed.hold, &proposed.need) {
        return Ok(proposed);
    }
    drop(proposed);
    let hold = first_amounts(alloc, net)?;
    let need = Vec::from_slice(alloc, &hold)?;
    Ok(Certificate { hold, need })
}
