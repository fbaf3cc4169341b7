ghost use Rattle.std.specs.Prelude.{◌≡◌, ◌<◌, All, length, map, IfOk};
ghost use Rattle.delay_net.specs.Shape.{IsWidth};
ghost use Rattle.soda_ir.specs.Program.{plain};
ghost use Rattle.time_stages.specs.Staged.{staged, staged_reads, staged_widths, type_of};

use crate::NoMemory;
use crate::staging::{Staged, StagedTensor};
use delay_net::Net;
use soda_ir::{Parts, Program};
use std::alloc::Global;

// The width of a tensor in bits.
fn width_of(parts: &Parts, tensor: u32) -> u8
    requires { tensor < length parts.now.tensors }
    ensures value { result ≡ (type_of (plain parts.now) tensor).bits }
    ensures width { IsWidth result }
{
    let ty = parts.tensors.as_slice()[tensor as usize].ty;
    ty.bits()
}

// The widths of staged tensors in bits.
fn widths(alloc: Global, parts: &Parts, tensors: &[StagedTensor]) -> Result<Vec<u8>, NoMemory>
    requires { All (λ s. s.tensor < length parts.now.tensors) tensors.now }
    ensures value { IfOk result (λ widths. widths.items
        ≡ map (λ s. (type_of (plain parts.now) s.tensor).bits) tensors.now) }
    ensures widths { IfOk result (λ widths. All IsWidth widths.items) }
{
    let mut widths = Vec::new(alloc);
    for staged in tensors {
        widths.push(width_of(parts, staged.tensor))?;
    }
    Ok(widths)
}

/// The net of a staged program: the widths of its tensors in bits, and its reads. The staged program is that of the
/// program.
pub fn net_of(alloc: Global, program: &Program, staging: &Staged) -> Result<Net, NoMemory>
    requires { staging.now ≡ staged (plain program.now) }
    ensures weights { IfOk result (λ net. net.weights ≡ staged_widths (plain program.now)) }
    ensures reads { IfOk result (λ net. net.reads ≡ staged_reads (plain program.now)) }
{
    let weights = widths(alloc, program.parts(), staging.tensors.as_slice())?;
    Net::new(alloc, &weights, staging.reads.as_slice())
}
