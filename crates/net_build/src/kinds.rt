ghost use Rattle.std.specs.Prelude.{◌≡◌, ◌&&◌, IfOk, map, if◌then◌else◌};
ghost use Rattle.net_shape.specs.declared.kinds.Kind.TheVariants.{Input, Inner, Output};
ghost use Rattle.soda_ir.specs.Counts.{is_input_role, is_output_role};
ghost use Rattle.soda_ir.specs.Program.{plain};
ghost use Rattle.net_build.specs.Planned.{kind_of};

use crate::NoMemory;
use net_shape::Kind;
use soda_ir::{Parts, Role};
use std::alloc::Global;
use time_stages::StagedTensor;

// What a tensor of a role is in a network, by whether this is the last iteration.
fn kind_in(role: Role, is_last: bool) -> Kind
    ensures { result ≡ (if is_input_role role then Input
        else (if is_output_role role && is_last then Output else Inner)) }
{
    match role {
        Role::Input => Kind::Input,
        Role::Local => Kind::Inner,
        Role::Output => { if is_last { Kind::Output } else { Kind::Inner } }
    }
}

// What a staged tensor is in a network.
fn kind_of(parts: &Parts, staged: &StagedTensor) -> Kind
    ensures { result ≡ kind_of (plain parts.now) staged.now }
{
    let is_last = u64::from(staged.turn) == parts.iterate;
    match parts.tensors.get(staged.tensor as usize) {
        Some(tensor) => kind_in(tensor.role, is_last),
        None => Kind::Inner,
    }
}

/// What each of these staged tensors is in a network.
pub(crate) fn kinds_of(
    alloc: Global,
    parts: &Parts,
    tensors: &[StagedTensor],
) -> Result<Vec<Kind>, NoMemory>
    ensures { IfOk result (λ kinds. kinds.items ≡ map (kind_of (plain parts.now)) tensors.now) }
{
    let mut kinds = Vec::with_capacity(alloc, tensors.len())?;
    for staged in tensors {
        kinds.push(kind_of(parts, staged))?;
    }
    Ok(kinds)
}
