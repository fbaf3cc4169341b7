ghost use Rattle.std.specs.Prelude.{◌≡◌, ◌<◌, ℕ, true, IfOk};
ghost use Rattle.std.specs.List.{list_any};
ghost use Rattle.std.specs.String.{string_bytes};
ghost use Rattle.soda_words.specs.Names.{is_word};
ghost use Rattle.share_shape.specs.Procedure.{is_used, share_name, share_number};
ghost use Rattle.share_expr.specs.Working.{names_with, with_tensors};

use crate::NoMemory;
use soda_ir::{Param, Parts, Tensor};
use soda_words::is_word;
use std::alloc::Global;

/// `share_` and a number.
pub(crate) fn share_name(alloc: Global, number: u64) -> Result<String, NoMemory>
    ensures { IfOk result (λ name. string_bytes name ≡ share_name number) }
{
    format!(in alloc; "share_{number}")
}

// Whether a param has this name.
fn names_param(name: &[u8], params: &[Param]) -> bool
    ensures { result ≡ list_any (λ q. is_word name.now q.name) params.now }
{
    params
        .iter()
        .any(|param| is_word(name, param.name.as_slice()))
}

// Whether a tensor has this name.
fn names_tensor(name: &[u8], tensors: &[Tensor]) -> bool
    ensures { result ≡ list_any (λ t. is_word name.now t.name) tensors.now }
{
    tensors
        .iter()
        .any(|tensor| is_word(name, tensor.name.as_slice()))
}

// Whether a param or tensor has the name with this number.
#[tactic(auto, using(crate::proofs::Numbers::used_either))]
fn is_used(alloc: Global, parts: &Parts, tensors: &[Tensor], number: u64) -> Result<bool, NoMemory>
    ensures { IfOk result (λ used. used ≡ is_used (names_with parts.now tensors.now) number) }
{
    let name = share_name(alloc, number)?;
    let name = name.as_str().as_bytes();
    let param = names_param(name, parts.params.as_slice());
    let tensor = names_tensor(name, tensors);
    Ok(param | tensor)
}

/// The least number from 0 that gives a name that no param or tensor has, where each below `from` gives one that is
/// used.
pub(crate) fn unused_number(
    alloc: Global,
    parts: &Parts,
    tensors: &[Tensor],
    from: u64,
) -> Result<u64, NoMemory>
    requires { (n : ℕ) → n < from → is_used (names_with parts.now tensors.now) n ≡ true }
    ensures { IfOk result (λ n. n ≡ share_number (with_tensors parts.now tensors.now)) }
{
    let Some(most) = (parts.params.len() as u64).checked_add(tensors.len() as u64) else {
        return Err(NoMemory);
    };
    for number in from..most {
        if !is_used(alloc, parts, tensors, number)? {
            return Ok(number);
        }
    }
    Ok(most)
}
