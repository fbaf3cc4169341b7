ghost use Rattle.std.specs.Prelude.{◌≡◌, ◌↔◌, IfOk, IsTrue};
ghost use Rattle.soda_ir.specs.Program.{plain};
ghost use Rattle.soda_ir.specs.Valid.{FitsItself, HasGoodEnds, HasGoodParts, IsSound, IsValid, KeepsLimits};

use crate::NoMemory;
use crate::live::tally;
use crate::params::value_count;
use crate::placing::are_all_placed;
use crate::program::Parts;
use crate::unique::are_names_free;
use crate::valid::{
    fill_burst, has_good_numbers, has_good_params, has_good_tile, has_input, has_inputs_first,
    has_output, have_good_formulas, outputs_fit,
};
use soda_words::{MOST_LIVE, MOST_READS, MOST_VALUES, is_name};
use std::alloc::{AllocError, Global};
use thiserror::Error;

/// Why parts make no program.
#[derive(Clone, Copy, Debug, Error)]
pub enum MakeRefusal {
    /// A condition on programs fails.
    #[error("the parts are no valid program")]
    Invalid,
    /// Memory was refused.
    #[error("out of memory")]
    Memory,
}

impl From<AllocError> for MakeRefusal {
    ghost use Rattle.soda_ir.specs.declared.make.MakeRefusal.TheVariants.{Memory};
    ghost use Rattle.std.specs.Prelude.{◌≡◌};

    ghost from_gives = { λ _ e. e ≡ Memory };

    fn from(_e: AllocError) -> MakeRefusal {
        MakeRefusal::Memory
    }
}

fn keeps_limits(parts: &Parts) -> bool
    ensures { IsTrue result ↔ KeepsLimits (plain parts.now) }
{
    let numbers = has_good_numbers(parts);
    let tile = has_good_tile(parts.extents.as_slice());
    let values = value_count(parts.params.as_slice()) <= MOST_VALUES as u128;
    numbers & tile & values
}

fn has_good_parts(alloc: Global, parts: &Parts) -> Result<bool, NoMemory>
    ensures { IfOk result (λ good. IsTrue good ↔ HasGoodParts (plain parts.now)) }
{
    if !has_good_params(parts.params.as_slice()) {
        return Ok(false);
    }
    let kernel = is_name(parts.kernel.as_slice());
    let names = are_names_free(alloc, parts.params.as_slice(), parts.tensors.as_slice())?;
    let formulas = have_good_formulas(parts);
    Ok(kernel & names & formulas)
}

fn has_good_ends(parts: &Parts) -> bool
    ensures { IsTrue result ↔ HasGoodEnds (plain parts.now) }
{
    let inputs_first = has_inputs_first(parts.tensors.as_slice());
    let input = has_input(parts.tensors.as_slice());
    let output = has_output(parts.tensors.as_slice());
    let bursts = fill_burst(parts.burst, parts.tensors.as_slice());
    inputs_first & input & output & bursts
}

// Whether the outputs fit the inputs, where they have to.
fn fits_itself(alloc: Global, parts: &Parts) -> Result<bool, NoMemory>
    ensures { IfOk result (λ fit. IsTrue fit ↔ FitsItself (plain parts.now)) }
{
    if parts.iterate == 1 && !parts.is_preserved() {
        Ok(true)
    } else {
        outputs_fit(alloc, parts.tensors.as_slice())
    }
}

// Whether the parts make a program, as far as nothing is counted.
fn is_sound(alloc: Global, parts: &Parts) -> Result<bool, NoMemory>
    ensures { IfOk result (λ sound. IsTrue sound ↔ IsSound (plain parts.now)) }
{
    if !keeps_limits(parts) {
        return Ok(false);
    }
    if !has_good_ends(parts) {
        return Ok(false);
    }
    if !has_good_parts(alloc, parts)? {
        return Ok(false);
    }
    if !fits_itself(alloc, parts)? {
        return Ok(false);
    }
    are_all_placed(alloc, parts)
}

/// Whether the parts make a program.
pub(crate) fn is_valid(alloc: Global, parts: &Parts) -> Result<bool, NoMemory>
    ensures { IfOk result (λ valid. IsTrue valid ↔ IsValid (plain parts.now)) }
{
    if !is_sound(alloc, parts)? {
        return Ok(false);
    }
    let totals = tally(alloc, parts)?;
    Ok(totals.live <= MOST_LIVE && totals.reads <= MOST_READS as u128)
}
