ghost use Rattle.std.specs.Prelude.{◌≡◌, ◌++◌, map, codes, IfOk, OnOk};
ghost use Rattle.std.specs.Fmt.{decimal};
ghost use Rattle.soda_ir.specs.Program.{plain, plain_param, plain_tensor};
ghost use Rattle.soda_ir.specs.Valid.{IsValid};
ghost use Rattle.soda_words.specs.IntType.{IsType};
ghost use Rattle.soda_print.specs.Sized.{AreSizedParams, AreSizedTensors, IsSizedProgram, IsSizedTensor};
ghost use Rattle.soda_print.specs.Canonical.{canonical, ended, headed, param_line, setting_lines};
ghost use Rattle.soda_print.specs.machine.Held.{held_line, held_params, held_tensors};

use crate::NoMemory;
use crate::formulas::add_formula;
use crate::text::{add, add_indexes, add_left, add_number, add_tile, add_type, end_line};
use crate::words::{border_word, role_word};
use soda_ir::{Param, Parts, Program, Tensor};
use soda_words::Ty;
use std::alloc::Global;

// Adds a line with a number.
#[tactic(auto, using(crate::proofs::Appended::appended))]
fn add_number_line(
    alloc: Global,
    text: &mut Vec<u8>,
    word: &[u8],
    number: u64,
) -> Result<(), NoMemory>
    ensures { OnOk result (text.new.items ≡ text.old.items ++ ((word.now ++ decimal number) ++ codes "\n")) }
{
    add(text, word)?;
    add_number(alloc, text, number)?;
    end_line(text)
}

// Adds a line with a word.
#[tactic(auto, using(crate::proofs::Appended::appended))]
fn add_word_line(text: &mut Vec<u8>, word: &[u8], value: &[u8]) -> Result<(), NoMemory>
    ensures { OnOk result (text.new.items ≡ text.old.items ++ ((word.now ++ value.now) ++ codes "\n")) }
{
    add(text, word)?;
    add(text, value)?;
    end_line(text)
}

// Adds the lines of the settings.
#[tactic(auto, using(crate::proofs::Appended::appended))]
fn add_settings(alloc: Global, text: &mut Vec<u8>, parts: &Parts) -> Result<(), NoMemory>
    ensures { OnOk result (text.new.items ≡ text.old.items ++ ended (setting_lines (plain parts.now))) }
{
    add_word_line(text, b"kernel: ", parts.kernel.as_slice())?;
    add_number_line(alloc, text, b"burst width: ", parts.burst)?;
    add_number_line(alloc, text, b"unroll factor: ", parts.unroll)?;
    add_number_line(alloc, text, b"iterate: ", parts.iterate)?;
    add_word_line(text, b"border: ", border_word(parts.border))?;
    Ok(())
}

// Adds a statement's word, its type and its name.
#[tactic(auto, using(crate::proofs::Appended::appended))]
fn add_head(
    alloc: Global,
    text: &mut Vec<u8>,
    word: &[u8],
    ty: Ty,
    name: &[u8],
) -> Result<(), NoMemory>
    ensures adds { OnOk result (text.new.items ≡ text.old.items ++ headed word.now ty name.now) }
    ensures allowed { OnOk result (IsType ty) }
{
    add(text, word)?;
    add(text, b" ")?;
    add_type(alloc, text, ty)?;
    add(text, b": ")?;
    add(text, name)
}

// Adds the line of a param.
#[tactic(auto, using(crate::proofs::Appended::appended))]
fn add_param(alloc: Global, text: &mut Vec<u8>, param: &Param) -> Result<(), NoMemory>
    ensures adds { OnOk result (text.new.items ≡ text.old.items ++ (param_line (plain_param param.now) ++ codes "\n")) }
    ensures allowed { OnOk result (IsType param.now.ty) }
{
    add_head(alloc, text, b"param", param.ty, param.name.as_slice())?;
    add_indexes(alloc, text, param.sizes.as_slice())?;
    end_line(text)
}

// Adds the lines of params.
fn add_params(alloc: Global, text: &mut Vec<u8>, params: &[Param]) -> Result<(), NoMemory>
    ensures adds { OnOk result (text.new.items ≡ text.old.items ++ held_params params.now) }
    ensures sized { OnOk result (AreSizedParams (map plain_param params.now)) }
{
    for param in params {
        add_param(alloc, text, param)?;
    }
    Ok(())
}

// Adds the line of a tensor.
#[tactic(auto, using(crate::proofs::Appended::appended))]
fn add_tensor(
    alloc: Global,
    text: &mut Vec<u8>,
    parts: &Parts,
    tensor: &Tensor,
) -> Result<(), NoMemory>
    ensures adds { OnOk result (text.new.items ≡ text.old.items ++ (held_line parts.now tensor.now ++ codes "\n")) }
    ensures sized { OnOk result (IsSizedTensor (plain_tensor tensor.now)) }
{
    add_head(
        alloc,
        text,
        role_word(tensor.role),
        tensor.ty,
        tensor.name.as_slice(),
    )?;
    match &tensor.formula {
        Some(formula) => {
            add_left(text, parts.extents.as_slice())?;
            add(text, b" = ")?;
            add_formula(alloc, text, parts, formula)?;
        }
        None => add_tile(alloc, text, parts.extents.as_slice())?,
    }
    end_line(text)
}

// Adds the lines of tensors.
fn add_tensors(
    alloc: Global,
    text: &mut Vec<u8>,
    parts: &Parts,
    tensors: &[Tensor],
) -> Result<(), NoMemory>
    ensures adds { OnOk result (text.new.items ≡ text.old.items ++ held_tensors parts.now tensors.now) }
    ensures sized { OnOk result (AreSizedTensors (map plain_tensor tensors.now)) }
{
    for tensor in tensors {
        add_tensor(alloc, text, parts, tensor)?;
    }
    Ok(())
}

/// The canonical text of a program.
pub fn print(alloc: Global, program: &Program) -> Result<Vec<u8>, NoMemory>
    ensures text { IfOk result (λ text. text.items ≡ canonical (plain program.now)) }
    ensures valid { IfOk result (λ text. IsValid (plain program.now)) }
    ensures sized { IfOk result (λ text. IsSizedProgram (plain program.now)) }
{
    let parts = program.parts();
    let mut text = Vec::new(alloc);
    add_settings(alloc, &mut text, parts)?;
    add_params(alloc, &mut text, parts.params.as_slice())?;
    add_tensors(alloc, &mut text, parts, parts.tensors.as_slice())?;
    Ok(text)
}
