ghost use Rattle.std.specs.Prelude.{◌≡◌, ◌<◌, ◌+◌, ◌^◌, ◌++◌, [], ◌∷◌, false, length, map, flat_map, unwrap_or, option_map, IfOk, OnOk, Option, List, ℕ};
ghost use Rattle.std.specs.Option.{option_copied};
ghost use Rattle.soda_checks.specs.Conditions.{first_by};
ghost use Rattle.soda_checks.specs.Names.{names_of};
ghost use Rattle.soda_ir.specs.Program.{plain, plain_param, plain_tensor};
ghost use Rattle.soda_parse.specs.Meaning.{border_of, first_or, fixed_in, input_of, kernel_in, param_of, program_by, tensor_of, tensors_in, tile_items};
ghost use Rattle.soda_formula.specs.Statements.{plain_line, plain_statement};

use crate::NoMemory;
use crate::formulas::{int_type, make_formula};
use soda_checks::{Names, Outline, first_tile};
use soda_formula::{Extent, FormulaLine, InputLine, ParamLine, Size, Statement};
use soda_ir::{Border, Param, Parts, Role, Tensor};
use soda_words::Word;
use sqlite_items::Items;
use std::alloc::Global;

// The text of a word.
fn text_of(alloc: Global, word: &Word) -> Result<Items<u8>, NoMemory>
    ensures { IfOk result (λ text. text ≡ word.now.text) }
{
    Items::from_slice(alloc, word.text.as_slice())
}

// The values of sizes.
fn values_of(alloc: Global, sizes: &[Size]) -> Result<Items<u64>, NoMemory>
    ensures { IfOk result (λ values. values ≡ map (λ s. s.value) sizes.now) }
{
    let mut values = Items::new(alloc);
    for size in sizes {
        values.push(size.value)?;
    }
    Ok(values)
}

// The param of a line.
fn make_param(alloc: Global, line: &ParamLine) -> Result<Param, NoMemory>
    ensures { IfOk result (λ param. plain_param param ≡ param_of line.now) }
{
    Ok(Param {
        name: text_of(alloc, &line.name)?,
        ty: int_type(&line.ty),
        sizes: values_of(alloc, line.sizes.as_slice())?,
    })
}

// The input of a line.
fn make_input(alloc: Global, line: &InputLine) -> Result<Tensor, NoMemory>
    ensures { IfOk result (λ tensor. plain_tensor tensor ≡ input_of line.now) }
{
    Ok(Tensor {
        name: text_of(alloc, &line.name)?,
        ty: int_type(&line.ty),
        role: Role::Input,
        formula: None,
    })
}

// The local or output of a line.
fn make_tensor(
    alloc: Global,
    outline: &Outline,
    names: &Names,
    role: Role,
    line: &FormulaLine,
) -> Result<Tensor, NoMemory>
    requires names { names.now ≡ names_of outline.now }
    requires tensors { length outline.now.inputs + length outline.now.defined < 2 ^ 32 }
    requires params { length outline.now.params < 2 ^ 32 }
    ensures { IfOk result (λ tensor. plain_tensor tensor ≡ tensor_of outline.now role (plain_line line.now)) }
{
    let name = text_of(alloc, &line.name)?;
    let ty = int_type(&line.ty);
    let formula = make_formula(alloc, outline, names, line.left.as_slice(), &line.formula)?;
    Ok(Tensor {
        name,
        ty,
        role,
        formula: Some(formula),
    })
}

// The params of an outline.
fn make_params(alloc: Global, lines: &[ParamLine]) -> Result<Items<Param>, NoMemory>
    ensures { IfOk result (λ params. map plain_param params ≡ map param_of lines.now) }
{
    let mut params = Items::new(alloc);
    for line in lines {
        params.push(make_param(alloc, line)?)?;
    }
    Ok(params)
}

// Adds the inputs of an outline.
fn add_inputs(
    alloc: Global,
    lines: &[InputLine],
    tensors: &mut Items<Tensor>,
) -> Result<(), NoMemory>
    ensures { OnOk result (map plain_tensor tensors.new ≡ map plain_tensor tensors.old ++ map input_of lines.now) }
{
    for line in lines {
        tensors.push(make_input(alloc, line)?)?;
    }
    Ok(())
}

// Adds the tensor of a local or output.
fn add_line(
    alloc: Global,
    outline: &Outline,
    names: &Names,
    role: Role,
    line: &FormulaLine,
    tensors: &mut Items<Tensor>,
) -> Result<(), NoMemory>
    requires names { names.now ≡ names_of outline.now }
    requires tensors { length outline.now.inputs + length outline.now.defined < 2 ^ 32 }
    requires params { length outline.now.params < 2 ^ 32 }
    ensures { OnOk result (map plain_tensor tensors.new ≡
        map plain_tensor tensors.old ++ tensor_of outline.now role (plain_line line.now) ∷ []) }
{
    let tensor = make_tensor(alloc, outline, names, role, line)?;
    tensors.push(tensor)
}

// Adds the tensor of a local or output, and nothing for another statement.
fn add_tensor(
    alloc: Global,
    outline: &Outline,
    names: &Names,
    statement: &Statement,
    tensors: &mut Items<Tensor>,
) -> Result<(), NoMemory>
    requires names { names.now ≡ names_of outline.now }
    requires tensors { length outline.now.inputs + length outline.now.defined < 2 ^ 32 }
    requires params { length outline.now.params < 2 ^ 32 }
    ensures { OnOk result (map plain_tensor tensors.new ≡
        map plain_tensor tensors.old ++ tensors_in outline.now (plain_statement statement.now)) }
{
    match statement {
        Statement::Local(line) => add_line(alloc, outline, names, Role::Local, line, tensors),
        Statement::Output(line) => add_line(alloc, outline, names, Role::Output, line, tensors),
        Statement::Kernel { .. }
        | Statement::BurstWidth { .. }
        | Statement::UnrollFactor { .. }
        | Statement::Iterate { .. }
        | Statement::Border { .. }
        | Statement::Cluster { .. }
        | Statement::Param(_)
        | Statement::Input(_) => Ok(()),
    }
}

// Adds the tensors of locals and outputs.
fn add_tensors(
    alloc: Global,
    outline: &Outline,
    names: &Names,
    statements: &[Statement],
    tensors: &mut Items<Tensor>,
) -> Result<(), NoMemory>
    requires names { names.now ≡ names_of outline.now }
    requires tensors { length outline.now.inputs + length outline.now.defined < 2 ^ 32 }
    requires params { length outline.now.params < 2 ^ 32 }
    ensures { OnOk result (map plain_tensor tensors.new ≡
        map plain_tensor tensors.old ++ flat_map (tensors_in outline.now) (map plain_statement statements.now)) }
{
    for statement in statements {
        add_tensor(alloc, outline, names, statement, tensors)?;
    }
    Ok(())
}

// The fixed extents among the items of a tile.
fn fixed_extents(alloc: Global, items: &[Extent]) -> Result<Items<u64>, NoMemory>
    ensures { IfOk result (λ extents. extents ≡ flat_map fixed_in items.now) }
{
    let mut extents = Items::new(alloc);
    for item in items {
        if let Extent::Fixed(n) = item {
            extents.push(*n)?;
        }
    }
    Ok(extents)
}

// The fixed extents of the first tile.
fn extents_of(alloc: Global, outline: &Outline) -> Result<Items<u64>, NoMemory>
    ensures { IfOk result (λ extents. extents ≡ flat_map fixed_in (tile_items outline.now)) }
{
    match first_tile(outline.inputs.as_slice()) {
        Some(tile) => fixed_extents(alloc, tile.as_slice()),
        None => Ok(Items::new(alloc)),
    }
}

// The name of the program, if a statement gives it.
fn kernel_of(statements: &[Statement]) -> Option<&Items<u8>>
    ensures { option_copied result ≡ first_by kernel_in (map plain_statement statements.now) }
{
    for statement in statements {
        if let Statement::Kernel { text, .. } = statement {
            return Some(text);
        }
    }
    None
}

// The name of the program, and none where no statement gives it.
fn make_kernel(alloc: Global, statements: &[Statement]) -> Result<Items<u8>, NoMemory>
    ensures { IfOk result (λ kernel. kernel ≡ unwrap_or (first_by kernel_in (map plain_statement statements.now)) []) }
{
    match kernel_of(statements) {
        Some(text) => Items::from_slice(alloc, text.as_slice()),
        None => Ok(Items::new(alloc)),
    }
}

// The first number, if there is one.
fn first_or(numbers: &[u64], other: u64) -> u64
    ensures { result ≡ first_or numbers.now other }
{
    match numbers {
        [] => other,
        [number, ..] => *number,
    }
}

// What stands outside the outputs' regions.
fn border_of(preserves: &[bool]) -> Border
    ensures { result ≡ border_of (first_or preserves.now false) }
{
    match preserves {
        [] => Border::Ignore,
        [preserve, ..] => {
            if *preserve {
                Border::Preserve
            } else {
                Border::Ignore
            }
        }
    }
}

// The tensors of the program: inputs first, then locals and outputs.
fn make_tensors(
    alloc: Global,
    outline: &Outline,
    names: &Names,
    statements: &[Statement],
) -> Result<Items<Tensor>, NoMemory>
    requires names { names.now ≡ names_of outline.now }
    requires tensors { length outline.now.inputs + length outline.now.defined < 2 ^ 32 }
    requires params { length outline.now.params < 2 ^ 32 }
    ensures { IfOk result (λ tensors. map plain_tensor tensors ≡
        map input_of outline.now.inputs ++ flat_map (tensors_in outline.now) (map plain_statement statements.now)) }
{
    let mut tensors = Items::new(alloc);
    add_inputs(alloc, outline.inputs.as_slice(), &mut tensors)?;
    add_tensors(alloc, outline, names, statements, &mut tensors)?;
    Ok(tensors)
}

/// The parts of the program that statements of this outline stand for.
pub(crate) fn make_parts(
    alloc: Global,
    outline: &Outline,
    names: &Names,
    statements: &[Statement],
) -> Result<Parts, NoMemory>
    requires names { names.now ≡ names_of outline.now }
    requires tensors { length outline.now.inputs + length outline.now.defined < 2 ^ 32 }
    requires params { length outline.now.params < 2 ^ 32 }
    ensures { IfOk result (λ parts. plain parts ≡ program_by outline.now (map plain_statement statements.now)) }
{
    let kernel = make_kernel(alloc, statements)?;
    let params = make_params(alloc, outline.params.as_slice())?;
    let extents = extents_of(alloc, outline)?;
    let tensors = make_tensors(alloc, outline, names, statements)?;
    Ok(Parts {
        kernel,
        burst: first_or(outline.bursts.as_slice(), 0),
        unroll: first_or(outline.unrolls.as_slice(), 0),
        iterate: first_or(outline.iterates.as_slice(), 1),
        border: border_of(outline.preserves.as_slice()),
        params,
        extents,
        tensors,
    })
}
