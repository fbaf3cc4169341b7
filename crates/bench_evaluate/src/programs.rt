//! Code of formulas over one array.

ghost use Rattle.std.specs.Prelude.{◌≡◌, [], IsTrue};
ghost use Rattle.soda_ir.specs.Program.{plain};
ghost use Rattle.soda_eval.specs.Runs.{place_types};

use formula_code::{Code, compile};
use soda_ir::{Border, Expr, MakeRefusal, NoMemory, Parts, Program, Role, Tensor};
use soda_words::{Ty, int32};
use sqlite_items::Items;
use std::alloc::Global;

fn tensor(
    alloc: Global,
    name: &[u8],
    ty: Ty,
    role: Role,
    formula: Option<Expr>,
) -> Result<Tensor, NoMemory> {
    match Items::from_slice(alloc, name) {
        Ok(name) => Ok(Tensor {
            name,
            ty,
            role,
            formula,
        }),
        Err(refused) => {
            drop(formula);
            Err(refused)
        }
    }
}

fn tensors(alloc: Global, ty: Ty, expr: Expr) -> Result<Items<Tensor>, NoMemory> {
    let output = tensor(alloc, b"o", int32(), Role::Output, Some(expr));
    let input = tensor(alloc, b"a", ty, Role::Input, None);
    let mut tensors = Items::new(alloc);
    tensors.push(input?)?;
    tensors.push(output?)?;
    Ok(tensors)
}

fn program(alloc: Global, width: u64, ty: Ty, expr: Expr) -> Result<Program, MakeRefusal> {
    let tensors = tensors(alloc, ty, expr);
    let kernel = Items::from_slice(alloc, b"k");
    let extents = Items::from_slice(alloc, &[width]);
    Program::make(
        alloc,
        Parts {
            kernel: kernel?,
            burst: 64,
            unroll: 1,
            iterate: 1,
            border: Border::Ignore,
            params: Items::new(alloc),
            extents: extents?,
            tensors: tensors?,
        },
    )
}

// Whether the program has no param.
fn is_bare(program: &Program) -> bool
    ensures { IsTrue result → place_types (plain program.now).params ≡ [] }
{
    program.parts().params.is_empty()
}

/// The code of a formula over an array of this type and of rows of so many cells, if it is one.
pub fn code_of(alloc: Global, width: u64, ty: Ty, expr: Expr) -> Result<Option<Code>, NoMemory> {
    match program(alloc, width, ty, expr) {
        Ok(program) => {
            if is_bare(&program) {
                compile(alloc, &program, 1, &[])
            } else {
                Ok(None)
            }
        }
        Err(MakeRefusal::Invalid) => Ok(None),
        Err(MakeRefusal::Memory) => Err(NoMemory),
    }
}
