ghost use Rattle.std.specs.Prelude.{◌≡◌, IfOk};
ghost use Rattle.module_text.specs.Designs.{IsDesign, plain_design};
ghost use Rattle.soda_ir.specs.Program.{plain};

use crate::{Design, NoMemory, making};
use delay_net::{Amounts, Flow};
use soda_ir::Program;
use soda_parse::{parse, print};
use soda_words::MOST_CANONICAL;
use std::alloc::{AllocError, Global};

// An equal certificate.
fn copy_flow(alloc: Global, flow: &Flow) -> Result<Flow, NoMemory>
    ensures hold { IfOk result (λ copy. copy.hold ≡ flow.now.hold) }
    ensures need { IfOk result (λ copy. copy.need ≡ flow.now.need) }
{
    let hold = flow.hold.as_slice().to_vec(alloc)?;
    let need = flow.need.as_slice().to_vec(alloc)?;
    Ok(Flow {
        hold: Amounts::from_vec(hold),
        need: Amounts::from_vec(need),
    })
}

// An equal program, by the canonical text, which is accepted as no other.
fn copy_program(alloc: Global, program: &Program) -> Result<Program, NoMemory>
    ensures { IfOk result (λ copy. plain copy ≡ plain program.now) }
{
    let text = print(alloc, program)?;
    match parse(alloc, &text, MOST_CANONICAL) {
        Ok(copy) => Ok(copy),
        Err(_) => Err(AllocError),
    }
}

/// An equal design. The only error is that memory ran out.
pub fn copy_design(alloc: Global, design: &Design) -> Result<Design, NoMemory>
    ensures copy { IfOk result (λ copy. plain_design copy ≡ plain_design design.now) }
    ensures is { IfOk result (λ copy. IsDesign (plain_design copy)) }
{
    let flow = copy_flow(alloc, design.flow())?;
    let delays = design.delays().to_vec(alloc)?;
    let program = copy_program(alloc, design.program())?;
    match making::design(alloc, program, delays, flow) {
        Ok(copy) => Ok(copy),
        Err(_) => Err(AllocError),
    }
}
