ghost use Rattle.std.specs.Prelude.{◌≡◌, ◌++◌, codes, IfOk, OnOk};
ghost use Rattle.soda_ir.specs.Program.{plain};
ghost use Rattle.time_stages.specs.Staged.{staged, staged_reads, staged_widths};
ghost use Rattle.plan_job.specs.Plan.{IsPlanText};

use crate::NoMemory;
use delay_net::Net;
use design_lines::add_plan_lines;
use flow_solve::solve;
use soda_ir::Program;
use std::alloc::Global;
use time_stages::{Staged, net_of, stage};

// The line of the kernel.
fn kernel_line(alloc: Global, program: &Program) -> Result<Vec<u8>, NoMemory>
    ensures { IfOk result (λ text. text.items ≡ (codes "kernel " ++ program.now.kernel) ++ codes "\n") }
{
    let mut text = Vec::from_slice(alloc, b"kernel ")?;
    text.extend_from_slice(program.parts().kernel.as_slice())?;
    text.push(b'\n')?;
    Ok(text)
}

// The text of the plan, by the program's staging and its net.
fn text_of(
    alloc: Global,
    program: &Program,
    staging: &Staged,
    net: &Net,
) -> Result<Vec<u8>, NoMemory>
    requires staging { staging.now ≡ staged (plain program.now) }
    requires weights { net.now.weights ≡ staged_widths (plain program.now) }
    requires reads { net.now.reads ≡ staged_reads (plain program.now) }
    ensures { IfOk result (λ text. IsPlanText (plain program.now) text.items) }
{
    let mut text = kernel_line(alloc, program)?;
    let (delays, flow) = solve(alloc, net)?;
    add_plan_lines(alloc, &mut text, program, staging, net, &delays, &flow)?;
    Ok(text)
}

// The text of the plan, by the program's staging.
fn text_from(alloc: Global, program: &Program, staging: &Staged) -> Result<Vec<u8>, NoMemory>
    requires { staging.now ≡ staged (plain program.now) }
    ensures { IfOk result (λ text. IsPlanText (plain program.now) text.items) }
{
    let net = net_of(alloc, program, staging)?;
    let text = text_of(alloc, program, staging, &net);
    drop(net);
    text
}

/// The lines that say how much storage a program needs at the least, each ended by a line feed: the name of its kernel,
/// then each staged tensor with its delay and its storage in cells, each of their reads with its age in cells and its
/// hold and need in bits, and the total storage in bits. The delays are the pointwise least of those of least storage;
/// holds and needs are a certificate that shows that no delays need less. The only error is that memory ran out.
pub fn plan_text(alloc: Global, program: &Program) -> Result<Vec<u8>, NoMemory>
    ensures { IfOk result (λ text. IsPlanText (plain program.now) text.items) }
{
    let staging = stage(alloc, program)?;
    let text = text_from(alloc, program, &staging);
    drop(staging);
    text
}
