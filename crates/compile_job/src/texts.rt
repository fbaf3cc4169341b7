ghost use Rattle.std.specs.Prelude.{◌≡◌, ℕ, Some, None, IfOk, length, string_bytes};
ghost use Rattle.delay_net.specs.Certificate.{Fits};
ghost use Rattle.delay_net.specs.Windows.{HasShortDelays};
ghost use Rattle.flow_solve.specs.LeastPlan.{IsLeastPlan};
ghost use Rattle.soda_ir.specs.Program.{plain};
ghost use Rattle.soda_ir.specs.declared.limit.LimitKind.{LimitKind as PlainKind};
ghost use Rattle.time_stages.specs.Staged.{staged_reads, staged_widths};
ghost use Rattle.plan_job.specs.Plan.{storage_under};
ghost use Rattle.module_text.specs.Designs.{plain_design};
ghost use Rattle.module_text.specs.Texts.{IsDesignText, version_1};
ghost use Rattle.compile_job.specs.Modules.{IsModuleText, IsSizeText, PassesLimit, size_lines, size_of};
ghost use Rattle.compile_job.specs.machine.Designs.{IsLeastDesign};

use crate::NoMemory;
use delay_net::{Flow, storage};
use flow_solve::solve;
use module_text::{Design, design, print_design};
use net_build::BuildRefusal;
use soda_ir::Program;
use std::alloc::Global;
use time_stages::{net_of, stage};

/// What is made of a program.
#[derive(Drop)]
pub struct Compiled {
    /// The text of its design.
    pub text: Vec<u8>,
    /// The lines of its size: how many modules and queues its network has, and its storage in bits.
    pub size: String,
}

// The least plan of a program, with a certificate that fits it.
fn least_plan(alloc: Global, program: &Program) -> Result<(Vec<u64>, Flow), NoMemory>
    ensures plan { IfOk result (λ found. IsLeastPlan (staged_widths (plain program.now))
        (staged_reads (plain program.now)) found.0.items) }
    ensures short { IfOk result (λ found. HasShortDelays found.0.items) }
    ensures fits { IfOk result (λ found. Fits (staged_widths (plain program.now)) (staged_reads (plain program.now))
        found.0.items found.1.hold found.1.need) }
    ensures holds { IfOk result (λ found. length found.1.hold ≡ length (staged_reads (plain program.now))) }
    ensures needs { IfOk result (λ found. length found.1.need ≡ length (staged_reads (plain program.now))) }
{
    let staging = stage(alloc, program)?;
    let net = net_of(alloc, program, &staging)?;
    drop(staging);
    let found = solve(alloc, &net);
    drop(net);
    found
}

// The design of a program under its least plan, or the first limit of networks that it passes.
fn least_design(alloc: Global, program: Program) -> Result<Design, BuildRefusal>
    ensures design { IfOk result (λ d. IsLeastDesign (plain program) (plain_design d)) }
    ensures limit { (kind : PlainKind) (n : ℕ) → result ≡ Err (BuildRefusal.Limit kind n)
        → PassesLimit (plain program) (Some (kind, n)) }
{
    match least_plan(alloc, &program) {
        Ok((delays, flow)) => design(alloc, program, delays, flow),
        Err(_) => {
            drop(program);
            Err(BuildRefusal::Memory)
        }
    }
}

// The total storage of a design, in bits.
fn storage_of(alloc: Global, design: &Design) -> Result<u128, NoMemory>
    ensures { IfOk result (λ bits. bits ≡ storage_under (plain design.now.program) design.now.delays) }
{
    let net = net_of(alloc, design.program(), design.staged())?;
    let bits = storage(&net, design.delays());
    drop(net);
    Ok(bits)
}

// So many modules, queues and bits of storage, a line each.
fn size_of(alloc: Global, modules: usize, queues: usize, bits: u128) -> Result<String, NoMemory>
    ensures { IfOk result (λ text. string_bytes text ≡ size_of modules queues bits) }
{
    format!(in alloc; "modules {modules}\nqueues {queues}\nstorage {bits}\n")
}

// The lines of the size of a design.
fn size_text(alloc: Global, design: &Design) -> Result<String, NoMemory>
    ensures { IfOk result (λ text. string_bytes text ≡ size_lines (plain design.now.program) design.now.delays) }
{
    let modules = design.network().modules().len();
    let queues = design.network().queues().len();
    let bits = storage_of(alloc, design)?;
    size_of(alloc, modules, queues, bits)
}

// What is made of a design.
fn texts_of(alloc: Global, design: &Design) -> Result<Compiled, NoMemory>
    ensures text { IfOk result (λ made. IsDesignText version_1 made.text.items (plain_design design.now)) }
    ensures size { IfOk result (λ made. string_bytes made.size
        ≡ size_lines (plain design.now.program) design.now.delays) }
{
    let size = size_text(alloc, design)?;
    match print_design(alloc, design) {
        Ok(text) => Ok(Compiled { text, size }),
        Err(error) => {
            drop(size);
            Err(error)
        }
    }
}

/// The text of the design of a program under its least plan, with a fitting certificate, and the lines of its size.
/// `Limit` comes exactly where the network under that plan passes a limit of networks, and is the first that it passes,
/// with the number that passes it.
pub fn compile_program(alloc: Global, program: Program) -> Result<Compiled, BuildRefusal>
    ensures text { IfOk result (λ made. IsModuleText (plain program) made.text.items) }
    ensures size { IfOk result (λ made. IsSizeText (plain program) (string_bytes made.size)) }
    ensures within { IfOk result (λ made. PassesLimit (plain program) None) }
    ensures limit { (kind : PlainKind) (n : ℕ) → result ≡ Err (BuildRefusal.Limit kind n)
        → PassesLimit (plain program) (Some (kind, n)) }
{
    match least_design(alloc, program) {
        Ok(design) => {
            let made = texts_of(alloc, &design);
            drop(design);
            match made {
                Ok(made) => Ok(made),
                Err(_) => Err(BuildRefusal::Memory),
            }
        }
        Err(refusal) => Err(refusal),
    }
}
