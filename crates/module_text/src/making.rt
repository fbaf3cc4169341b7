ghost use Rattle.std.specs.Prelude.{◌≡◌, ℕ, length, Some, IfOk};
ghost use Rattle.delay_net.specs.Certificate.{Fits};
ghost use Rattle.delay_net.specs.Windows.{HasShortDelays, IsAssignment, MeetsWindows};
ghost use Rattle.soda_ir.specs.declared.limit.LimitKind.{LimitKind};
ghost use Rattle.soda_ir.specs.Program.{plain};
ghost use Rattle.time_stages.specs.Staged.{staged_reads, staged_widths};
ghost use Rattle.net_build.specs.Limits.{limit_passed};
ghost use Rattle.net_build.specs.Planned.{plan_of};
ghost use Rattle.module_text.specs.Designs.{IsDesign, plain_design};

use crate::Design;
use crate::held::with_staging;
use delay_net::Flow;
use net_build::BuildRefusal;
use soda_ir::Program;
use std::alloc::Global;
use time_stages::stage;

/// The design of a program under these delays, with this certificate. There is one delay for each staged tensor, below
/// 2^62; they meet the windows, and the certificate fits them. `Limit` comes exactly where a limit of networks is
/// passed, and is the first, with the number that passes it.
pub fn design(
    alloc: Global,
    program: Program,
    delays: Vec<u64>,
    flow: Flow,
) -> Result<Design, BuildRefusal>
    requires assignment { IsAssignment (staged_widths (plain program)) delays.items }
    requires short { HasShortDelays delays.items }
    requires meets { MeetsWindows (staged_reads (plain program)) delays.items }
    requires holds { length flow.hold ≡ length (staged_reads (plain program)) }
    requires needs { length flow.need ≡ length (staged_reads (plain program)) }
    requires fits { Fits (staged_widths (plain program)) (staged_reads (plain program)) delays.items flow.hold
        flow.need }
    ensures made { IfOk result (λ d. d
        ≡ record { program = program; delays = delays.items; hold = flow.hold; need = flow.need }) }
    ensures is { IfOk result (λ d. IsDesign (plain_design d)) }
    ensures limit { (kind : LimitKind) (n : ℕ) → result ≡ Err (BuildRefusal.Limit kind n)
        → limit_passed (plan_of (plain program) delays.items) ≡ Some (kind, n) }
{
    match stage(alloc, &program) {
        Ok(staging) => with_staging(alloc, program, staging, delays, flow),
        Err(_) => {
            drop(program);
            Err(BuildRefusal::Memory)
        }
    }
}
