ghost use Rattle.std.specs.Prelude.{◌≡◌, ℕ, length, Some, IfOk};
ghost use Rattle.delay_net.specs.Certificate.{Fits};
ghost use Rattle.delay_net.specs.Windows.{HasShortDelays, IsAssignment, MeetsWindows};
ghost use Rattle.soda_ir.specs.declared.limit.LimitKind.{LimitKind};
ghost use Rattle.soda_ir.specs.Program.{plain};
ghost use Rattle.time_stages.specs.Staged.{staged, staged_reads, staged_widths};
ghost use Rattle.net_build.specs.Limits.{limit_passed};
ghost use Rattle.net_build.specs.Planned.{net_under, plan_of};
ghost use Rattle.module_text.specs.Designs.{AreSmall, IsDesign, plain_design};

use delay_net::Flow;
use net_build::{BuildRefusal, build};
use net_ir::Network;
use soda_ir::Program;
use std::alloc::Global;
use std::marker::Model;
use time_stages::Staged;

/// A design: a program, its staging, delays of its staged tensors that meet the windows, a certificate that fits them,
/// and the network of these. It passes no limit of networks.
#[derive(Drop)]
pub struct Design {
    program: Program,
    staged: Staged,
    delays: Vec<u64>,
    flow: Flow,
    network: Network,
}

impl Model for Design {
    ghost use Rattle.soda_ir.specs.contracts.expr.Expr as e;
    ghost use Rattle.std.specs.Coded.{codes};
    ghost use Rattle.module_text.specs.Designs.{Held};

    ghost Value = { Held };

    ghost coded = { Prim.hlevel (codes, e.the_row.coded) };

    ghost use Rattle.module_text.specs.machine.Kept.{IsKept};

    ghost view = { λ d.
        record { program = d.program; delays = d.delays.items; hold = d.flow.hold; need = d.flow.need } };

    ghost invariant = { λ d. IsKept
        (record { program = d.program; delays = d.delays.items; hold = d.flow.hold; need = d.flow.need })
        d.staged d.network };
}

impl Design {
    /// The program.
    pub fn program(&self) -> &Program
        ensures value { result.now ≡ self.now.program }
        ensures is { IsDesign (plain_design self.now) }
    {
        &self.program
    }

    /// The staging of the program.
    pub fn staged(&self) -> &Staged
        ensures { result.now ≡ staged (plain self.now.program) }
    {
        &self.staged
    }

    /// The delay of each staged tensor, in cells.
    pub fn delays(&self) -> &[u64]
        ensures value { result.now ≡ self.now.delays }
        ensures is { IsDesign (plain_design self.now) }
    {
        &self.delays
    }

    /// The certificate: a hold and a need for each read of the staging.
    pub fn flow(&self) -> &Flow
        ensures hold { result.now.hold ≡ self.now.hold }
        ensures need { result.now.need ≡ self.now.need }
        ensures is { IsDesign (plain_design self.now) }
    {
        &self.flow
    }

    /// The network.
    pub fn network(&self) -> &Network
        ensures { result.now ≡ net_under (plain self.now.program) self.now.delays }
    {
        &self.network
    }
}

// Numbers of 32 bits are below 2 ^ 32.
fn are_small(numbers: &[u32])
    ensures { AreSmall numbers.now }
{
    let _ = numbers;
}

// The amounts of a certificate are such numbers.
fn amounts_are_small(flow: &Flow)
    ensures holds { AreSmall flow.now.hold }
    ensures needs { AreSmall flow.now.need }
{
    are_small(flow.hold.as_slice());
    are_small(flow.need.as_slice());
}

/// The design of a program, with its staging.
pub(crate) fn with_staging(
    alloc: Global,
    program: Program,
    staging: Staged,
    delays: Vec<u64>,
    flow: Flow,
) -> Result<Design, BuildRefusal>
    requires staging { staging ≡ staged (plain program) }
    requires assignment { IsAssignment (staged_widths (plain program)) delays.items }
    requires short { HasShortDelays delays.items }
    requires meets { MeetsWindows (staged_reads (plain program)) delays.items }
    requires holds { length flow.hold ≡ length (staged_reads (plain program)) }
    requires needs { length flow.need ≡ length (staged_reads (plain program)) }
    requires fits { Fits (staged_widths (plain program)) (staged_reads (plain program)) delays.items flow.hold
        flow.need }
    ensures made { IfOk result (λ d. d
        ≡ record { program = program; delays = delays.items; hold = flow.hold; need = flow.need }) }
    ensures limit { (kind : LimitKind) (n : ℕ) → result ≡ Err (BuildRefusal.Limit kind n)
        → limit_passed (plan_of (plain program) delays.items) ≡ Some (kind, n) }
{
    amounts_are_small(&flow);
    let _valid = program.parts();
    match build(alloc, &program, &staging, &delays) {
        Ok(network) => Ok(Design {
            program,
            staged: staging,
            delays,
            flow,
            network,
        }),
        Err(refusal) => {
            drop(program);
            drop(staging);
            Err(refusal)
        }
    }
}
