ghost use Rattle.std.specs.Prelude.{◌≡◌, ◌<◌, ◌≤◌, ℕ, IfOk, None, Some, length};
ghost use Rattle.delay_net.specs.Windows.{HasShortDelays, IsAssignment, MeetsWindows};
ghost use Rattle.net_shape.specs.Modules.{modules_of};
ghost use Rattle.net_shape.specs.Queues.{network_of};
ghost use Rattle.plan_net.specs.Limits.{most_modules};
ghost use Rattle.reuse_chain.specs.Lanes.{greatest};
ghost use Rattle.soda_ir.specs.declared.limit.LimitKind.{LimitKind};
ghost use Rattle.soda_ir.specs.Program.{plain};
ghost use Rattle.time_stages.specs.Staged.{staged, staged_reads, staged_widths};
ghost use Rattle.net_build.specs.Limits.{limit_passed, most_delay};
ghost use Rattle.net_build.specs.Planned.{net_under, plan_of};

use crate::delays::greatest_of;
use crate::layouts::{cells_held, layout_of};
use crate::{BuildRefusal, MOST_DELAY, MOST_MODULES, MOST_REUSE};
use net_ir::Network;
use plan_net::{Layout, arrange, connect};
use soda_ir::{LimitKind, Program};
use std::alloc::Global;
use time_stages::{Staged, net_of};

// The network of a layout, where it has no more modules than it may.
fn network_within(alloc: Global, layout: &Layout) -> Result<Network, BuildRefusal>
    ensures network { IfOk result (λ net. net ≡ network_of layout.now) }
    ensures few { IfOk result (λ _. length (modules_of layout.now) ≤ most_modules) }
    ensures limit { (kind : LimitKind) (n : ℕ) → result ≡ Err (BuildRefusal.Limit kind n)
        → (kind ≡ LimitKind.Modules) × (n ≡ length (modules_of layout.now)) × (most_modules < n) }
{
    let chart = arrange(alloc, layout)?;
    let modules = chart.modules();
    if modules > MOST_MODULES {
        return Err(BuildRefusal::Limit(LimitKind::Modules, modules as u128));
    }
    Ok(connect(alloc, layout, &chart)?)
}

// The network of a program under delays that keep their limit.
fn network_under(
    alloc: Global,
    program: &Program,
    staging: &Staged,
    delays: &[u64],
) -> Result<Network, BuildRefusal>
    requires staging { staging.now ≡ staged (plain program.now) }
    requires assignment { IsAssignment (staged_widths (plain program.now)) delays.now }
    requires short { HasShortDelays delays.now }
    requires meets { MeetsWindows (staged_reads (plain program.now)) delays.now }
    requires kept { greatest delays.now ≤ most_delay }
    ensures network { IfOk result (λ net. net ≡ net_under (plain program.now) delays.now) }
    ensures kept { IfOk result (λ _. limit_passed (plan_of (plain program.now) delays.now) ≡ None) }
    ensures limit { (kind : LimitKind) (n : ℕ) → result ≡ Err (BuildRefusal.Limit kind n)
        → limit_passed (plan_of (plain program.now) delays.now) ≡ Some (kind, n) }
{
    let net = net_of(alloc, program, staging)?;
    let cells = cells_held(&net, delays);
    if cells > MOST_REUSE {
        return Err(BuildRefusal::Limit(LimitKind::Reuse, cells as u128));
    }
    let layout = layout_of(alloc, program, staging, &net, delays)?;
    network_within(alloc, &layout)
}

/// The network of a program under delays of its staged tensors, one for each, which meet the windows. The staging is
/// that of the program, and each delay is below 2^62. `Limit` comes, want of memory aside, exactly where a limit is
/// passed, with the first of these three and with the number that passes it: the greatest delay, the storage of all
/// tensors together in cells, the number of modules.
pub fn build(
    alloc: Global,
    program: &Program,
    staging: &Staged,
    delays: &[u64],
) -> Result<Network, BuildRefusal>
    requires staging { staging.now ≡ staged (plain program.now) }
    requires assignment { IsAssignment (staged_widths (plain program.now)) delays.now }
    requires short { HasShortDelays delays.now }
    requires meets { MeetsWindows (staged_reads (plain program.now)) delays.now }
    ensures network { IfOk result (λ net. net ≡ net_under (plain program.now) delays.now) }
    ensures kept { IfOk result (λ _. limit_passed (plan_of (plain program.now) delays.now) ≡ None) }
    ensures limit { (kind : LimitKind) (n : ℕ) → result ≡ Err (BuildRefusal.Limit kind n)
        → limit_passed (plan_of (plain program.now) delays.now) ≡ Some (kind, n) }
{
    let greatest = greatest_of(delays);
    if greatest > MOST_DELAY {
        return Err(BuildRefusal::Limit(LimitKind::Delay, greatest as u128));
    }
    network_under(alloc, program, staging, delays)
}
