ghost use Rattle.std.specs.Prelude.{◌≡◌, ◌<◌, ◌≤◌, IfOk, length, map, pos};
ghost use Rattle.delay_net.specs.Sums.{sum_below};
ghost use Rattle.delay_net.specs.Windows.{
  HasShortDelays,
  IsAssignment,
  MeetsWindows,
  age,
  at_least_0,
  storage_of,
};
ghost use Rattle.reuse_chain.specs.Lanes.{greatest};
ghost use Rattle.soda_ir.specs.Program.{plain};
ghost use Rattle.time_stages.specs.Staged.{staged, staged_reads, staged_widths};
ghost use Rattle.net_build.specs.Limits.{most_delay};
ghost use Rattle.net_build.specs.Planned.{plan_of};

use crate::NoMemory;
use crate::kinds::kinds_of;
use delay_net::{Net, age_of, storage_of};
use plan_net::Layout;
use soda_ir::Program;
use std::alloc::Global;
use time_stages::Staged;

// The ages of the reads of a net in cells, in their order.
fn ages_of(alloc: Global, net: &Net, delays: &[u64]) -> Result<Vec<u64>, NoMemory>
    requires assignment { IsAssignment net.now.weights delays.now }
    requires short { HasShortDelays delays.now }
    requires meets { MeetsWindows net.now.reads delays.now }
    ensures { IfOk result (λ ages. ages.items ≡ map (λ read. at_least_0 (age delays.now read)) net.now.reads) }
{
    let reads = net.reads();
    let mut ages = Vec::with_capacity(alloc, reads.len())?;
    for read in reads {
        ages.push(age_of(*read, delays))?;
    }
    Ok(ages)
}

/// The storage of all tensors of a net together, in cells.
pub(crate) fn cells_held(net: &Net, delays: &[u64]) -> u64
    requires assignment { IsAssignment net.now.weights delays.now }
    requires short { HasShortDelays delays.now }
    requires meets { MeetsWindows net.now.reads delays.now }
    requires kept { greatest delays.now ≤ most_delay }
    ensures { result ≡ sum_below (length net.now.weights) (storage_of net.now.reads delays.now) }
{
    let mut cells = 0;
    for tensor in 0..net.weights().len() as u32 {
        cells += storage_of(net, delays, tensor);
    }
    cells
}

/// The layout of the plan of a program, whose staging and net these are.
pub(crate) fn layout_of(
    alloc: Global,
    program: &Program,
    staging: &Staged,
    net: &Net,
    delays: &[u64],
) -> Result<Layout, NoMemory>
    requires staging { staging.now ≡ staged (plain program.now) }
    requires weights { net.now.weights ≡ staged_widths (plain program.now) }
    requires reads { net.now.reads ≡ staged_reads (plain program.now) }
    requires assignment { IsAssignment net.now.weights delays.now }
    requires short { HasShortDelays delays.now }
    requires meets { MeetsWindows net.now.reads delays.now }
    requires kept { greatest delays.now ≤ most_delay }
    ensures { IfOk result (λ layout. layout ≡ plan_of (plain program.now) delays.now) }
{
    let parts = program.parts();
    let kinds = kinds_of(alloc, parts, staging.tensors.as_slice())?;
    let reads = Vec::from_slice(alloc, net.reads())?;
    let ages = ages_of(alloc, net, delays)?;
    let delays = Vec::from_slice(alloc, delays)?;
    Ok(Layout::new(parts.unroll as u32, kinds, reads, delays, ages))
}
