ghost use Rattle.std.specs.Prelude.{◌≡◌, IfOk, length};
ghost use Rattle.net_shape.specs.Modules.{modules_of};
ghost use Rattle.plan_net.specs.machine.Tables.{IsChart};

use crate::NoMemory;
use crate::layout::Layout;
use crate::order::{push_all_far, push_blocks};
use crate::serving::served_of;
use crate::tables::{readings_of, taps_of};
use net_ir::Module;
use sqlite_items::Items;
use std::alloc::Global;

/// The modules of a plan in firing order, and what its queues are made by.
#[derive(Drop)]
pub struct Chart {
    pub(crate) modules: Vec<Module>,
    pub(crate) taps: Vec<Items<u64>>,
    pub(crate) served: Vec<Items<Items<u32>>>,
    pub(crate) tops: Vec<usize>,
    pub(crate) begins: Vec<usize>,
    pub(crate) nears: Vec<usize>,
    pub(crate) ends: Vec<usize>,
}

impl Chart {
    /// How many modules there are.
    pub fn modules(&self) -> usize
        ensures { result ≡ length self.now.modules.items }
    {
        self.modules.len()
    }
}

/// The modules of a plan, in firing order.
pub fn arrange(alloc: Global, layout: &Layout) -> Result<Chart, NoMemory>
    ensures { IfOk result (λ chart. IsChart layout.now chart) }
{
    let readings = readings_of(alloc, layout)?;
    let taps = taps_of(alloc, layout, &readings)?;
    let served = served_of(alloc, layout, &readings, &taps)?;
    let mut modules = Vec::new(alloc);
    let mut tops = Vec::new(alloc);
    push_all_far(layout, &taps, &mut modules, &mut tops)?;
    let mut begins = Vec::new(alloc);
    let mut nears = Vec::new(alloc);
    let mut ends = Vec::new(alloc);
    push_blocks(
        layout,
        &taps,
        &mut modules,
        &mut begins,
        &mut nears,
        &mut ends,
    )?;
    Ok(Chart {
        modules,
        taps,
        served,
        tops,
        begins,
        nears,
        ends,
    })
}
