ghost use Rattle.std.specs.Prelude.{◌≡◌, ◌+◌, ◌<◌, ◌≤◌, ◌++◌, ◌∷◌, [], All, IfOk, OnOk, length, replicate, slice_index_or};
ghost use Rattle.net_shape.specs.Lists.{joined};
ghost use Rattle.net_shape.specs.Plans.{ages_of, taps_at};
ghost use Rattle.net_shape.specs.Queues.{read_at};
ghost use Rattle.plan_net.specs.machine.Tables.{AreReads, by_lane};
ghost use Rattle.reuse_chain.specs.Lanes.{taps_of};
ghost use Rattle.reuse_chain.specs.Limits.{age_end, most_lanes};

use crate::NoMemory;
use crate::layout::Layout;
use reuse_chain::taps;
use sqlite_items::Items;
use std::alloc::Global;

/// As many empty lists.
pub(crate) fn empty_lists(alloc: Global, count: usize) -> Result<Vec<Items<u32>>, NoMemory>
    ensures { IfOk result (λ lists. lists.items ≡ replicate count []) }
{
    let mut lists = Vec::new(alloc);
    for _list in 0..count {
        lists.push(Items::new(alloc))?;
    }
    Ok(lists)
}

// Adds the number of a read to those of what it reads.
fn add_reading(readings: &mut Vec<Items<u32>>, layout: &Layout, number: u32) -> Result<(), NoMemory>
    requires known { number < length layout.now.reads }
    requires those { AreReads layout.now number readings.old.items }
    ensures { OnOk result (AreReads layout.now (number + 1) readings.new.items) }
{
    let of = layout.reads()[number as usize].of;
    readings[of as usize].push(number)
}

/// The numbers of the reads of each tensor.
pub(crate) fn readings_of(alloc: Global, layout: &Layout) -> Result<Vec<Items<u32>>, NoMemory>
    ensures { IfOk result (λ readings. AreReads layout.now (length layout.now.reads) readings.items) }
{
    let mut readings = empty_lists(alloc, layout.kinds().len())?;
    for number in 0..layout.reads().len() as u32 {
        add_reading(&mut readings, layout, number)?;
    }
    Ok(readings)
}

// The ages of the reads of a tensor, whose numbers are these.
fn ages_at(
    alloc: Global,
    layout: &Layout,
    readings: &[Items<u32>],
    tensor: u32,
) -> Result<Vec<u64>, NoMemory>
    requires known { tensor < length layout.now.kinds }
    requires those { AreReads layout.now (length layout.now.reads) readings.now }
    ensures value { IfOk result (λ ages. ages.items ≡ ages_of layout.now tensor) }
    ensures short { IfOk result (λ ages. All (λ age. age < age_end) ages.items) }
{
    let numbers = readings[tensor as usize].as_slice();
    let all = layout.ages();
    let mut ages = Vec::new(alloc);
    for number in numbers {
        ages.push(all[*number as usize])?;
    }
    Ok(ages)
}

// Adds the taps of each lane of a tensor whose reads have these ages.
fn add_taps(
    alloc: Global,
    ages: &[u64],
    unroll: u32,
    lanes: &mut Vec<Items<u64>>,
) -> Result<(), NoMemory>
    requires few { unroll ≤ most_lanes }
    requires short { All (λ age. age < age_end) ages.now }
    ensures { OnOk result (lanes.new.items
        ≡ lanes.old.items ++ joined (λ lane. taps_of ages.now lane unroll ∷ []) unroll) }
{
    for lane in 0..unroll {
        lanes.push(Items::from_vec(taps(alloc, ages, lane, unroll)?))?;
    }
    Ok(())
}

/// The taps of each lane, by tensor and lane.
pub(crate) fn taps_of(
    alloc: Global,
    layout: &Layout,
    readings: &[Items<u32>],
) -> Result<Vec<Items<u64>>, NoMemory>
    requires { AreReads layout.now (length layout.now.reads) readings.now }
    ensures { IfOk result (λ lanes. lanes.items ≡ by_lane layout.now (taps_at layout.now)) }
{
    let mut lanes = Vec::new(alloc);
    for tensor in 0..layout.kinds().len() as u32 {
        let ages = ages_at(alloc, layout, readings, tensor)?;
        add_taps(alloc, &ages, layout.unroll(), &mut lanes)?;
    }
    Ok(lanes)
}
