ghost use Rattle.std.specs.Prelude.{◌≡◌, ◌+◌, ◌/◌, ◌<◌, ◌++◌, ◌∷◌, [], All, Contains, IfOk, IfSome, List, OnOk, length, slice_index, ℕ};
ghost use Rattle.std.specs.List.Sorted.{IsStrictlyIncreasing};
ghost use Rattle.net_shape.specs.Lists.{joined};
ghost use Rattle.net_shape.specs.Plans.{age_of, taps_at};
ghost use Rattle.net_shape.specs.Queues.{read_at};
ghost use Rattle.plan_net.specs.machine.Tables.{AreReads, by_lane, by_tap, reads_among, served_at};

use crate::NoMemory;
use crate::layout::Layout;
use crate::order::lane_place;
use crate::tables::empty_lists;
use sqlite_items::Items;
use std::alloc::Global;

// The taps of a lane, among those of all.
fn taps_here<'a>(layout: &Layout, taps: &'a [Items<u64>], tensor: u32, lane: u32) -> &'a [u64]
    requires taps { taps.now ≡ by_lane layout.now (taps_at layout.now) }
    requires tensor { tensor < length layout.now.kinds }
    requires lane { lane < layout.now.unroll }
    ensures value { result.now ≡ taps_at layout.now tensor lane }
    ensures rising { IsStrictlyIncreasing result.now }
{
    taps[lane_place(tensor, lane, layout.unroll())].as_slice()
}

// The tap that a read belongs to at a lane.
fn tap_of(layout: &Layout, lane: u32, number: u32) -> u64
    requires { number < length layout.now.reads }
    ensures { result ≡ (lane + age_of layout.now (read_at layout.now number)) / layout.now.unroll }
{
    let sum = u64::from(lane) + layout.ages()[number as usize];
    sum / u64::from(layout.unroll())
}

// The place of a tap among these, if it is one of them.
fn place_of(taps: &[u64], tap: u64) -> Option<usize>
    requires { IsStrictlyIncreasing taps.now }
    ensures within { IfSome result (λ place. place < length taps.now) }
    ensures is { IfSome result (λ place. slice_index taps.now place ≡ tap) }
    ensures none { result ≡ None → Contains taps.now tap → ⊥ }
{
    match taps.binary_search(&tap) {
        Ok(place) => Some(place),
        Err(_place) => None,
    }
}

// Adds the number of a read to those of the tap that it belongs to at a lane, if that is one of these taps.
fn add_served(
    layout: &Layout,
    lane: u32,
    taps: &[u64],
    number: u32,
    served: &mut Vec<Items<u32>>,
) -> Result<(), NoMemory>
    requires number { number < length layout.now.reads }
    requires rising { IsStrictlyIncreasing taps.now }
    requires each { length served.old.items ≡ length taps.now }
    ensures { (ns : List ℕ) → served.old.items ≡ by_tap layout.now lane taps.now ns
        → OnOk result (served.new.items ≡ by_tap layout.now lane taps.now (ns ++ number ∷ [])) }
{
    match place_of(taps, tap_of(layout, lane, number)) {
        Some(place) => served[place].push(number),
        None => Ok(()),
    }
}

// At each of these taps of a lane, those of these reads that belong to it.
fn serve_lane(
    alloc: Global,
    layout: &Layout,
    lane: u32,
    taps: &[u64],
    numbers: &[u32],
) -> Result<Items<Items<u32>>, NoMemory>
    requires rising { IsStrictlyIncreasing taps.now }
    requires known { All (λ n. n < length layout.now.reads) numbers.now }
    ensures { IfOk result (λ served. served ≡ by_tap layout.now lane taps.now numbers.now) }
{
    let mut served = empty_lists(alloc, taps.len())?;
    for number in numbers {
        add_served(layout, lane, taps, *number, &mut served)?;
    }
    Ok(Items::from_vec(served))
}

// Adds, for each lane of a tensor whose reads these are, at each tap the reads that belong to it.
fn serve_lanes(
    alloc: Global,
    layout: &Layout,
    taps: &[Items<u64>],
    tensor: u32,
    numbers: &[u32],
    lanes: &mut Vec<Items<Items<u32>>>,
) -> Result<(), NoMemory>
    requires taps { taps.now ≡ by_lane layout.now (taps_at layout.now) }
    requires tensor { tensor < length layout.now.kinds }
    requires numbers { numbers.now ≡ reads_among layout.now tensor (length layout.now.reads) }
    ensures { OnOk result (lanes.new.items
        ≡ lanes.old.items ++ joined (λ lane. served_at layout.now tensor lane ∷ []) layout.now.unroll) }
{
    for lane in 0..layout.unroll() {
        let here = taps_here(layout, taps, tensor, lane);
        let served = serve_lane(alloc, layout, lane, here, numbers)?;
        lanes.push(served)?;
    }
    Ok(())
}

/// For each lane, by tensor and lane, at each tap the reads that belong to it.
pub(crate) fn served_of(
    alloc: Global,
    layout: &Layout,
    readings: &[Items<u32>],
    taps: &[Items<u64>],
) -> Result<Vec<Items<Items<u32>>>, NoMemory>
    requires readings { AreReads layout.now (length layout.now.reads) readings.now }
    requires taps { taps.now ≡ by_lane layout.now (taps_at layout.now) }
    ensures { IfOk result (λ lanes. lanes.items ≡ by_lane layout.now (served_at layout.now)) }
{
    let mut lanes = Vec::new(alloc);
    for tensor in 0..layout.kinds().len() as u32 {
        let numbers = readings[tensor as usize].as_slice();
        serve_lanes(alloc, layout, taps, tensor, numbers, &mut lanes)?;
    }
    Ok(lanes)
}
