ghost use Rattle.std.specs.Prelude.{◌≡◌, ◌≢◌, ◌+◌, ◌*◌, ◌<◌, ◌≤◌, ◌^◌, ◌++◌, ◌∷◌, [], Contains, IfOk, OnOk, drop, filter, flat_map, length, reverse, slice_index, slice_index_or};
ghost use Rattle.std.specs.List.Sorted.{IsStrictlyIncreasing};
ghost use Rattle.net_ir.specs.declared.network.Module.TheVariants.{Source, Forward, Compute, Sink};
ghost use Rattle.net_shape.specs.Modules.{IsThere, gap_of, modules_of, number_of};
ghost use Rattle.net_shape.specs.Plans.{IsPlan, age_of, taps_at};
ghost use Rattle.net_shape.specs.Queues.{network_of, queues_from, put_queue, read_at, reader_of, served, serving, to_sink};
ghost use Rattle.net_shape.specs.Lists.{joined};
ghost use Rattle.plan_net.specs.Limits.{most_modules};
ghost use Rattle.plan_net.specs.machine.Tables.{IsChart, is_at, link_from, reads_among};

use crate::NoMemory;
use crate::charts::Chart;
use crate::ends::{push_held, put_queue};
use crate::layout::Layout;
use crate::order::{has_sink, lane_place};
use net_ir::{Module, Network, Queue};
use net_shape::networks_fit;
use std::alloc::Global;

// The taps of a lane.
fn lane_taps<'a>(layout: &Layout, chart: &'a Chart, tensor: u32, lane: u32) -> &'a [u64]
    requires chart { IsChart layout.now chart.now }
    requires tensor { tensor < length layout.now.kinds }
    requires lane { lane < layout.now.unroll }
    ensures value { result.now ≡ taps_at layout.now tensor lane }
    ensures rising { IsStrictlyIncreasing result.now }
{
    chart.taps[lane_place(tensor, lane, layout.unroll())].as_slice()
}

// The place of a tap among those of its lane.
fn tap_place(taps: &[u64], tap: u64) -> usize
    requires rising { IsStrictlyIncreasing taps.now }
    requires there { Contains taps.now tap }
    ensures within { result < length taps.now }
    ensures is { slice_index taps.now result ≡ tap }
{
    match taps.binary_search(&tap) {
        Ok(place) => place,
        Err(_place) => 0,
    }
}

// The number of the forwarding module at a tap of a lane, by the tap's place there.
fn forward_number(layout: &Layout, chart: &Chart, tensor: u32, lane: u32, place: usize) -> u32
    requires chart { IsChart layout.now chart.now }
    requires few { length (modules_of layout.now) ≤ most_modules }
    requires tensor { tensor < length layout.now.kinds }
    requires lane { lane < layout.now.unroll }
    requires place { place < length (taps_at layout.now tensor lane) }
    ensures { result ≡ number_of layout.now (Forward tensor lane (slice_index (taps_at layout.now tensor lane) place)) }
{
    let taps = lane_taps(layout, chart, tensor, lane);
    let all = lane_place(tensor, lane, layout.unroll());
    if taps[place] == 0 {
        chart.nears[all] as u32
    } else {
        (chart.tops[all] + (taps.len() - 1 - place)) as u32
    }
}

// The gap of a tap by its place.
fn gap_at(taps: &[u64], place: usize) -> u64
    requires rising { IsStrictlyIncreasing taps.now }
    requires within { place < length taps.now }
    ensures { result ≡ gap_of taps.now (slice_index taps.now place) }
{
    if place == 0 {
        taps[0]
    } else {
        taps[place] - taps[place - 1]
    }
}

// Adds the queue to the forwarding module at the tap of a place, if there is one.
fn push_link(
    layout: &Layout,
    chart: &Chart,
    from: u32,
    lane: (u32, u32),
    place: usize,
    queues: &mut Vec<Queue>,
) -> Result<(), NoMemory>
    requires chart { IsChart layout.now chart.now }
    requires few { length (modules_of layout.now) ≤ most_modules }
    requires tensor { lane.0 < length layout.now.kinds }
    requires lane { lane.1 < layout.now.unroll }
    ensures { OnOk result (queues.new.items ≡ queues.old.items
        ++ link_from layout.now from lane.0 lane.1 (drop place (taps_at layout.now lane.0 lane.1))) }
{
    let taps = lane_taps(layout, chart, lane.0, lane.1);
    if place < taps.len() {
        let to = forward_number(layout, chart, lane.0, lane.1, place);
        let capacity = gap_at(taps, place).max(1);
        queues.push(Queue {
            from,
            to,
            port: 0,
            capacity,
            lead: 0,
        })?;
    }
    Ok(())
}

// Adds the queues of a source.
fn push_first_links(
    layout: &Layout,
    chart: &Chart,
    from: u32,
    tensor: u32,
    queues: &mut Vec<Queue>,
) -> Result<(), NoMemory>
    requires chart { IsChart layout.now chart.now }
    requires few { length (modules_of layout.now) ≤ most_modules }
    requires tensor { tensor < length layout.now.kinds }
    ensures { OnOk result (queues.new.items ≡ queues.old.items
        ++ joined (λ lane. link_from layout.now from tensor lane (taps_at layout.now tensor lane)) layout.now.unroll) }
{
    for lane in 0..layout.unroll() {
        push_link(layout, chart, from, (tensor, lane), 0, queues)?;
    }
    Ok(())
}

// Adds the queue from a computing module to its sink, if it has one.
fn push_to_sink(
    layout: &Layout,
    chart: &Chart,
    from: u32,
    tensor: u32,
    lane: u32,
    queues: &mut Vec<Queue>,
) -> Result<(), NoMemory>
    requires chart { IsChart layout.now chart.now }
    requires plan { IsPlan layout.now }
    requires few { length (modules_of layout.now) ≤ most_modules }
    requires tensor { tensor < length layout.now.kinds }
    requires lane { lane < layout.now.unroll }
    requires from { from ≡ number_of layout.now (Compute tensor lane) }
    ensures { OnOk result (queues.new.items ≡ queues.old.items ++ to_sink layout.now tensor lane) }
{
    if has_sink(layout.kinds()[tensor as usize]) {
        let to = chart.ends[tensor as usize] as u32;
        queues.push(Queue {
            from,
            to,
            port: lane,
            capacity: 1,
            lead: 0,
        })?;
    }
    Ok(())
}

// The number of the computing module that a read belongs to, where its lane and its age are in sum this.
fn reader_number(layout: &Layout, chart: &Chart, lane: u32, number: u32, sum: u64) -> u32
    requires chart { IsChart layout.now chart.now }
    requires few { length (modules_of layout.now) ≤ most_modules }
    requires number { number < length layout.now.reads }
    requires sum { sum ≡ lane + age_of layout.now (read_at layout.now number) }
    ensures { result ≡ number_of layout.now (reader_of layout.now lane number) }
{
    let reader = layout.reads()[number as usize].reader;
    (chart.begins[reader as usize] as u64 + sum % u64::from(layout.unroll())) as u32
}

// The numbers of the reads that belong to the tap of a place of a lane.
fn tap_reads<'a>(
    layout: &Layout,
    chart: &'a Chart,
    tensor: u32,
    lane: u32,
    place: usize,
) -> &'a [u32]
    requires chart { IsChart layout.now chart.now }
    requires tensor { tensor < length layout.now.kinds }
    requires lane { lane < layout.now.unroll }
    requires place { place < length (taps_at layout.now tensor lane) }
    ensures { result.now ≡ filter (is_at layout.now lane (slice_index (taps_at layout.now tensor lane) place))
        (reads_among layout.now tensor (length layout.now.reads)) }
{
    match chart.served[lane_place(tensor, lane, layout.unroll())].get(place) {
        Some(numbers) => numbers.as_slice(),
        None => &[],
    }
}

// Puts the queue to the computing module of a read of a tap in its place among others, which are held from the last to
// the first.
fn serve(
    layout: &Layout,
    chart: &Chart,
    from: u32,
    lane: (u32, u32),
    tap: u64,
    port: u32,
    held: &mut Vec<Queue>,
) -> Result<(), NoMemory>
    requires chart { IsChart layout.now chart.now }
    requires few { length (modules_of layout.now) ≤ most_modules }
    requires lane { lane.1 < layout.now.unroll }
    requires port { port < length layout.now.reads }
    requires from { from ≡ number_of layout.now (Forward lane.0 lane.1 tap) }
    ensures { OnOk result (reverse held.new.items
        ≡ put_queue (serving layout.now lane.0 lane.1 tap port) (reverse held.old.items)) }
{
    let sum = u64::from(lane.1) + layout.ages()[port as usize];
    let to = reader_number(layout, chart, lane.1, port, sum);
    let queue = Queue {
        from,
        to,
        port,
        capacity: 1,
        lead: tap,
    };
    put_queue(held, queue)
}

// The queues from a forwarding module to the computing modules that its tap serves, whose reads these are, from the
// last to the first.
fn serve_all(
    alloc: Global,
    layout: &Layout,
    chart: &Chart,
    from: u32,
    lane: (u32, u32),
    tap: u64,
    numbers: &[u32],
) -> Result<Vec<Queue>, NoMemory>
    requires chart { IsChart layout.now chart.now }
    requires few { length (modules_of layout.now) ≤ most_modules }
    requires lane { lane.1 < layout.now.unroll }
    requires numbers { numbers.now ≡ filter (is_at layout.now lane.1 tap)
        (reads_among layout.now lane.0 (length layout.now.reads)) }
    requires from { from ≡ number_of layout.now (Forward lane.0 lane.1 tap) }
    ensures { IfOk result (λ held. reverse held.items ≡ served layout.now lane.0 lane.1 tap) }
{
    let mut held = Vec::new(alloc);
    for passed in 0..numbers.len() {
        let port = numbers[numbers.len() - 1 - passed];
        serve(layout, chart, from, lane, tap, port, &mut held)?;
    }
    Ok(held)
}

// Adds the queues of a forwarding module.
fn push_forward(
    alloc: Global,
    layout: &Layout,
    chart: &Chart,
    from: u32,
    lane: (u32, u32),
    tap: u64,
    queues: &mut Vec<Queue>,
) -> Result<(), NoMemory>
    requires chart { IsChart layout.now chart.now }
    requires plan { IsPlan layout.now }
    requires few { length (modules_of layout.now) ≤ most_modules }
    requires there { IsThere layout.now (Forward lane.0 lane.1 tap) }
    requires from { from ≡ number_of layout.now (Forward lane.0 lane.1 tap) }
    ensures { OnOk result (queues.new.items ≡ queues.old.items ++ queues_from layout.now (Forward lane.0 lane.1 tap)) }
{
    let place = tap_place(lane_taps(layout, chart, lane.0, lane.1), tap);
    push_link(layout, chart, from, lane, place + 1, queues)?;
    let numbers = tap_reads(layout, chart, lane.0, lane.1, place);
    let held = serve_all(alloc, layout, chart, from, lane, tap, numbers)?;
    push_held(&held, queues)
}

// Adds the queues from the module of a number.
fn push_queues_from(
    alloc: Global,
    layout: &Layout,
    chart: &Chart,
    number: u32,
    queues: &mut Vec<Queue>,
) -> Result<(), NoMemory>
    requires chart { IsChart layout.now chart.now }
    requires plan { IsPlan layout.now }
    requires few { length (modules_of layout.now) ≤ most_modules }
    requires number { number < length (modules_of layout.now) }
    ensures { OnOk result (queues.new.items ≡ queues.old.items
        ++ queues_from layout.now (slice_index_or (modules_of layout.now) number (Sink 0))) }
{
    match chart.modules[number as usize] {
        Module::Source { tensor } => push_first_links(layout, chart, number, tensor, queues),
        Module::Forward { tensor, lane, tap } => {
            push_forward(alloc, layout, chart, number, (tensor, lane), tap, queues)
        }
        Module::Compute { tensor, lane } => {
            push_link(layout, chart, number, (tensor, lane), 0, queues)?;
            push_to_sink(layout, chart, number, tensor, lane, queues)
        }
        Module::Sink { .. } => Ok(()),
    }
}

// All queues, in queue order.
fn all_queues(alloc: Global, layout: &Layout, chart: &Chart) -> Result<Vec<Queue>, NoMemory>
    requires chart { IsChart layout.now chart.now }
    requires few { length (modules_of layout.now) ≤ most_modules }
    ensures all { IfOk result (λ queues. queues.items ≡ flat_map (queues_from layout.now) (modules_of layout.now)) }
    ensures plan { IsPlan layout.now }
    ensures small { IfOk result (λ queues. length queues.items < 2 ^ 32) }
{
    let some = layout.reads().len() * layout.unroll() as usize;
    let mut queues = Vec::with_capacity(alloc, some)?;
    for number in 0..chart.modules.len() as u32 {
        push_queues_from(alloc, layout, chart, number, &mut queues)?;
    }
    Ok(queues)
}

/// The network of a plan, whose modules were arranged and are at most 65,536. `Err` only where memory runs out.
pub fn connect(alloc: Global, layout: &Layout, chart: &Chart) -> Result<Network, NoMemory>
    requires chart { IsChart layout.now chart.now }
    requires few { length (modules_of layout.now) ≤ most_modules }
    ensures { IfOk result (λ net. net ≡ network_of layout.now) }
{
    let queues = all_queues(alloc, layout, chart)?;
    let modules = Vec::from_slice(alloc, &chart.modules)?;
    networks_fit();
    Network::new(alloc, modules, queues)
}
