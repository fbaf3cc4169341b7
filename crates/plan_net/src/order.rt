ghost use Rattle.std.specs.Prelude.{◌≡◌, ◌+◌, ◌*◌, ◌<◌, ◌≤◌, ◌++◌, ◌∷◌, [], OnOk, length, filter, map, nat_lt, not, reverse, slice_index_or, if◌then◌else◌};
ghost use Rattle.delay_net.specs.Limits.{most_tensors};
ghost use Rattle.net_ir.specs.declared.network.Module.TheVariants.{Source, Forward, Compute, Sink};
ghost use Rattle.net_shape.specs.Lists.{joined};
ghost use Rattle.net_shape.specs.Modules.{block, far_forwards, near_forwards, producers, sinks};
ghost use Rattle.net_shape.specs.Plans.{taps_at};
ghost use Rattle.net_shape.specs.machine.Places.{block_begin, far_begin, far_lane_begin, near_begin};
ghost use Rattle.plan_net.specs.machine.Tables.{by_lane, has_sink, is_source};
ghost use Rattle.reuse_chain.specs.Limits.{most_lanes};

use crate::NoMemory;
use crate::layout::Layout;
use net_ir::Module;
use net_shape::Kind;
use sqlite_items::Items;

/// The place of a tensor's lane among all lanes.
pub(crate) fn lane_place(tensor: u32, lane: u32, unroll: u32) -> usize
    requires tensor { tensor < most_tensors }
    requires lane { lane < unroll }
    requires few { unroll ≤ most_lanes }
    ensures { result ≡ tensor * unroll + lane }
{
    tensor as usize * unroll as usize + lane as usize
}

/// Whether a tensor is an input.
pub(crate) fn is_source(kind: Kind) -> bool
    ensures { result ≡ is_source kind }
{
    match kind {
        Kind::Input => true,
        Kind::Inner => false,
        Kind::Output => false,
    }
}

/// Whether a tensor goes to a sink.
pub(crate) fn has_sink(kind: Kind) -> bool
    ensures { result ≡ has_sink kind }
{
    match kind {
        Kind::Input => false,
        Kind::Inner => false,
        Kind::Output => true,
    }
}

// Adds the forwarding module at a tap, if it is another than 0.
fn push_if_far(tensor: u32, lane: u32, tap: u64, modules: &mut Vec<Module>) -> Result<(), NoMemory>
    ensures { OnOk result (modules.new.items
        ≡ modules.old.items ++ (if nat_lt 0 tap then Forward tensor lane tap ∷ [] else [])) }
{
    if tap > 0 {
        modules.push(Module::Forward { tensor, lane, tap })?;
    }
    Ok(())
}

// Adds the forwarding modules of a lane at other taps than 0, from the highest tap down.
fn push_far_lane(
    tensor: u32,
    lane: u32,
    taps: &[u64],
    modules: &mut Vec<Module>,
) -> Result<(), NoMemory>
    ensures { OnOk result (modules.new.items ≡ modules.old.items
        ++ map (λ tap. Forward tensor lane tap) (reverse (filter (λ t. nat_lt 0 t) taps.now))) }
{
    for passed in 0..taps.len() {
        push_if_far(tensor, lane, taps[taps.len() - 1 - passed], modules)?;
    }
    Ok(())
}

// Adds the forwarding modules of a tensor at other taps than 0, and where those of each lane begin.
fn push_far(
    layout: &Layout,
    taps: &[Items<u64>],
    tensor: u32,
    modules: &mut Vec<Module>,
    tops: &mut Vec<usize>,
) -> Result<(), NoMemory>
    requires known { tensor < length layout.now.kinds }
    requires taps { taps.now ≡ by_lane layout.now (taps_at layout.now) }
    requires begun { length modules.old.items ≡ far_begin layout.now tensor }
    ensures modules { OnOk result (modules.new.items ≡ modules.old.items ++ far_forwards layout.now tensor) }
    ensures tops { OnOk result (tops.new.items ≡ tops.old.items
        ++ joined (λ lane. far_lane_begin layout.now tensor lane ∷ []) layout.now.unroll) }
{
    let unroll = layout.unroll();
    for lane in 0..unroll {
        tops.push(modules.len())?;
        push_far_lane(
            tensor,
            lane,
            taps[lane_place(tensor, lane, unroll)].as_slice(),
            modules,
        )?;
    }
    Ok(())
}

/// Adds all forwarding modules at other taps than 0, and where those of each lane begin.
pub(crate) fn push_all_far(
    layout: &Layout,
    taps: &[Items<u64>],
    modules: &mut Vec<Module>,
    tops: &mut Vec<usize>,
) -> Result<(), NoMemory>
    requires taps { taps.now ≡ by_lane layout.now (taps_at layout.now) }
    requires modules { modules.old.items ≡ [] }
    requires tops { tops.old.items ≡ [] }
    ensures modules { OnOk result (modules.new.items ≡ joined (far_forwards layout.now) (length layout.now.kinds)) }
    ensures tops { OnOk result (tops.new.items ≡ by_lane layout.now (far_lane_begin layout.now)) }
{
    for tensor in 0..layout.kinds().len() as u32 {
        push_far(layout, taps, tensor, modules, tops)?;
    }
    Ok(())
}

// Adds a computing module for each lane.
fn push_computes(tensor: u32, unroll: u32, modules: &mut Vec<Module>) -> Result<(), NoMemory>
    ensures { OnOk result (modules.new.items ≡ modules.old.items ++ joined (λ lane. Compute tensor lane ∷ []) unroll) }
{
    for lane in 0..unroll {
        modules.push(Module::Compute { tensor, lane })?;
    }
    Ok(())
}

// Adds what sends the cells of a tensor.
fn push_producers(layout: &Layout, tensor: u32, modules: &mut Vec<Module>) -> Result<(), NoMemory>
    requires known { tensor < length layout.now.kinds }
    ensures { OnOk result (modules.new.items ≡ modules.old.items ++ producers layout.now tensor) }
{
    if is_source(layout.kinds()[tensor as usize]) {
        modules.push(Module::Source { tensor })?;
        Ok(())
    } else {
        push_computes(tensor, layout.unroll(), modules)
    }
}

// Adds the forwarding module of a lane at tap 0, if its first tap is that.
fn push_near_lane(
    tensor: u32,
    lane: u32,
    taps: &[u64],
    modules: &mut Vec<Module>,
) -> Result<(), NoMemory>
    ensures { OnOk result (modules.new.items ≡ modules.old.items
        ++ map (λ tap. Forward tensor lane tap) (filter (λ t. not (nat_lt 0 t)) taps.now)) }
{
    for tap in taps {
        if *tap == 0 {
            modules.push(Module::Forward {
                tensor,
                lane,
                tap: 0,
            })?;
        }
    }
    Ok(())
}

// Adds the forwarding modules of a tensor at tap 0, and where that of each lane would stand.
fn push_near(
    layout: &Layout,
    taps: &[Items<u64>],
    tensor: u32,
    modules: &mut Vec<Module>,
    nears: &mut Vec<usize>,
) -> Result<(), NoMemory>
    requires known { tensor < length layout.now.kinds }
    requires taps { taps.now ≡ by_lane layout.now (taps_at layout.now) }
    requires begun { length modules.old.items ≡ near_begin layout.now tensor 0 }
    ensures modules { OnOk result (modules.new.items ≡ modules.old.items ++ near_forwards layout.now tensor) }
    ensures nears { OnOk result (nears.new.items ≡ nears.old.items
        ++ joined (λ lane. near_begin layout.now tensor lane ∷ []) layout.now.unroll) }
{
    let unroll = layout.unroll();
    for lane in 0..unroll {
        nears.push(modules.len())?;
        push_near_lane(
            tensor,
            lane,
            taps[lane_place(tensor, lane, unroll)].as_slice(),
            modules,
        )?;
    }
    Ok(())
}

// Adds the sink of a tensor, if it has one.
fn push_sink(layout: &Layout, tensor: u32, modules: &mut Vec<Module>) -> Result<(), NoMemory>
    requires known { tensor < length layout.now.kinds }
    ensures { OnOk result (modules.new.items ≡ modules.old.items ++ sinks layout.now tensor) }
{
    if has_sink(layout.kinds()[tensor as usize]) {
        modules.push(Module::Sink { tensor })?;
    }
    Ok(())
}

// Adds the block of a tensor, where its near forwarding modules stand, and where its sink would.
fn push_block(
    layout: &Layout,
    taps: &[Items<u64>],
    tensor: u32,
    modules: &mut Vec<Module>,
    nears: &mut Vec<usize>,
    ends: &mut Vec<usize>,
) -> Result<(), NoMemory>
    requires known { tensor < length layout.now.kinds }
    requires taps { taps.now ≡ by_lane layout.now (taps_at layout.now) }
    requires begun { length modules.old.items ≡ block_begin layout.now tensor }
    ensures modules { OnOk result (modules.new.items ≡ modules.old.items ++ block layout.now tensor) }
    ensures nears { OnOk result (nears.new.items ≡ nears.old.items
        ++ joined (λ lane. near_begin layout.now tensor lane ∷ []) layout.now.unroll) }
    ensures ends { OnOk result (ends.new.items
        ≡ ends.old.items ++ near_begin layout.now tensor layout.now.unroll ∷ []) }
{
    push_producers(layout, tensor, modules)?;
    push_near(layout, taps, tensor, modules, nears)?;
    ends.push(modules.len())?;
    push_sink(layout, tensor, modules)
}

/// Adds the blocks of all tensors, where each begins, where its near forwarding modules stand, and where its sink
/// would.
pub(crate) fn push_blocks(
    layout: &Layout,
    taps: &[Items<u64>],
    modules: &mut Vec<Module>,
    begins: &mut Vec<usize>,
    nears: &mut Vec<usize>,
    ends: &mut Vec<usize>,
) -> Result<(), NoMemory>
    requires taps { taps.now ≡ by_lane layout.now (taps_at layout.now) }
    requires modules { modules.old.items ≡ joined (far_forwards layout.now) (length layout.now.kinds) }
    requires begins { begins.old.items ≡ [] }
    requires nears { nears.old.items ≡ [] }
    requires ends { ends.old.items ≡ [] }
    ensures modules { OnOk result (modules.new.items
        ≡ modules.old.items ++ joined (block layout.now) (length layout.now.kinds)) }
    ensures begins { OnOk result (begins.new.items
        ≡ joined (λ v. block_begin layout.now v ∷ []) (length layout.now.kinds)) }
    ensures nears { OnOk result (nears.new.items ≡ by_lane layout.now (near_begin layout.now)) }
    ensures ends { OnOk result (ends.new.items
        ≡ joined (λ v. near_begin layout.now v layout.now.unroll ∷ []) (length layout.now.kinds)) }
{
    for tensor in 0..layout.kinds().len() as u32 {
        begins.push(modules.len())?;
        push_block(layout, taps, tensor, modules, nears, ends)?;
    }
    Ok(())
}
