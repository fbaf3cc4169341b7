ghost use Rattle.std.specs.Prelude.{◌≡◌, ◌+◌, ◌<◌, ◌^◌, neg_ℤ, [], ◌∷◌, ◌++◌, length, IfOk, OnOk};
ghost use Rattle.delay_net.specs.Shape.{HasSmallOffset};
ghost use Rattle.flow_solve.specs.machine.Residual.{residual, window_arc, storage_arc, window_back, storage_back};

use crate::Arc;
use delay_net::{Net, NoMemory, Read};
use std::alloc::Global;

// The window of a read.
pub(crate) fn window_arc(read: Read) -> Arc
    ensures { result ≡ window_arc read }
{
    Arc {
        from: read.of,
        to: read.reader,
        length: read.offset,
    }
}

// The storage that a read needs, in a net of so many tensors.
pub(crate) fn storage_arc(tensors: u32, read: Read) -> Arc
    requires small { HasSmallOffset read }
    requires tensors { tensors + read.of < 2 ^ 32 }
    ensures { result ≡ storage_arc tensors read }
{
    Arc {
        from: read.reader,
        to: tensors + read.of,
        length: -read.offset,
    }
}

// The window back, where it is needed.
pub(crate) fn window_back(read: Read, need: u32) -> Arc
    requires small { HasSmallOffset read }
    ensures { result ≡ window_back read need }
{
    if need == 0 {
        return Arc {
            from: read.reader,
            to: read.reader,
            length: 0,
        };
    }
    Arc {
        from: read.reader,
        to: read.of,
        length: -read.offset,
    }
}

// The storage back, where it is held.
pub(crate) fn storage_back(tensors: u32, read: Read, hold: u32) -> Arc
    requires tensors { tensors + read.of < 2 ^ 32 }
    ensures { result ≡ storage_back tensors read hold }
{
    if hold == 0 {
        return Arc {
            from: read.reader,
            to: read.reader,
            length: 0,
        };
    }
    Arc {
        from: tensors + read.of,
        to: read.reader,
        length: read.offset,
    }
}

// Adds the four arcs of a read.
fn add_arcs(
    arcs: &mut Vec<Arc>,
    tensors: u32,
    read: Read,
    hold: u32,
    need: u32,
) -> Result<(), NoMemory>
    requires small { HasSmallOffset read }
    requires tensors { tensors + read.of < 2 ^ 32 }
    ensures { OnOk result (arcs.new.items ≡ arcs.old.items
        ++ window_arc read ∷ storage_arc tensors read ∷ window_back read need ∷ storage_back tensors read hold ∷ []) }
{
    arcs.push(window_arc(read))?;
    arcs.push(storage_arc(tensors, read))?;
    arcs.push(window_back(read, need))?;
    arcs.push(storage_back(tensors, read, hold))?;
    Ok(())
}

// What a certificate leaves.
pub(crate) fn residual(
    alloc: Global,
    net: &Net,
    hold: &[u32],
    need: &[u32],
) -> Result<Vec<Arc>, NoMemory>
    requires holds { length hold.now ≡ length net.now.reads }
    requires needs { length need.now ≡ length net.now.reads }
    ensures { IfOk result (λ arcs. arcs.items ≡ residual (length net.now.weights) net.now.reads hold.now need.now) }
{
    let tensors = net.weights().len() as u32;
    let reads = net.reads();
    let mut arcs = Vec::new(alloc);
    for (i, read) in reads.iter().enumerate() {
        add_arcs(&mut arcs, tensors, *read, hold[i], need[i])?;
    }
    Ok(arcs)
}
