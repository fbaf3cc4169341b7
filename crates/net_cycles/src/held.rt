ghost use Rattle.std.specs.Prelude.{◌≡◌, ◌≤◌, length};
ghost use Rattle.net_cycles.specs.Streams.{HoldCounts};
ghost use Rattle.net_cycles.specs.Holdings.{held_below, storage_below};

use net_ir::Network;
use ring_region::Rings;

/// The number of items in the queues that are marked.
pub(crate) fn held(net: &Network, rings: &Rings, fired: &[u64], marked: &[bool]) -> u64
    requires marks { length marked.now ≡ length net.now.queues }
    requires counts { HoldCounts net.now fired.now rings.now }
    ensures value { result ≡ held_below net.now fired.now marked.now (length net.now.queues) }
    ensures within { result ≤ storage_below net.now marked.now (length net.now.queues) }
{
    // What the region holds fits its type, so what the queues hold does.
    let _region = rings.region();
    let mut total: u64 = 0;
    for queue in 0..net.queues().len() as u32 {
        if marked[queue as usize] {
            total += rings.held(queue);
        }
    }
    total
}
