ghost use Rattle.std.specs.Prelude.{◌≡◌, ◌<◌, ◌≤◌, ◌↔◌, length, slice_set, IsTrue};
ghost use Rattle.net_ir.specs.Nets.{entrances, exits};
ghost use Rattle.ring_region.specs.Fifos.{fifo_at};
ghost use Rattle.net_cycles.specs.machine.Moves.{port_value, after_take, FilledTo, RoomyTo, TakenTo, SentTo};

use net_ir::Network;
use ring_region::Rings;

/// Whether each queue that a firing takes from holds something.
pub(crate) fn are_filled(net: &Network, rings: &Rings, module: u32, firing: u64) -> bool
    requires known { «module» < length net.now.modules }
    requires count { length rings.now ≡ length net.now.queues }
    ensures { IsTrue result
        ↔ FilledTo net.now rings.now «module» firing (length (entrances net.now «module»)) }
{
    let queues = net.queues();
    let ports = net.entrances(module);
    for queue in ports {
        if queues[*queue as usize].lead <= firing && rings.is_empty(*queue) {
            return false;
        }
    }
    true
}

/// Whether each queue from a module has room.
pub(crate) fn are_roomy(net: &Network, rings: &Rings, module: u32) -> bool
    requires known { «module» < length net.now.modules }
    requires count { length rings.now ≡ length net.now.queues }
    ensures { IsTrue result ↔ RoomyTo net.now rings.now «module» (length (exits net.now «module»)) }
{
    let ports = net.exits(module);
    for queue in ports {
        if rings.is_full(*queue) {
            return false;
        }
    }
    true
}

/// Takes what a firing finds at a port: 0 where the lead doesn't let it take from the port's queue.
fn take_one(rings: &mut Rings, queue: u32, lead: u64, firing: u64) -> i128
    requires known { queue < length rings.old }
    requires filled { lead ≤ firing → 0 < length (fifo_at rings.old queue).items }
    ensures value { result ≡ port_value lead firing (fifo_at rings.old queue) }
    ensures queue { rings.new ≡ slice_set rings.old queue (after_take lead firing (fifo_at rings.old queue)) }
{
    if lead <= firing {
        return rings.take(queue);
    }
    0
}

/// Takes what a firing takes, by port; a port that it doesn't take from has 0.
pub(crate) fn take_all(
    net: &Network,
    rings: &mut Rings,
    module: u32,
    firing: u64,
    values: &mut [i128],
)
    requires known { «module» < length net.now.modules }
    requires count { length rings.old ≡ length net.now.queues }
    requires places { length values.old ≡ length (entrances net.now «module») }
    requires filled { FilledTo net.now rings.old «module» firing (length (entrances net.now «module»)) }
    ensures { TakenTo net.now rings.old rings.new values.new «module» firing
        (length (entrances net.now «module»)) }
{
    let queues = net.queues();
    let ports = net.entrances(module);
    for (place, queue) in ports.iter().enumerate() {
        values[place] = take_one(rings, *queue, queues[*queue as usize].lead, firing);
    }
}

/// Sends these values, in queue order.
pub(crate) fn send_all(net: &Network, rings: &mut Rings, module: u32, values: &[i128])
    requires known { «module» < length net.now.modules }
    requires count { length rings.old ≡ length net.now.queues }
    requires places { length values.now ≡ length (exits net.now «module») }
    requires roomy { RoomyTo net.now rings.old «module» (length (exits net.now «module»)) }
    ensures { SentTo net.now rings.old rings.new values.now «module» (length (exits net.now «module»)) }
{
    let ports = net.exits(module);
    for (place, queue) in ports.iter().enumerate() {
        rings.put(*queue, values[place]);
    }
}
