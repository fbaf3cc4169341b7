ghost use Rattle.std.specs.Prelude.{◌≡◌, ◌<◌, ◌↔◌, ℕ, ℤ, List, length, slice_index, IfErr, IsTrue, OnOk};
ghost use Rattle.net_ir.specs.Nets.{entrances, exits};
ghost use Rattle.net_ir.specs.Firings.{firings_at};
ghost use Rattle.net_ir.specs.CycleRun.{fires};
ghost use Rattle.net_cycles.specs.Between.{between, fired_once};
ghost use Rattle.net_cycles.specs.Streams.{HoldCounts, HoldStreams};
ghost use Rattle.net_cycles.specs.machine.Moves.{FilledTo, RoomyTo};

use crate::datapath::Datapath;
use crate::moves::{are_filled, are_roomy, send_all, take_all};
use net_ir::Network;
use ring_region::Rings;

/// The firings that a module has done.
pub(crate) fn firing_of(fired: &[u64], module: u32) -> u64
    requires { «module» < length fired.now }
    ensures { result ≡ slice_index fired.now «module» }
{
    fired[module as usize]
}

/// How many firings a module has.
pub(crate) fn firings_of(net: &Network, firings: u64, module: u32) -> u64
    requires { «module» < length net.now.modules }
    ensures { result ≡ firings_at net.now firings «module» }
{
    firings.saturating_sub(net.modules()[module as usize].age())
}

/// Whether no module has a firing left.
pub(crate) fn all_done(net: &Network, firings: u64, fired: &[u64]) -> bool
    requires { length fired.now ≡ length net.now.modules }
    ensures { IsTrue result ↔ ((m : ℕ) → m < length net.now.modules
        → slice_index fired.now m ≡ firings_at net.now firings m) }
{
    for module in 0..net.modules().len() as u32 {
        if firing_of(fired, module) != firings_of(net, firings, module) {
            return false;
        }
    }
    true
}

/// Whether a module fires when it is visited.
pub(crate) fn can_fire(
    net: &Network,
    rings: &Rings,
    fired: &[u64],
    firings: u64,
    module: u32,
    stalled: &[bool],
) -> bool
    requires known { «module» < length net.now.modules }
    requires whole { length fired.now ≡ length net.now.modules }
    requires flags { length stalled.now ≡ length net.now.modules }
    requires counts { HoldCounts net.now fired.now rings.now }
    ensures { result ≡ fires net.now firings stalled.now (between fired.now) «module» }
{
    let firing = firing_of(fired, module);
    if stalled[module as usize] {
        return false;
    }
    if firing >= firings_of(net, firings, module) {
        return false;
    }
    if !are_filled(net, rings, module, firing) {
        return false;
    }
    are_roomy(net, rings, module)
}

/// Does a module's next firing. At a fault the firing is done wholly too, with values that may be wrong, so that the
/// counts stand.
pub(crate) fn fire<E, D: Datapath<E>>(
    net: &Network,
    rings: &mut Rings,
    datapath: &mut D,
    env: &mut E,
    module: u32,
    fired: &[u64],
    ports: &mut [i128],
    sends: &mut [i128],
) -> Result<(), D::Fault>
    requires known { «module» < length net.now.modules }
    requires whole { length fired.now ≡ length net.now.modules }
    requires ports { length ports.old ≡ length net.now.queues }
    requires sends { length sends.old ≡ length net.now.queues }
    requires counts { HoldCounts net.now fired.now rings.old }
    requires filled { FilledTo net.now rings.old «module» (slice_index fired.now «module»)
        (length (entrances net.now «module»)) }
    requires roomy { RoomyTo net.now rings.old «module» (length (exits net.now «module»)) }
    requires streams { (stream : ℕ → ℕ → ℤ) → D.agrees datapath.old env.old net.now stream
        → HoldStreams net.now fired.now rings.old stream }
    requires ready { D.ready datapath.old env.old net.now fired.now }
    requires relies { D.relies datapath.old net.now fired.now «module» }

    ensures counts { HoldCounts net.now (fired_once fired.now «module») rings.new }
    ensures streams { OnOk result ((stream : ℕ → ℕ → ℤ) → D.agrees datapath.new env.new net.now stream
        → HoldStreams net.now (fired_once fired.now «module») rings.new stream) }
    ensures agrees { (stream : ℕ → ℕ → ℤ)
        → D.agrees datapath.new env.new net.now stream → D.agrees datapath.old env.old net.now stream }
    ensures ready { OnOk result (D.ready datapath.new env.new net.now (fired_once fired.now «module»)) }
    ensures relies { (later : List ℕ) (m : ℕ)
        → D.relies datapath.old net.now later m → D.relies datapath.new net.now later m }
    ensures onward { D.onward datapath.old env.old datapath.new env.new }
    ensures stopped { IfErr result (λ fault.
        D.stopped datapath.old env.old datapath.new env.new net.now fired.now «module» fault) }
{
    let ports = &mut ports[..net.entrances(module).len()];
    take_all(net, rings, module, firing_of(fired, module), ports);
    let sends = &mut sends[..net.exits(module).len()];
    let done = datapath.fire(env, net, module, fired, ports, sends);
    send_all(net, rings, module, sends);
    match done {
        Ok(()) => return Ok(()),
        Err(fault) => return Err(fault),
    }
}
