ghost use Rattle.std.specs.Prelude.{◌≡◌, ◌<◌, ◌≤◌, ◌↔◌, ◌^◌, ◌++◌, ◌∷◌, [], ◌&&◌, not, ℕ, ℤ, Bool, List, map, sum, length, slice_index, if◌then◌else◌, IfErr, IfOk, IsTrue, OnOk};
ghost use Rattle.net_ir.specs.Nets.{queue_at};
ghost use Rattle.net_ir.specs.States.{zeros, has_firing, IsFinished, IsLawful};
ghost use Rattle.net_ir.specs.CycleRun.{fires, visit, cycle, fired_among, held_among, EndsWith};
ghost use Rattle.net_cycles.specs.Between.{between, fired_once, CanFire};
ghost use Rattle.net_cycles.specs.Cycles.{FiresAt, HasRun};
ghost use Rattle.net_cycles.specs.Streams.{HoldStreams, ItemsLie};
ghost use Rattle.net_cycles.specs.Running.{IsRunning};
ghost use Rattle.net_cycles.specs.Holdings.{held_below, storage_below};

use crate::datapath::Datapath;
use crate::firing::{all_done, can_fire, fire, firing_of, firings_of};
use crate::held::held;
use net_ir::{CycleCount, Network, NoMemory};
use ring_region::Rings;
use std::alloc::Global;
use std::marker::Model;

/// A network that runs in cycles, with the values in its queues. Between calls no module is in the midst of a firing.
#[derive(Drop)]
pub struct Pipeline {
    network: Network,
    firings: u64,
    fired: Vec<u64>,
    rings: Rings,
    ports: Vec<i128>,
    sends: Vec<i128>,
}

impl Model for Pipeline {
    ghost use Rattle.net_cycles.specs.Running.{Running, IsPipeline};

    ghost Value = { Running };

    ghost view = { λ p. record {
      network = p.network;
      firings = p.firings;
      fired = p.fired.items;
      fifos = p.rings;
    } };

    ghost invariant = { λ p. IsPipeline (record {
      network = p.network;
      firings = p.firings;
      fired = p.fired.items;
      fifos = p.rings;
    }) p.ports.items p.sends.items };
}

impl Pipeline {
    /// The state of zeros, where a module of age 0 has this many firings and each other its age less. Each queue holds
    /// nothing and can hold something. No other call takes memory.
    pub fn new(alloc: Global, network: Network, firings: u64) -> Result<Pipeline, NoMemory>
        requires positive { (queue : ℕ) → queue < length network.queues
            → 0 < (queue_at network.queues queue).capacity }
        ensures network { IfOk result (λ p. p.network ≡ network) }
        ensures firings { IfOk result (λ p. p.firings ≡ firings) }
        ensures zeros { IfOk result (λ p. between p.fired ≡ zeros network) }
        ensures unfired { IfOk result (λ p. (m : ℕ) → slice_index p.fired m ≡ 0) }
        ensures run { IfOk result (λ p. HasRun network firings [] p.fired) }
        ensures streams { IfOk result (λ p. (stream : ℕ → ℕ → ℤ) → HoldStreams network p.fired p.fifos stream) }
    {
        let capacities: Vec<u64> = network
            .queues()
            .iter()
            .map(|queue| queue.capacity)
            .collect(alloc)?;
        let rings = Rings::new(alloc, &capacities)?;
        let fired = vec![in alloc; 0u64; network.modules().len()]?;
        let ports = vec![in alloc; 0i128; network.queues().len()]?;
        let sends = vec![in alloc; 0i128; network.queues().len()]?;
        Ok(Pipeline {
            network,
            firings,
            fired,
            rings,
            ports,
            sends,
        })
    }

    /// The network.
    pub fn network(&self) -> &Network
        ensures { result.now ≡ self.now.network }
    {
        &self.network
    }

    /// Whether no module has a firing left. Then a run of cycles up to here has ended with its last one.
    pub fn finished(&self) -> bool
        ensures finished { IsTrue result
            ↔ IsFinished self.now.network self.now.firings (between self.now.fired) }
        ensures ends { IsTrue result → (stalls : List (List Bool))
            → HasRun self.now.network self.now.firings stalls self.now.fired
            → EndsWith self.now.network self.now.firings stalls }
        ensures lawful { IsLawful self.now.network self.now.firings (between self.now.fired) }
    {
        all_done(&self.network, self.firings, &self.fired)
    }

    /// The number of items in the queues that are marked, as in those for reuse. There is a mark for each queue.
    pub fn held(&self, marked: &[bool]) -> u64
        requires { length marked.now ≡ length self.now.network.queues }
        ensures value { result
            ≡ held_below self.now.network self.now.fired marked.now (length self.now.network.queues) }
        ensures within { result ≤ storage_below self.now.network marked.now (length self.now.network.queues) }
    {
        held(&self.network, &self.rings, &self.fired, marked)
    }

    /// The length of the region: what all queues can hold together.
    pub fn room(&self) -> u64
        ensures { result ≡ sum (map (λ q. q.capacity) self.now.network.queues) }
    {
        self.region().len() as u64
    }

    /// The region of the queues. Their parts stand in queue order without gaps and fill it. Item n of a queue lies at
    /// the first place of its part plus the remainder of n by its capacity, from when it is sent until it is taken.
    pub fn region(&self) -> &[i128]
        ensures room { length result.now ≡ sum (map (λ q. q.capacity) self.now.network.queues) }
        ensures items { (stream : ℕ → ℕ → ℤ)
            → HoldStreams self.now.network self.now.fired self.now.fifos stream
            → ItemsLie self.now.network self.now.fired result.now stream }
    {
        self.rings.region()
    }

    /// The number of modules.
    fn modules(&self) -> u32
        ensures count { result ≡ length self.now.network.modules }
        ensures running { IsRunning self.now }
    {
        self.network.modules().len() as u32
    }

    /// Visits one module: it fires wholly where it isn't stalled, has a firing left and each event of the firing is
    /// possible.
    fn visit<E, D: Datapath<E>>(
        &mut self,
        datapath: &mut D,
        env: &mut E,
        stalled: &[bool],
        module: u32,
    ) -> Result<CycleCount, D::Fault>
        requires known { «module» < length self.old.network.modules }
        requires flags { length stalled.now ≡ length self.old.network.modules }
        requires streams { (stream : ℕ → ℕ → ℤ) → D.agrees datapath.old env.old self.old.network stream
            → HoldStreams self.old.network self.old.fired self.old.fifos stream }
        requires ready { D.ready datapath.old env.old self.old.network self.old.fired }
        requires relies { CanFire self.old.network self.old.firings stalled.now self.old.fired «module»
            → D.relies datapath.old self.old.network self.old.fired «module» }

        ensures network { self.new.network ≡ self.old.network }
        ensures firings { self.new.firings ≡ self.old.firings }
        ensures state { between self.new.fired
            ≡ visit self.old.network self.old.firings stalled.now (between self.old.fired) «module» }
        ensures running { IsRunning self.new }
        ensures fired { IfOk result (λ count. count.fired
            ≡ (if fires self.old.network self.old.firings stalled.now (between self.old.fired) «module»
            then 1 else 0)) }
        ensures held { IfOk result (λ count. count.held
            ≡ (if has_firing self.old.network self.old.firings (between self.old.fired) «module»
            && not (fires self.old.network self.old.firings stalled.now (between self.old.fired) «module»)
            then 1 else 0)) }
        ensures streams { OnOk result ((stream : ℕ → ℕ → ℤ)
            → D.agrees datapath.new env.new self.new.network stream
            → HoldStreams self.new.network self.new.fired self.new.fifos stream) }
        ensures agrees { (stream : ℕ → ℕ → ℤ) → D.agrees datapath.new env.new self.old.network stream
            → D.agrees datapath.old env.old self.old.network stream }
        ensures ready { OnOk result (D.ready datapath.new env.new self.new.network self.new.fired) }
        ensures relies { (later : List ℕ) (m : ℕ) → D.relies datapath.old self.old.network later m
            → D.relies datapath.new self.old.network later m }
        ensures onward { D.onward datapath.old env.old datapath.new env.new }
        ensures stopped { IfErr result (λ fault.
            CanFire self.old.network self.old.firings stalled.now self.old.fired «module»
            × (self.new.fired ≡ fired_once self.old.fired «module»)
            × D.stopped datapath.old env.old datapath.new env.new self.old.network self.old.fired «module» fault) }
    {
        let firing = firing_of(&self.fired, module);
        if can_fire(
            &self.network,
            &self.rings,
            &self.fired,
            self.firings,
            module,
            stalled,
        ) {
            let done = fire(
                &self.network,
                &mut self.rings,
                datapath,
                env,
                module,
                &self.fired,
                &mut self.ports,
                &mut self.sends,
            );
            self.fired[module as usize] = firing + 1;
            match done {
                Ok(()) => return Ok(CycleCount { fired: 1, held: 0 }),
                Err(fault) => return Err(fault),
            }
        }
        if firing < firings_of(&self.network, self.firings, module) {
            return Ok(CycleCount { fired: 0, held: 1 });
        }
        Ok(CycleCount { fired: 0, held: 0 })
    }

    /// Does one cycle: each module is visited once, in firing order, and fires wholly where it isn't stalled, has a
    /// firing left and each event of the firing is possible. There is a flag for each module. The first fault ends the
    /// cycle: that firing is counted, and the modules after it aren't visited.
    pub fn cycle<E, D: Datapath<E>>(
        &mut self,
        datapath: &mut D,
        env: &mut E,
        stalled: &[bool],
    ) -> Result<CycleCount, D::Fault>
        requires flags { length stalled.now ≡ length self.old.network.modules }
        requires streams { (stream : ℕ → ℕ → ℤ) → D.agrees datapath.old env.old self.old.network stream
            → HoldStreams self.old.network self.old.fired self.old.fifos stream }
        requires ready { D.ready datapath.old env.old self.old.network self.old.fired }
        requires relies { (fired : List ℕ) (m : ℕ)
            → FiresAt self.old.network self.old.firings stalled.now self.old.fired fired m
            → D.relies datapath.old self.old.network fired m }

        ensures network { self.new.network ≡ self.old.network }
        ensures firings { self.new.firings ≡ self.old.firings }
        ensures state { OnOk result (between self.new.fired
            ≡ cycle self.old.network self.old.firings stalled.now (between self.old.fired)) }
        ensures run { OnOk result ((stalls : List (List Bool))
            → HasRun self.old.network self.old.firings stalls self.old.fired
            → ¬ IsFinished self.old.network self.old.firings (between self.old.fired)
            → HasRun self.new.network self.new.firings (stalls ++ stalled.now ∷ []) self.new.fired) }
        ensures fired { IfOk result (λ count. count.fired
            ≡ fired_among self.old.network self.old.firings stalled.now (between self.old.fired)
            (length self.old.network.modules)) }
        ensures held { IfOk result (λ count. count.held
            ≡ held_among self.old.network self.old.firings stalled.now (between self.old.fired)
            (length self.old.network.modules)) }
        // The queues hold their streams again, for all that agree by now, and no stream agrees that didn't before.
        ensures streams { OnOk result ((stream : ℕ → ℕ → ℤ)
            → D.agrees datapath.new env.new self.new.network stream
            → HoldStreams self.new.network self.new.fired self.new.fifos stream) }
        ensures agrees { (stream : ℕ → ℕ → ℤ) → D.agrees datapath.new env.new self.old.network stream
            → D.agrees datapath.old env.old self.old.network stream }
        ensures ready { OnOk result (D.ready datapath.new env.new self.new.network self.new.fired) }
        ensures relies { (later : List ℕ) (m : ℕ) → D.relies datapath.old self.old.network later m
            → D.relies datapath.new self.old.network later m }
        ensures onward { D.onward datapath.old env.old datapath.new env.new }
        // The first fault was met in a firing of this cycle, which is the last one that is counted.
        ensures stopped { IfErr result (λ fault. (fired : List ℕ) × (m : ℕ)
            × FiresAt self.old.network self.old.firings stalled.now self.old.fired fired m
            × (self.new.fired ≡ fired_once fired m)
            × D.stopped datapath.old env.old datapath.new env.new self.old.network fired m fault) }
    {
        let mut count = CycleCount { fired: 0, held: 0 };
        for module in 0..self.modules() {
            let one = match self.visit(datapath, env, stalled, module) {
                Ok(one) => one,
                Err(fault) => return Err(fault),
            };
            count.fired += one.fired;
            count.held += one.held;
        }
        Ok(count)
    }
}
