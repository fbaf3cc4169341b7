ghost use Rattle.std.specs.Prelude.{◌≡◌, ◌<◌, ◌≤◌, All, length, map};
ghost use Rattle.delay_net.specs.Limits.{most_reads, most_tensors};
ghost use Rattle.net_shape.specs.Plans.{IsPlan, age_of};
ghost use Rattle.plan_net.specs.Layouts.{IsLayout};
ghost use Rattle.reuse_chain.specs.Limits.{age_end, most_lanes};

use delay_net::Read;
use net_shape::Kind;
use std::marker::Model;

/// What a network is made from: the unroll factor, what each staged tensor is, the reads, the delays, and the ages of
/// the reads in cells.
#[derive(Drop)]
pub struct Layout {
    unroll: u32,
    kinds: Vec<Kind>,
    reads: Vec<Read>,
    delays: Vec<u64>,
    ages: Vec<u64>,
}

impl Model for Layout {
    ghost use Rattle.net_shape.specs.Plans.{Plan};

    ghost Value = { Plan };

    ghost use Rattle.plan_net.specs.Layouts.{IsLayout};

    ghost view = { λ l.
        record { unroll = l.unroll; kinds = l.kinds.items; reads = l.reads.items; delays = l.delays.items } };

    ghost invariant = { λ l. IsLayout
        (record { unroll = l.unroll; kinds = l.kinds.items; reads = l.reads.items; delays = l.delays.items })
        l.ages.items };
}

impl Layout {
    /// The layout of these parts.
    pub fn new(
        unroll: u32,
        kinds: Vec<Kind>,
        reads: Vec<Read>,
        delays: Vec<u64>,
        ages: Vec<u64>,
    ) -> Layout
        requires { IsLayout
            (record { unroll = unroll; kinds = kinds.items; reads = reads.items; delays = delays.items }) ages.items }
        ensures { result ≡ record { unroll = unroll; kinds = kinds.items; reads = reads.items; delays = delays.items } }
    {
        Layout {
            unroll,
            kinds,
            reads,
            delays,
            ages,
        }
    }

    /// The unroll factor, from 1 to 64.
    pub fn unroll(&self) -> u32
        ensures value { result ≡ self.now.unroll }
        ensures plan { IsPlan self.now }
        ensures few { result ≤ most_lanes }
        ensures small { length self.now.kinds ≤ most_tensors }
    {
        self.unroll
    }

    /// What each staged tensor is.
    pub fn kinds(&self) -> &[Kind]
        ensures value { result.now ≡ self.now.kinds }
        ensures small { length self.now.kinds ≤ most_tensors }
    {
        &self.kinds
    }

    /// The reads of the staged program.
    pub fn reads(&self) -> &[Read]
        ensures value { result.now ≡ self.now.reads }
        ensures plan { IsPlan self.now }
        ensures few { length self.now.reads ≤ most_reads }
    {
        &self.reads
    }

    /// The ages of the reads in cells.
    pub fn ages(&self) -> &[u64]
        ensures value { result.now ≡ map (age_of self.now) self.now.reads }
        ensures short { All (λ age. age < age_end) result.now }
    {
        &self.ages
    }
}
