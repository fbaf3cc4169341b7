ghost use Rattle.std.specs.Prelude.{◌≡◌, ℕ, ◌+◌, ◌^◌, ◌<◌, IfOk};
ghost use Rattle.sim_lines.specs.Flags.{flags_in};
ghost use Rattle.sim_lines.specs.Timetable.{flags_of};

use crate::NoMemory;
use crate::marking::{clear, mark};
use crate::stall::Stall;
use crate::stalled::StalledModule;
use crate::timetable::by_cycle;
use net_ir::Module;
use std::alloc::Global;
use std::marker::Model;
use time_stages::StagedTensor;

/// Which modules are stalled, cycle by cycle: a flag for each module.
#[derive(Drop)]
pub struct StallFlags {
    // The stalls of modules, by cycles.
    stalled: Vec<StalledModule>,
    // Those of this cycle are from `first` on, before `end`.
    first: usize,
    end: usize,
    cycle: u64,
    flags: Vec<bool>,
}

impl Model for StallFlags {
    ghost use Rattle.std.specs.Prelude.{length};
    ghost use Rattle.sim_lines.specs.Timetable.{Timetable};

    ghost Value = { Timetable };

    ghost use Rattle.sim_lines.specs.machine.Cursor.{IsAt};

    ghost view = { λ s. record { modules = length s.flags.items; stalled = s.stalled.items; cycle = s.cycle } };

    ghost invariant = { λ s. IsAt s.stalled.items s.first s.end s.cycle s.flags.items };
}

impl StallFlags {
    /// The flags of cycle 0 of these modules under these stalls. A source is stalled where the input that it is the end
    /// of is listed for the cycle, a sink where the output is; `staged` are the staged tensors that the modules name.
    /// No other call takes memory.
    pub fn new(
        alloc: Global,
        stalls: &[Stall],
        modules: &[Module],
        staged: &[StagedTensor],
    ) -> Result<StallFlags, NoMemory>
        ensures made { IfOk result (λ s. (cycle : ℕ)
            → flags_of s cycle ≡ flags_in staged.now stalls.now modules.now cycle) }
        ensures first { IfOk result (λ s. s.cycle ≡ 0) }
    {
        let stalled = by_cycle(alloc, stalls, modules, staged)?;
        let mut flags = vec![in alloc; false; modules.len()]?;
        let end = mark(&mut flags, &stalled, 0);
        Ok(StallFlags {
            stalled,
            first: 0,
            end,
            cycle: 0,
            flags,
        })
    }

    /// The cycle that it is, from 0.
    pub fn cycle(&self) -> u64
        ensures { result ≡ self.now.cycle }
    {
        self.cycle
    }

    /// The flags of this cycle, one for each module in firing order.
    pub fn flags(&self) -> &[bool]
        ensures { result.now ≡ flags_of self.now self.now.cycle }
    {
        &self.flags
    }

    /// Goes on to the next cycle: the flags of this one are put back, and those of the next set.
    pub fn advance(&mut self)
        requires { self.old.cycle + 1 < 2 ^ 64 }
        ensures { self.new ≡ record self.old { cycle = self.old.cycle + 1 } }
    {
        clear(&mut self.flags, &self.stalled[self.first..self.end]);
        self.cycle += 1;
        self.first = self.end;
        self.end += mark(&mut self.flags, &self.stalled[self.first..], self.cycle);
    }
}
