ghost use Rattle.std.specs.Prelude.{◌≡◌, ◌≤◌, ◌+◌, ℕ, List, [], ◌∷◌, ◌++◌, length};
ghost use Rattle.net_ir.specs.declared.network.Module.{Module};
ghost use Rattle.net_ir.specs.CycleRun.{count_below, stalled_cycles};
ghost use Rattle.time_stages.specs.declared.staging.StagedTensor.{StagedTensor};
ghost use Rattle.sim_lines.specs.declared.stall.Stall.{Stall};
ghost use Rattle.sim_lines.specs.Flags.{flags_in, flags_until, has_stall};

/// There is a flag for each module, and flags for each cycle; those of one cycle more come last.
pub fn flags_are_counted()
    ensures modules { (staged : List StagedTensor) (stalls : List Stall) (modules : List Module) (cycle : ℕ)
        → length (flags_in staged stalls modules cycle) ≡ length modules }
    ensures cycles { (staged : List StagedTensor) (stalls : List Stall) (modules : List Module) (n : ℕ)
        → length (flags_until staged stalls modules n) ≡ n }
    ensures next { (staged : List StagedTensor) (stalls : List Stall) (modules : List Module) (n : ℕ)
        → flags_until staged stalls modules (n + 1)
        ≡ flags_until staged stalls modules n ++ flags_in staged stalls modules n ∷ [] }
{}

/// Some module is stalled in no more cycles than some stall is listed for, so in no more than there are stalls, and in
/// none where there are no stalls.
pub fn stalled_cycles_are_few()
    ensures listed { (staged : List StagedTensor) (stalls : List Stall) (modules : List Module) (n : ℕ)
        → stalled_cycles (flags_until staged stalls modules n) ≤ count_below (has_stall stalls) n }
    ensures few { (staged : List StagedTensor) (stalls : List Stall) (modules : List Module) (n : ℕ)
        → stalled_cycles (flags_until staged stalls modules n) ≤ length stalls }
    ensures none { (staged : List StagedTensor) (modules : List Module) (n : ℕ)
        → stalled_cycles (flags_until staged [] modules n) ≡ 0 }
{}
