ghost use Rattle.std.specs.Prelude.{◌≡◌, ◌<◌, ◌≤◌, ◌+◌, ◌*◌, ◌↔◌, All, None, ℕ, Bool, List, length};
ghost use Rattle.delay_net.specs.Shape.{IsWidth};
ghost use Rattle.delay_net.specs.Windows.{storage_of};
ghost use Rattle.net_ir.specs.CycleRun.{EndsInTime, EndsWith, stalled_cycles};
ghost use Rattle.net_ir.specs.States.{IsLawful};
ghost use Rattle.net_ir.specs.Waits.{GoesOn, NoRing};
ghost use Rattle.net_ir.specs.declared.events.Turn.{Turn};
ghost use Rattle.net_shape.specs.Modules.{modules_of};
ghost use Rattle.net_shape.specs.Plans.{IsPlan, Plan, age_of};
ghost use Rattle.net_shape.specs.Reuse.{reuse_cells};
ghost use Rattle.plan_net.specs.Limits.{most_modules};
ghost use Rattle.reuse_chain.specs.Limits.{age_end};
ghost use Rattle.soda_ir.specs.Program.{PlainProgram};
ghost use Rattle.soda_ir.specs.Valid.{IsValid};
ghost use Rattle.time_stages.specs.Staged.{staged_reads, staged_tensors, staged_widths};
ghost use Rattle.net_build.specs.Limits.{cells_held, greatest_delay, limit_passed, most_delay, most_reuse};
ghost use Rattle.net_build.specs.Planned.{firings_for, net_under, plan_of};

use net_shape::{networks_never_lock_up, reuse_queues_hold_storage, runs_end_in_time};
use time_stages::staging_makes_a_net;

/// The plan of a valid program is one, whatever the delays: there is a lane, a tensor reads earlier ones alone, and an
/// input reads none. Where the delays keep their limit, the ages of its reads are short.
pub fn programs_have_plans()
    ensures plan { (p : PlainProgram) (delays : List ℕ) → IsValid p → All IsWidth (staged_widths p)
        → IsPlan (plan_of p delays) }
    ensures ages { (p : PlainProgram) (delays : List ℕ) → IsValid p → All IsWidth (staged_widths p)
        → greatest_delay (plan_of p delays) ≤ most_delay
        → All (λ read. age_of (plan_of p delays) read < age_end) (staged_reads p) }
{
    staging_makes_a_net()
}

/// In the network of a program no module ever waits on itself, in whatever order the modules do their events and
/// however many firings there are, and where not all is done some module can go on.
pub fn networks_of_programs_never_lock_up()
    ensures no_ring { (p : PlainProgram) (delays : List ℕ) (firings : ℕ) (state : List Turn) → IsValid p
        → All IsWidth (staged_widths p) → IsLawful (net_under p delays) firings state
        → NoRing (net_under p delays) firings state }
    ensures goes_on { (p : PlainProgram) (delays : List ℕ) (firings : ℕ) (state : List Turn) → IsValid p
        → All IsWidth (staged_widths p) → IsLawful (net_under p delays) firings state
        → GoesOn (net_under p delays) firings state }
{
    programs_have_plans();
    networks_never_lock_up()
}

/// A run of cycles of the network of a program ends within as many cycles as there are firings and the number of those
/// in which some module is stalled, and where none is in exactly as many as there are firings.
pub fn networks_of_programs_end_in_time()
    ensures ends { (p : PlainProgram) (delays : List ℕ) (firings : ℕ) (stalls : List (List Bool)) → IsValid p
        → All IsWidth (staged_widths p) → EndsInTime (net_under p delays) firings stalls }
    ensures exact { (p : PlainProgram) (delays : List ℕ) (firings : ℕ) (stalls : List (List Bool)) → IsValid p
        → All IsWidth (staged_widths p) → stalled_cycles stalls ≡ 0
        → EndsWith (net_under p delays) firings stalls ↔ (length stalls ≡ firings) }
{
    programs_have_plans();
    runs_end_in_time()
}

/// The capacities of the reuse queues of a staged tensor are in sum its storage in cells.
pub fn reuse_queues_of_programs_hold_storage()
    ensures { (p : PlainProgram) (delays : List ℕ) (v : ℕ) → IsValid p → All IsWidth (staged_widths p)
        → v < length (staged_tensors p)
        → reuse_cells (net_under p delays) v ≡ storage_of (staged_reads p) delays v }
{
    programs_have_plans();
    reuse_queues_hold_storage()
}

/// No limit is passed exactly where each of the three is kept.
pub fn limits_are_three()
    ensures { (p : Plan) → (limit_passed p ≡ None) ↔ ((greatest_delay p ≤ most_delay) × (cells_held p ≤ most_reuse)
        × (length (modules_of p) ≤ most_modules)) }
{}

/// The modules of age 0 fire as often as there must be firings for one lane after the other to reach the last cell of
/// the latest tensor, and no more often.
pub fn firings_are_rounded_up()
    ensures { (cells : ℕ) (p : Plan) (n : ℕ) → 0 < p.unroll
        → (firings_for cells p ≤ n) ↔ (cells + greatest_delay p ≤ p.unroll * n) }
{}
