ghost use Rattle.std.specs.Prelude.{◌≡◌, ◌<◌, ◌↔◌, Contains, ℕ, Bool, List, length, map, nat_lt, slice_index_or};
ghost use Rattle.delay_net.specs.Windows.{storage_of};
ghost use Rattle.net_ir.specs.declared.events.Turn.{Turn};
ghost use Rattle.net_ir.specs.declared.network.Module.{Module};
ghost use Rattle.net_ir.specs.CycleRun.{EndsInTime, EndsWith, stalled_cycles};
ghost use Rattle.net_ir.specs.Nets.{IsNetwork, IsOrderly};
ghost use Rattle.net_ir.specs.States.{IsLawful};
ghost use Rattle.net_ir.specs.Waits.{GoesOn, NoRing};
ghost use Rattle.reuse_chain.specs.Lanes.{gaps_of};
ghost use Rattle.net_shape.specs.Modules.{IsThere, gap_of, modules_of, number_of};
ghost use Rattle.net_shape.specs.Plans.{IsPlan, Plan, taps_at};
ghost use Rattle.net_shape.specs.Queues.{network_of};
ghost use Rattle.net_shape.specs.Reuse.{reuse_cells};

use net_ir::{cycles_end_in_time, no_ring_of_waits};

/// The firing order has each module of the plan and no other, each once: at its number.
pub fn modules_are_numbered()
    ensures set { (p : Plan) (m : Module) → IsPlan p → Contains (modules_of p) m ↔ IsThere p m }
    ensures numbers { (p : Plan) (k : ℕ) (d : Module) → IsPlan p → k < length (modules_of p)
        → number_of p (slice_index_or (modules_of p) k d) ≡ k }
{}

/// The gaps of a lane are those of its taps, and a gap is at least 1 exactly where the tap is.
pub fn gaps_are_of_taps()
    ensures gaps { (p : Plan) (v lane : ℕ) → IsPlan p
        → map (gap_of (taps_at p v lane)) (taps_at p v lane) ≡ gaps_of (taps_at p v lane) }
    ensures some { (p : Plan) (v lane tap : ℕ) → IsPlan p → Contains (taps_at p v lane) tap
        → nat_lt 0 (gap_of (taps_at p v lane) tap) ≡ nat_lt 0 tap }
{}

/// The capacities of the reuse queues of a tensor are in sum its storage.
pub fn reuse_queues_hold_storage()
    ensures { (p : Plan) (v : ℕ) → IsPlan p → v < length p.kinds
        → reuse_cells (network_of p) v ≡ storage_of p.reads p.delays v }
{}

/// The network of a plan is one, and each of its queues fits the firing order.
pub fn networks_fit()
    ensures network { (p : Plan) → IsPlan p → IsNetwork (network_of p) }
    ensures orderly { (p : Plan) → IsPlan p → IsOrderly (network_of p) }
{}

/// In the network of a plan no module ever waits on itself, in whatever order the modules do their events and however
/// many firings there are, and where not all is done some module can go on.
pub fn networks_never_lock_up()
    ensures no_ring { (p : Plan) (firings : ℕ) (state : List Turn) → IsPlan p
        → IsLawful (network_of p) firings state → NoRing (network_of p) firings state }
    ensures goes_on { (p : Plan) (firings : ℕ) (state : List Turn) → IsPlan p
        → IsLawful (network_of p) firings state → GoesOn (network_of p) firings state }
{
    no_ring_of_waits()
}

/// A run of cycles of the network of a plan ends within as many cycles as there are firings and the number of those in
/// which some module is stalled, and where none is in exactly as many as there are firings.
pub fn runs_end_in_time()
    ensures ends { (p : Plan) (firings : ℕ) (stalls : List (List Bool)) → IsPlan p
        → EndsInTime (network_of p) firings stalls }
    ensures exact { (p : Plan) (firings : ℕ) (stalls : List (List Bool)) → IsPlan p → 0 < length p.kinds
        → stalled_cycles stalls ≡ 0 → EndsWith (network_of p) firings stalls ↔ (length stalls ≡ firings) }
{
    cycles_end_in_time()
}
