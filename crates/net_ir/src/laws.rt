ghost use Rattle.std.specs.Prelude.{◌≡◌, ℕ, Bool, false, List, length, Some};
ghost use Rattle.std.specs.List.{list_any};
ghost use Rattle.net_ir.specs.declared.events.Turn.{Turn};
ghost use Rattle.net_ir.specs.Nets.{Net, IsNetwork, IsOrderly, StandByPort, StandInOrder};
ghost use Rattle.net_ir.specs.States.{zeros, waits_for, Run, IsLawful};
ghost use Rattle.net_ir.specs.Waits.{Falls, NoRing, GoesOn};
ghost use Rattle.net_ir.specs.CycleRun.{IsBetween, EndsInTime, LeastFires, VisitsEachOnce};
ghost use Rattle.net_ir.specs.Worked.{two_reads};

/// Each state of each run of events is lawful.
pub fn runs_are_lawful()
    ensures { (net : Net) (firings : ℕ) (ms : List ℕ) (end : List Turn)
        → Run net firings (zeros net) ms end → IsLawful net firings end }
{}

/// In a network whose queues fit the firing order progress or place falls along each wait. So no module ever waits on
/// itself, and a state that isn't finished has a module that can do its next event.
pub fn no_ring_of_waits()
    ensures falls { (net : Net) (firings : ℕ) (state : List Turn)
        → IsNetwork net → IsOrderly net → IsLawful net firings state
        → (m n : ℕ) → waits_for net firings state m ≡ Some n → Falls net state m n }
    ensures no_ring { (net : Net) (firings : ℕ) (state : List Turn)
        → IsNetwork net → IsOrderly net → IsLawful net firings state → NoRing net firings state }
    ensures goes_on { (net : Net) (firings : ℕ) (state : List Turn)
        → IsNetwork net → IsOrderly net → IsLawful net firings state → GoesOn net firings state }
{}

/// In a network whose queues fit the firing order the modules of least progress fire in a cycle without stalls. So a
/// run of cycles ends in time.
pub fn cycles_end_in_time()
    ensures least { (net : Net) (firings : ℕ) (stalled : List Bool) (state : List Turn)
        → IsNetwork net → IsOrderly net → IsLawful net firings state → IsBetween state
        → list_any (λ flag. flag) stalled ≡ false → LeastFires net firings stalled state }
    ensures ends { (net : Net) (firings : ℕ) (stalls : List (List Bool))
        → IsNetwork net → IsOrderly net → EndsInTime net firings stalls }
{}

/// The queues of the example network fit the firing order where its reuse queue has the capacity 4, and don't where it
/// has the capacity 1.
pub fn capacity_decides()
    ensures network { (capacity : ℕ) → IsNetwork (two_reads capacity) }
    ensures four { IsOrderly (two_reads 4) }
    ensures one { IsOrderly (two_reads 1) → ⊥ }
{}

/// The lists of the queues at a module have each of its queues, those to it by port and those from it in queue order.
pub fn queues_stand_in_order()
    ensures to { (net : Net) (m : ℕ) → IsNetwork net → StandByPort net m }
    ensures from { (net : Net) (m : ℕ) → StandInOrder net m }
{}

/// A cycle visits each module once, in firing order.
pub fn cycles_visit_each_once()
    ensures { (net : Net) (firings : ℕ) (stalled : List Bool) (state : List Turn)
        → length state ≡ length net.modules → VisitsEachOnce net firings stalled state }
{}
