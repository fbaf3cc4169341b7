ghost use Rattle.std.specs.Prelude.{◌≡◌, ℕ, List};
ghost use Rattle.delay_net.specs.Shape.{IsNet};
ghost use Rattle.delay_net.specs.declared.net.Read.{Read};
ghost use Rattle.flow_solve.specs.LeastPlan.{HasLeastStorage, IsLeastPlan, lesser_delays};

/// The pointwise least of two assignments of least storage is one too, and no two plans differ.
pub fn least_plans_meet()
    ensures least { (weights : List ℕ) (reads : List Read) (first second : List ℕ) → HasLeastStorage weights reads first
        → HasLeastStorage weights reads second → HasLeastStorage weights reads (lesser_delays first second) }
    ensures one { (weights : List ℕ) (reads : List Read) (first second : List ℕ) → IsLeastPlan weights reads first
        → IsLeastPlan weights reads second → first ≡ second }
{}

/// Every net has a plan: among the assignments that meet the windows there is one of least storage that is pointwise at
/// most every other one of least storage.
pub fn plans_exist()
    ensures { (weights : List ℕ) (reads : List Read) → IsNet weights reads
        → (plan : List ℕ) × IsLeastPlan weights reads plan }
{}
