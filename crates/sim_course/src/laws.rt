ghost use Rattle.std.specs.Prelude.{◌≡◌, ℕ, Bool, List};
ghost use Rattle.net_ir.specs.Nets.{Net};
ghost use Rattle.soda_ir.specs.Program.{PlainProgram};
ghost use Rattle.sim_course.specs.Course.{EndsAfter};
ghost use Rattle.sim_course.specs.Meeting.{MeetsFirst};

/// A simulation meets one fault first at most.
pub fn one_fault_is_met_first()
    ensures { (p : PlainProgram) (delays : List ℕ) (n : ℕ) (flags : ℕ → List Bool) (goods : ℕ → ℕ)
        (cycle m input later other another : ℕ) → MeetsFirst p delays n flags goods cycle m input
        → MeetsFirst p delays n flags goods later other another
        → (cycle ≡ later) × (m ≡ other) × (input ≡ another) }
{}

/// And it ends after one number of cycles at most.
pub fn runs_end_once()
    ensures { (net : Net) (firings : ℕ) (flags : ℕ → List Bool) (count other : ℕ)
        → EndsAfter net firings flags count → EndsAfter net firings flags other → count ≡ other }
{}
