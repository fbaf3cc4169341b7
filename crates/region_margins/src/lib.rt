//! The region of a tensor is where its margins are kept: a law of the arrays that a program defines.
#![tactic(auto)]

ghost use Rattle.std.specs.Prelude.{◌≡◌, ℕ, ◌<◌, List, ℤ, length};
ghost use Rattle.soda_ir.specs.Program.{PlainProgram, extents_at};
ghost use Rattle.soda_ir.specs.Valid.{IsSound};
ghost use Rattle.soda_eval.specs.Arrays.{in_region};
ghost use Rattle.soda_eval.specs.Runs.{run_of, stencil_of};
ghost use Rattle.time_stages.specs.Margins.{keeps_away, margins_of};

/// A point is in the region of a tensor exactly where it keeps the tensor's margins, in every iteration.
pub fn regions_keep_margins()
    ensures { (p : PlainProgram) (rows : ℕ) (params : List ℤ) (inputs : List (List ℤ)) (t x : ℕ) (q : List ℤ)
        → IsSound p → x < length p.tensors
        → in_region (stencil_of p rows) (run_of p rows params inputs t) (length p.tensors) x q
        ≡ keeps_away (extents_at p rows) (margins_of p t x).low (margins_of p t x).high q }
{}
