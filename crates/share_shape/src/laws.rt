ghost use Rattle.std.specs.Prelude.{◌≡◌, ◌^◌, ◌<◌, ◌≤◌, ◌==◌, ◌↔◌, ℕ, List, ℤ, suc, false, true, None, Some, length, slice_index_or};
ghost use Rattle.soda_ir.specs.Formula.{Formula, every};
ghost use Rattle.soda_ir.specs.Program.{PlainProgram};
ghost use Rattle.soda_ir.specs.Valid.{IsSound, IsValid, names_of};
ghost use Rattle.soda_eval.specs.Runs.{defined_arrays, run_of};
ghost use Rattle.share_shape.specs.Compounds.{Site, sites};
ghost use Rattle.share_shape.specs.Limits.{limit_passed};
ghost use Rattle.share_shape.specs.Procedure.{is_used, next_shared, share_number, shared, shared_in};
ghost use Rattle.share_shape.specs.Shifts.{IsShiftEqual, are_shift_equal, has_cell};

/// The test for shift-equality says whether adding one vector to every offset of the one formula gives the other.
pub fn shifts_are_tested()
    ensures { (d : ℕ) (f g : Formula) → has_cell f ≡ true → every (λ t o. length o == d) f ≡ true → has_cell g ≡ true
        → every (λ t o. length o == d) g ≡ true → (are_shift_equal f g ≡ true) ↔ IsShiftEqual d f g }
{}

/// Sharing ends: each step leaves fewer compounds, behind the last one none is left to do, and more steps change
/// nothing.
pub fn sharing_ends()
    ensures fewer { (p q : PlainProgram) → next_shared p ≡ Some q → length (sites q) < length (sites p) }
    ensures last { (p : PlainProgram) → next_shared (shared p) ≡ None }
    ensures enough { (p : PlainProgram) (n : ℕ) → length (sites p) ≤ n → shared_in n p ≡ shared p }
{}

/// No two compounds of the result are shift-equal.
pub fn nothing_is_left_to_share()
    ensures { (p : PlainProgram) (s : Site) (i j : ℕ) → IsSound p → i < j → j < length (sites (shared p))
        → IsShiftEqual (suc (length (shared p).extents)) (slice_index_or (sites (shared p)) i s).compound
        (slice_index_or (sites (shared p)) j s).compound → ⊥ }
{}

/// Sharing keeps every output: over any inputs, rows and params it has the same cells, and the same region behind each
/// iteration.
pub fn sharing_keeps_the_arrays()
    ensures arrays { (p : PlainProgram) (rows : ℕ) (params : List ℤ) (inputs : List (List ℤ)) → IsSound p
        → defined_arrays (shared p) rows params inputs ≡ defined_arrays p rows params inputs }
    ensures runs { (p : PlainProgram) (rows : ℕ) (params : List ℤ) (inputs : List (List ℤ)) (t : ℕ) → IsSound p
        → run_of (shared p) rows params inputs t ≡ run_of p rows params inputs t }
{}

/// The number of a local's name is the least that gives a name that no param or tensor has.
pub fn names_are_new()
    ensures unused { (p : PlainProgram) → length (names_of p.params p.tensors) < 2 ^ 64
        → is_used (names_of p.params p.tensors) (share_number p) ≡ false }
    ensures smallest { (p : PlainProgram) (n : ℕ) → n < share_number p
        → is_used (names_of p.params p.tensors) n ≡ true }
{}

/// What sharing a valid program gives is a valid program, where it passes none of the limits on offsets, tensors, live
/// tensors and reads.
pub fn results_are_valid()
    ensures { (p : PlainProgram) → IsValid p → limit_passed (shared p) ≡ None → IsValid (shared p) }
{}
