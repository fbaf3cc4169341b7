ghost use Rattle.std.specs.Prelude.{◌≡◌, ◌<◌, Bool, true, ℕ, List, ℤ, pos, ◌+ℤ◌, unsigned_abs, length, Some, slice_index_or, if◌then◌else◌};
ghost use Rattle.int_types.specs.Ranges.{InRange, wrapped};
ghost use Rattle.soda_words.specs.IntType.{int32};
ghost use Rattle.soda_ir.specs.Counts.{formula_in, is_input};
ghost use Rattle.soda_ir.specs.Program.{PlainProgram, input_types};
ghost use Rattle.soda_ir.specs.Valid.{IsSound, output_types};
ghost use Rattle.soda_eval.specs.Runs.{HasArrays, HasValues, cells_at, defined_arrays, place_types, run_of, scope_of, stencil_of};
ghost use Rattle.soda_ir.specs.Points.{size, linear};
ghost use Rattle.soda_eval.specs.Points.{in_box, point, moved};
ghost use Rattle.soda_eval.specs.Arrays.{Stencil, Given, IsPlaced, IsMeaning, in_region, cell, formula_at, type_at, outside_cell, array_cell};
ghost use Rattle.soda_ir.specs.Formula.{Formula};
ghost use Rattle.soda_eval.specs.Values.{IsReadable, valued};

/// Where tensors can be placed, the regions and cells are as the sentences say.
pub fn arrays_are_defined()
    ensures { (s : Stencil) (g : Given) (params : List ℤ) (rank : ℕ → ℕ) (k : ℕ) → IsPlaced s rank
        → ((y : ℕ) → rank y < k) → IsMeaning s g params (in_region s g k) (cell s g params k) }
{}

/// No other cells are as the sentences say.
pub fn arrays_are_one()
    ensures { (s : Stencil) (g : Given) (params : List ℤ) (rank : ℕ → ℕ) (k : ℕ) (region : ℕ → List ℤ → Bool)
        (value : ℕ → List ℤ → ℤ) → IsPlaced s rank → ((y : ℕ) → rank y < k) → IsMeaning s g params region value
        → (x : ℕ) (p : List ℤ) → value x p ≡ cell s g params k x p }
{}

/// Cell numbers and the points of the box belong to each other.
pub fn points_are_numbered()
    ensures there { (ns : List ℕ) (i : ℕ) → i < size ns → (in_box ns (point ns i) ≡ true)
        × (linear ns (point ns i) ≡ pos i) }
    ensures back { (ns : List ℕ) (p : List ℤ) → in_box ns p ≡ true → (linear ns p ≡ pos (unsigned_abs (linear ns p)))
        × (unsigned_abs (linear ns p) < size ns) × (point ns (unsigned_abs (linear ns p)) ≡ p) }
    ensures moves { (ns : List ℕ) (p o : List ℤ) → length p ≡ length ns → length o ≡ length ns → linear ns (moved p o)
        ≡ linear ns p +ℤ linear ns o }
{}

/// A cell comes from what any store holds of the cells that it reads.
pub fn cell_from_any_store()
    ensures cell { (s : Stencil) (g : Given) (params : List ℤ) (region : ℕ → List ℤ → Bool) (value : ℕ → List ℤ → ℤ)
        → IsMeaning s g params region value → (store : ℕ → List ℤ → ℤ) (f : Formula) (p : List ℤ) (x : ℕ)
        → formula_at s x ≡ Some f → ((y : ℕ) (o : List ℤ) → region y (moved p o) ≡ true → value y (moved p o)
        ≡ store y o) → value x p ≡ (if region x p then wrapped (type_at s x) (valued s.scope store params f)
        else outside_cell s g x p) }
    ensures array { (ns : List ℕ) (value : List ℤ → ℤ) (array : List ℤ)
        → ((i : ℕ) → i < size ns → slice_index_or array i (pos 0) ≡ value (point ns i)) → (q : List ℤ) → in_box ns q
        ≡ true → array_cell ns array q ≡ value q }
{}

/// Every valid program has a meaning, and one alone: at any rows, over any inputs, the regions and cells of its tensors
/// are as the two sentences say, and no others are.
pub fn programs_have_meaning()
    ensures defined { (p : PlainProgram) (rows : ℕ) (g : Given) (params : List ℤ) → IsSound p
        → IsMeaning (stencil_of p rows) g params (in_region (stencil_of p rows) g (length p.tensors))
        (cell (stencil_of p rows) g params (length p.tensors)) }
    ensures one { (p : PlainProgram) (rows : ℕ) (g : Given) (params : List ℤ) (region : ℕ → List ℤ → Bool)
        (value : ℕ → List ℤ → ℤ) → IsSound p → IsMeaning (stencil_of p rows) g params region value
        → (x : ℕ) (q : List ℤ) → (region x q ≡ in_region (stencil_of p rows) g (length p.tensors) x q)
        × (value x q ≡ cell (stencil_of p rows) g params (length p.tensors) x q) }
{}

/// Each defined cell is in the range of its tensor's type, where the cells of the inputs are; so are the inputs of
/// every iteration and the output arrays, over input arrays in range.
pub fn cells_are_in_range()
    ensures cell { (p : PlainProgram) (rows : ℕ) (g : Given) (params : List ℤ) → IsSound p
        → ((j : ℕ) (q : List ℤ) → is_input p j ≡ true → InRange (type_at (stencil_of p rows) j) (g.cell j q))
        → (x : ℕ) (q : List ℤ) → x < length p.tensors
        → InRange (type_at (stencil_of p rows) x) (cell (stencil_of p rows) g params (length p.tensors) x q) }
    ensures inputs { (p : PlainProgram) (rows : ℕ) (params : List ℤ) (inputs : List (List ℤ)) (t : ℕ) → IsSound p
        → HasArrays (cells_at p rows) (input_types p.tensors) inputs → t < p.iterate
        → (j : ℕ) (q : List ℤ) → is_input p j ≡ true
        → InRange (type_at (stencil_of p rows) j) ((run_of p rows params inputs t).cell j q) }
    ensures arrays { (p : PlainProgram) (rows : ℕ) (params : List ℤ) (inputs : List (List ℤ)) → IsSound p
        → HasArrays (cells_at p rows) (input_types p.tensors) inputs
        → HasArrays (cells_at p rows) (output_types p.tensors) (defined_arrays p rows params inputs) }
{}

/// What evaluation asks of a formula holds in every valid program, where the params and the cells are in range.
pub fn formulas_are_readable()
    ensures { (p : PlainProgram) (x : ℕ) (f : Formula) (cells : ℕ → List ℤ → ℤ) (params : List ℤ) → IsSound p
        → formula_in p x ≡ Some f → HasValues (place_types p.params) params
        → ((y : ℕ) (o : List ℤ) → y < length p.tensors
        → InRange (slice_index_or (scope_of p).tensors y int32) (cells y o))
        → IsReadable (scope_of p) cells params f }
{}
