ghost use Rattle.std.specs.Prelude.{◌≡◌, ◌==◌, ℕ, ◌-◌, ◌<◌, ◌≤◌, ◌++◌, ◌∷◌, ◌&&◌, ◌||◌, Bool, true, false, not, All, List, ℤ, Some, filter, length, map, slice_get};
ghost use Rattle.std.specs.List.{list_any};
ghost use Rattle.std.specs.Ordering.{int_eq};
ghost use Rattle.delay_net.specs.Shape.{IsNet, IsWidth};
ghost use Rattle.soda_ir.specs.Counts.{
  can_be_placed,
  does_read,
  formula_in,
  is_input,
  is_needed,
  live_count,
  read_count,
  some_below,
  tensor_is,
  tensor_reads,
};
ghost use Rattle.soda_ir.specs.Formula.{Formula, by_formula, every};
ghost use Rattle.soda_ir.specs.Program.{PlainProgram};
ghost use Rattle.soda_ir.specs.Valid.{IsSound, IsValid};
ghost use Rattle.time_stages.specs.declared.margins.Margins.{Margins};
ghost use Rattle.time_stages.specs.Margins.{dims_of, formula_margins, margins_over, needed};
ghost use Rattle.time_stages.specs.Placing.{is_among, is_there, placing_order};
ghost use Rattle.time_stages.specs.declared.staging.StagedTensor.{StagedTensor};
ghost use Rattle.time_stages.specs.Staged.{
  number_read,
  read_by,
  reads_of,
  source_of,
  staged_reads,
  staged_tensor,
  staged_tensors,
  staged_widths,
};

/// The placing order of a valid program has each local and output once, and each behind all that it reads but inputs.
pub fn placing_is_good()
    ensures all { (p : PlainProgram) (x : ℕ) → IsSound p → x < length p.tensors
        → is_among x (placing_order p) ≡ not (is_input p x) }
    ensures behind { (p : PlainProgram) (before after : List ℕ) (x : ℕ) (f : Formula)
        → placing_order p ≡ before ++ x ∷ after → formula_in p x ≡ Some f
        → every (λ y o. is_there p before y) f ≡ true }
    ensures once { (p : PlainProgram) (before after : List ℕ) (x : ℕ) → placing_order p ≡ before ++ x ∷ after
        → is_among x before ≡ false }
{}

/// The margins of a tensor of a valid program are those that its reads need, and no other margins are so. They come
/// from the margins of the inputs alone.
pub fn margins_are_defined()
    ensures reads { (p : PlainProgram) (inputs : ℕ → Margins) (x : ℕ) → IsSound p → x < length p.tensors
        → margins_over p inputs (length p.tensors) x ≡ by_formula (formula_in p x) (inputs x)
        (formula_margins (dims_of p) (λ y o. needed (margins_over p inputs (length p.tensors) y) o)) }
    ensures one { (p : PlainProgram) (inputs margins : ℕ → Margins) → IsSound p
        → ((x : ℕ) → x < length p.tensors → margins x ≡ by_formula (formula_in p x) (inputs x)
        (formula_margins (dims_of p) (λ y o. needed (margins y) o)))
        → (x : ℕ) → x < length p.tensors → margins x ≡ margins_over p inputs (length p.tensors) x }
    ensures inputs { (p : PlainProgram) (a b : ℕ → Margins) (x : ℕ) → IsSound p → x < length p.tensors
        → ((j : ℕ) → is_input p j ≡ true → a j ≡ b j)
        → margins_over p a (length p.tensors) x ≡ margins_over p b (length p.tensors) x }
{}

/// As many rounds as there are tensors are enough: a tensor can be placed exactly where it is there and all that it
/// reads can be, and is needed exactly where it is wanted or a tensor that is needed reads it.
pub fn rounds_are_enough()
    ensures placed { (p : PlainProgram) (x : ℕ) → can_be_placed p x
        ≡ tensor_is (λ t. by_formula t.formula true (every (λ y o. can_be_placed p y))) p x }
    ensures needed { (p : PlainProgram) (wanted : ℕ → Bool) (x : ℕ) → x < length p.tensors → is_needed p wanted x
        ≡ (wanted x || some_below (λ y. is_needed p wanted y && does_read p y x) (length p.tensors)) }
{}

/// There are as many staged tensors and reads as the counts say that the limits are about.
pub fn counts_are_lengths()
    ensures live { (p : PlainProgram) → IsSound p → length (staged_tensors p) ≡ live_count p }
    ensures reads { (p : PlainProgram) → IsSound p → length (staged_reads p) ≡ read_count p }
{}

/// The staged program of a valid program makes a net, where each type has a width: each read is of an earlier tensor by
/// a later one, at a small offset.
pub fn staging_makes_a_net()
    ensures { (p : PlainProgram) → IsValid p → All IsWidth (staged_widths p)
        → IsNet (staged_widths p) (staged_reads p) }
{}

/// Each staged tensor is one of the program's in one of its iterations, and has the margins of that iteration.
pub fn staged_tensors_keep_margins()
    ensures margins { (p : PlainProgram) (v : ℕ) (s : StagedTensor) → slice_get (staged_tensors p) v ≡ Some s
        → s ≡ staged_tensor p (s.turn - 1) s.tensor }
    ensures turns { (p : PlainProgram) (v : ℕ) (s : StagedTensor) → IsSound p → slice_get (staged_tensors p) v ≡ Some s
        → (1 ≤ s.turn) × (s.turn ≤ p.iterate) × (s.tensor < length p.tensors) }
{}

/// What a staged tensor reads is staged before it, and each read of its formula is one of its reads, which stand in
/// order among those of all.
pub fn reads_are_staged()
    ensures sources { (p : PlainProgram) (v : ℕ) (s : StagedTensor) (y : ℕ) → IsSound p
        → slice_get (staged_tensors p) v ≡ Some s → does_read p s.tensor y ≡ true
        → (number_read p (staged_tensors p) s.turn y < v)
        × (slice_get (staged_tensors p) (number_read p (staged_tensors p) s.turn y) ≡ Some (source_of p s.turn y)) }
    ensures reads { (p : PlainProgram) (v : ℕ) (s : StagedTensor) → slice_get (staged_tensors p) v ≡ Some s
        → filter (λ r. r.reader == v) (staged_reads p) ≡ map (read_by v) (reads_of p (staged_tensors p) s) }
    ensures each { (p : PlainProgram) (s : StagedTensor) (y : ℕ) (d : ℤ)
        → list_any (λ r. r.of == y && int_eq r.offset d) (tensor_reads p s.tensor) ≡ true
        → list_any (λ r. r.of == number_read p (staged_tensors p) s.turn y && int_eq r.offset d)
        (reads_of p (staged_tensors p) s) ≡ true }
{}
