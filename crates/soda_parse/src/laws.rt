ghost use Rattle.std.specs.Prelude.{◌≡◌, ℕ, List};
ghost use Rattle.soda_ir.specs.Program.{PlainProgram};
ghost use Rattle.soda_parse.specs.Text.{Accepts, Refuses};
ghost use Rattle.soda_parse.specs.declared.refusal.Refusal.{Refusal};

/// A text stands for one program at most, is refused for one cause at most, and never does both.
pub fn texts_are_one()
    ensures program { (most : ℕ) (bytes : List ℕ) (p q : PlainProgram) → Accepts most bytes p → Accepts most bytes q
        → p ≡ q }
    ensures cause { (most : ℕ) (bytes : List ℕ) (r s : Refusal) → Refuses most bytes r → Refuses most bytes s → r ≡ s }
    ensures apart { (most : ℕ) (bytes : List ℕ) (p : PlainProgram) (r : Refusal) → Accepts most bytes p
        → Refuses most bytes r → ⊥ }
{}
