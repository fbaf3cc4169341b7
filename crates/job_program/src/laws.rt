ghost use Rattle.std.specs.Prelude.{◌≡◌, ℕ, Bool, List};
ghost use Rattle.soda_ir.specs.Program.{PlainProgram};
ghost use Rattle.soda_parse.specs.declared.refusal.Refusal.{Refusal};
ghost use Rattle.job_program.specs.Spoken.{RefusesProgram, SpeaksOf};

use soda_parse::texts_are_one;

/// Of a text one program at most is spoken of, it is refused for one cause at most, and never both.
pub fn one_program_is_spoken_of()
    ensures program { (most : ℕ) (share : Bool) (bytes : List ℕ) (p q : PlainProgram) → SpeaksOf most share bytes p
        → SpeaksOf most share bytes q → p ≡ q }
    ensures cause { (most : ℕ) (share : Bool) (bytes : List ℕ) (r s : Refusal) → RefusesProgram most share bytes r
        → RefusesProgram most share bytes s → r ≡ s }
    ensures apart { (most : ℕ) (share : Bool) (bytes : List ℕ) (p : PlainProgram) (r : Refusal)
        → SpeaksOf most share bytes p → RefusesProgram most share bytes r → ⊥ }
{
    texts_are_one()
}
