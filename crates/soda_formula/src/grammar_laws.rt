ghost use Rattle.std.specs.Prelude.{◌≡◌, ℕ, List, [], ◌∷◌, ◌++◌};
ghost use Rattle.soda_words.specs.declared.symbol.Symbol.TheVariants.{EqualSign};
ghost use Rattle.soda_words.specs.declared.token.Placed.{Placed};
ghost use Rattle.soda_formula.specs.Terms.{Term};
ghost use Rattle.soda_formula.specs.Grammar.{IsFormula, symbol_on, name_on};
ghost use Rattle.soda_formula.specs.Reading.{BeginsFormula};

/// Some tokens are at most one formula.
pub fn formula_is_one()
    ensures { (ts : List Placed) (a b : Term) → IsFormula ts a → IsFormula ts b → a ≡ b }
{}

/// A formula has a token.
pub fn formula_is_some()
    ensures { (a : Term) → IsFormula [] a → ⊥ }
{}

/// A whole formula goes on with no name.
pub fn name_ends_formula()
    ensures { (ts : List Placed) (a : Term) (line : ℕ) (w : List ℕ)
        → IsFormula ts a → BeginsFormula (ts ++ name_on line w ∷ []) → ⊥ }
{}

/// `=` stands in no formula.
pub fn no_equals_sign()
    ensures { (before after : List Placed) (line : ℕ) → BeginsFormula (before ++ symbol_on line EqualSign ∷ after) → ⊥ }
{}
