ghost use Rattle.std.specs.Prelude.{◌≡◌, List};
ghost use Rattle.soda_syntax.specs.Grammar.{AreStatements};
ghost use Rattle.soda_formula.specs.Statements.{PlainStatement};
ghost use Rattle.soda_words.specs.declared.token.Placed.{Placed};

/// Tokens are the statements of one list at most.
pub fn statements_are_one()
    ensures { (ts : List Placed) (ss rs : List PlainStatement) → AreStatements ts ss → AreStatements ts rs → ss ≡ rs }
{}
