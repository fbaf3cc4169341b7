ghost use Rattle.std.specs.Prelude.{◌≡◌, ◌≤◌, ℕ, List, ℤ, true, map, length};
ghost use Rattle.soda_ir.specs.Program.{PlainParam};
ghost use Rattle.param_lines.specs.Laws.{IsGivenOrRefused};
ghost use Rattle.soda_ir.specs.Valid.{are_free_names};
ghost use Rattle.param_lines.specs.Params.{GivesParams, RefusesLine, most_params};
ghost use Rattle.param_lines.specs.Written.{HaveValues, in_order, params_text};

/// A params file gives one list of values, or is refused at one line, and never both. So each answer of `read_params`
/// but want of memory comes exactly where its definition holds.
pub fn params_are_one()
    ensures one_list { (ps : List PlainParam) (bytes : List ℕ) (v w : List ℤ) → GivesParams ps bytes v
        → GivesParams ps bytes w → v ≡ w }
    ensures one_line { (ps : List PlainParam) (bytes : List ℕ) (k l : ℕ) → RefusesLine ps bytes k
        → RefusesLine ps bytes l → k ≡ l }
    ensures never_both { (ps : List PlainParam) (bytes : List ℕ) (v : List ℤ) (l : ℕ) → GivesParams ps bytes v
        → RefusesLine ps bytes l → ⊥ }
    ensures either { (ps : List PlainParam) (bytes : List ℕ) → IsGivenOrRefused ps bytes }
{}

/// The file that has a line for each param, in order, with its name and its values in decimal, gives these values: for
/// params of free names, none of them twice, and values in range, where the file isn't too long.
pub fn written_params_are_read()
    ensures { (ps : List PlainParam) (vss : List (List ℤ)) → are_free_names (map (λ q. q.name) ps) ≡ true
        → HaveValues ps vss → length (params_text ps vss) ≤ most_params
        → GivesParams ps (params_text ps vss) (in_order vss) }
{}
