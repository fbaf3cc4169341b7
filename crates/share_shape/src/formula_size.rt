ghost use Rattle.std.specs.Prelude.{◌≡◌};
ghost use Rattle.soda_ir.specs.Tree.{formula_of};
ghost use Rattle.share_shape.specs.Sizes.{joined, size};

use soda_ir::Expr;

/// The size of an operator, a call or a cast with parts of these sizes.
#[tactic(auto, unfolding(crate::specs::Sizes::joined))]
pub fn joined(a: u64, b: u64) -> u64
    ensures { result ≡ joined a b }
{
    a.wrapping_add(b).wrapping_add(1)
}

/// The size of a formula.
#[tactic(auto, using(soda_ir::proofs::CallerLemmas::levels))]
pub fn size(expr: &Expr) -> u64
    ensures { result ≡ size (formula_of expr.now) }
{
    match expr {
        Expr::Num(_) | Expr::Cell { .. } | Expr::Par { .. } => 1,
        Expr::Un(_, a) => joined(0, size(a.get())),
        Expr::Bin(_, a, b) => joined(size(a.get()), size(b.get())),
        Expr::Select(c, a, b) => joined(size(c.get()), joined(size(a.get()), size(b.get()))),
        Expr::Cast(_, a) => joined(0, size(a.get())),
    }
}
