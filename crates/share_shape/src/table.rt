ghost use Rattle.std.specs.Prelude.{◌≡◌, ◌==◌, ◌+◌, ◌&&◌, ℕ, min, nat_eq, nat_le, is_some, map, option_map, Some, unwrap_or, IfOk, OnOk, if◌then◌else◌};
ghost use Rattle.std.specs.HashMap.{get};
ghost use Rattle.soda_words.specs.Tokens.{or_else};
ghost use Rattle.soda_ir.specs.Program.{plain_tensor};
ghost use Rattle.soda_ir.specs.Tree.{formula_of};
ghost use Rattle.share_shape.specs.Compounds.{compounds};
ghost use Rattle.share_shape.specs.Counts.{total};
ghost use Rattle.share_shape.specs.machine.Marks.{first_of, is_repeated, mark, mark_hits, tensor_marks};
ghost use Rattle.share_shape.specs.machine.Search.{first_passing};

use crate::NoMemory;
use crate::marks::{Marked, of_binary, of_cast, of_cell, of_choice, of_number, of_param, of_unary};
use soda_ir::{Expr, Tensor};
use std::alloc::Global;
use std::collections::HashMap;

// How often a mark was counted.
fn count_of(counts: &HashMap<u64, u64>, mark: u64) -> u64
    ensures { result ≡ unwrap_or (get nat_eq counts.now mark) 0 }
{
    match counts.get(&mark) {
        Some(count) => *count,
        None => 0,
    }
}

// Counts the mark of a formula with a cell.
fn note(marked: &Marked, counts: &mut HashMap<u64, u64>) -> Result<(), NoMemory>
    ensures { OnOk result ((q : ℕ) → min 2 (unwrap_or (get nat_eq counts.new q) 0)
        ≡ min 2 (unwrap_or (get nat_eq counts.old q) 0
        + (if is_some (option_map (λ o. o.now.items) marked.now.first) && marked.now.mark == q then 1 else 0))) }
{
    if marked.first.is_none() {
        return Ok(());
    }
    let count = count_of(counts, marked.mark).saturating_add(1);
    match counts.insert(marked.mark, count) {
        Ok(_) => Ok(()),
        Err(_) => Err(NoMemory),
    }
}

/// Counts the marks of the operators, calls and casts of a formula that have a cell.
#[tactic(auto, using(soda_ir::proofs::CallerLemmas::levels))]
pub(crate) fn tally<'a>(
    expr: &'a Expr,
    counts: &mut HashMap<u64, u64>,
) -> Result<Marked<'a>, NoMemory>
    ensures mark { IfOk result (λ m. m.mark ≡ mark (formula_of expr.now)) }
    ensures first { IfOk result (λ m. option_map (λ o. o.now.items) m.first ≡ first_of (formula_of expr.now)) }
    ensures counted { OnOk result ((q : ℕ) → min 2 (unwrap_or (get nat_eq counts.new q) 0)
        ≡ min 2 (unwrap_or (get nat_eq counts.old q) 0 + mark_hits q (formula_of expr.now))) }
{
    match expr {
        Expr::Num(n) => Ok(of_number(*n)),
        Expr::Cell { tensor, offset } => Ok(of_cell(*tensor, offset)),
        Expr::Par { param, place } => Ok(of_param(*param, *place)),
        Expr::Un(op, a) => {
            let a = tally(a.get(), counts)?;
            let marked = of_unary(*op, &a);
            note(&marked, counts)?;
            Ok(marked)
        }
        Expr::Bin(op, a, b) => {
            let a = tally(a.get(), counts)?;
            let b = tally(b.get(), counts)?;
            let marked = of_binary(*op, &a, &b);
            note(&marked, counts)?;
            Ok(marked)
        }
        Expr::Select(c, a, b) => {
            let c = tally(c.get(), counts)?;
            let a = tally(a.get(), counts)?;
            let b = tally(b.get(), counts)?;
            let marked = of_choice(&c, &a, &b);
            note(&marked, counts)?;
            Ok(marked)
        }
        Expr::Cast(ty, a) => {
            let a = tally(a.get(), counts)?;
            let marked = of_cast(*ty, &a);
            note(&marked, counts)?;
            Ok(marked)
        }
    }
}

// Whether the mark of a formula was counted twice, and it has a cell.
fn is_repeated(marked: &Marked, counts: &HashMap<u64, u64>) -> bool
    ensures { result ≡ (is_some (option_map (λ o. o.now.items) marked.now.first)
        && nat_le 2 (unwrap_or (get nat_eq counts.now marked.now.mark) 0)) }
{
    marked.first.is_some() && count_of(counts, marked.mark) >= 2
}

// A formula where it is one that is wanted, and else what was found in it.
fn chosen<'a>(wanted: bool, expr: &'a Expr, inside: Option<&'a Expr>) -> Option<&'a Expr>
    ensures { option_map (λ c. formula_of c.now) result ≡ (if wanted then Some (formula_of expr.now)
        else option_map (λ c. formula_of c.now) inside.entry) }
{
    if wanted { Some(expr) } else { inside }
}

// The first of two that were found.
fn first<'a>(a: Option<&'a Expr>, b: Option<&'a Expr>) -> Option<&'a Expr>
    ensures { option_map (λ c. formula_of c.now) result
        ≡ or_else (option_map (λ c. formula_of c.now) a.entry) (option_map (λ c. formula_of c.now) b.entry) }
{
    match a {
        Some(a) => Some(a),
        None => b,
    }
}

/// A formula's mark, and its first compound whose mark was counted twice: from the outside in, and from left to right.
#[tactic(auto, using(crate::proofs::Search::levels, crate::proofs::Search::append, crate::proofs::Tables::marked))]
pub(crate) fn candidate<'a>(
    expr: &'a Expr,
    counts: &HashMap<u64, u64>,
) -> (Marked<'a>, Option<&'a Expr>)
    ensures mark { result.0.mark ≡ mark (formula_of expr.now) }
    ensures first { option_map (λ o. o.now.items) result.0.first ≡ first_of (formula_of expr.now) }
    ensures found { option_map (λ c. formula_of c.now) result.1
        ≡ first_passing (is_repeated (λ q. unwrap_or (get nat_eq counts.now q) 0)) (compounds (formula_of expr.now)) }
{
    match expr {
        Expr::Num(n) => (of_number(*n), None),
        Expr::Cell { tensor, offset } => (of_cell(*tensor, offset), None),
        Expr::Par { param, place } => (of_param(*param, *place), None),
        Expr::Un(op, a) => {
            let (a, inside) = candidate(a.get(), counts);
            let marked = of_unary(*op, &a);
            let found = chosen(is_repeated(&marked, counts), expr, inside);
            (marked, found)
        }
        Expr::Bin(op, a, b) => {
            let (a, left) = candidate(a.get(), counts);
            let (b, right) = candidate(b.get(), counts);
            let marked = of_binary(*op, &a, &b);
            let found = chosen(is_repeated(&marked, counts), expr, first(left, right));
            (marked, found)
        }
        Expr::Select(c, a, b) => {
            let (c, test) = candidate(c.get(), counts);
            let (a, left) = candidate(a.get(), counts);
            let (b, right) = candidate(b.get(), counts);
            let marked = of_choice(&c, &a, &b);
            let found = chosen(
                is_repeated(&marked, counts),
                expr,
                first(test, first(left, right)),
            );
            (marked, found)
        }
        Expr::Cast(ty, a) => {
            let (a, inside) = candidate(a.get(), counts);
            let marked = of_cast(*ty, &a);
            let found = chosen(is_repeated(&marked, counts), expr, inside);
            (marked, found)
        }
    }
}

// Counts the marks of a tensor's formula, if it has one.
fn tally_tensor(tensor: &Tensor, counts: &mut HashMap<u64, u64>) -> Result<(), NoMemory>
    ensures { OnOk result ((q : ℕ) → min 2 (unwrap_or (get nat_eq counts.new q) 0)
        ≡ min 2 (unwrap_or (get nat_eq counts.old q) 0 + tensor_marks q (plain_tensor tensor.now))) }
{
    match &tensor.formula {
        Some(formula) => {
            tally(formula, counts)?;
            Ok(())
        }
        None => Ok(()),
    }
}

/// How often each mark stands in these tensors' formulas.
pub(crate) fn counted(alloc: Global, tensors: &[Tensor]) -> Result<HashMap<u64, u64>, NoMemory>
    ensures { IfOk result (λ counts. (q : ℕ) → min 2 (unwrap_or (get nat_eq counts q) 0)
        ≡ min 2 (total (tensor_marks q) (map plain_tensor tensors.now))) }
{
    let mut counts = HashMap::new(alloc);
    for tensor in tensors {
        tally_tensor(tensor, &mut counts)?;
    }
    Ok(counts)
}
