ghost use Rattle.std.specs.Prelude.{◌≡◌, ◌≤◌, length, min};
ghost use Rattle.soda_ir.specs.Program.{plain};
ghost use Rattle.soda_ir.specs.Tree.{formula_of};
ghost use Rattle.soda_ir.specs.Written.{call_pairs, index_count, least_bare, level_of, most_open, operator_tokens, pairs_round, token_count};

use crate::expr::Expr;
use crate::program::Parts;
use soda_words::{OPERAND_LEVEL, PREFIX_LEVEL};

// No formula of so many tokens is told from a larger one.
const MANY: u64 = 10_000;

// The level of a call.
const CALL: u64 = OPERAND_LEVEL as u64;

// The level that a prefix operator asks of its operand.
const PREFIX: u64 = PREFIX_LEVEL as u64;

#[tactic(auto, using(crate::proofs::CallerLemmas::levels))]
fn level_of(expr: &Expr) -> u64
    ensures { result ≡ level_of (formula_of expr.now) }
{
    match expr {
        Expr::Num(_) | Expr::Cell { .. } | Expr::Par { .. } => CALL,
        Expr::Un(op, _) => op.level() as u64,
        Expr::Bin(op, _, _) => op.level() as u64,
        Expr::Select(_, _, _) | Expr::Cast(_, _) => CALL,
    }
}

/// How many pairs of brackets stand round an operand of an operator of this level that asks for such a one: 0 or 1.
pub fn pairs_round(operator: u64, asked: u64, operand: &Expr) -> u64
    ensures value { result ≡ pairs_round (least_bare operator asked) (formula_of operand.now) }
    ensures most { result ≤ 1 }
{
    if operator != CALL && level_of(operand) < asked {
        1
    } else {
        0
    }
}

fn operator_tokens(level: u64, call: u64) -> u64
    requires { call ≤ 5 }
    ensures value { result ≡ operator_tokens level call }
    ensures most { result ≤ 5 }
{
    if level == CALL { call } else { 1 }
}

fn call_pairs(level: u64) -> u64
    ensures value { result ≡ call_pairs level }
    ensures most { result ≤ 1 }
{
    if level == CALL { 1 } else { 0 }
}

// How many tokens a formula has as it is written, without the minus signs of offsets.
#[tactic(auto, using(crate::proofs::CallerLemmas::levels))]
pub(crate) fn token_count(parts: &Parts, expr: &Expr) -> u64
    ensures { result ≡ min (token_count (plain parts.now) (formula_of expr.now)) 10000 }
{
    match expr {
        Expr::Num(_) => 1,
        Expr::Cell { offset, .. } => (2 + 2 * offset.len() as u64).min(MANY),
        Expr::Par { param, .. } => (1 + 3 * parts.index_count(*param).min(MANY)).min(MANY),
        Expr::Un(op, a) => {
            let level = op.level() as u64;
            let round = 2 * pairs_round(level, PREFIX, a.get());
            (operator_tokens(level, 3) + round + token_count(parts, a.get())).min(MANY)
        }
        Expr::Bin(op, a, b) => {
            let level = op.level() as u64;
            let left = 2 * pairs_round(level, level, a.get()) + token_count(parts, a.get());
            let right = 2 * pairs_round(level, level + 1, b.get()) + token_count(parts, b.get());
            (operator_tokens(level, 4) + left + right).min(MANY)
        }
        Expr::Select(c, a, b) => {
            let first = 5 + token_count(parts, c.get());
            (first + token_count(parts, a.get()) + token_count(parts, b.get())).min(MANY)
        }
        Expr::Cast(_, a) => (3 + token_count(parts, a.get())).min(MANY),
    }
}

// How many brackets are open at once in a formula as it is written.
#[tactic(auto, using(crate::proofs::CallerLemmas::levels))]
pub(crate) fn most_open(parts: &Parts, expr: &Expr) -> u64
    ensures { result ≡ min (most_open (plain parts.now) (formula_of expr.now)) 10000 }
{
    match expr {
        Expr::Num(_) => 0,
        Expr::Cell { .. } => 1,
        Expr::Par { param, .. } => parts.index_count(*param).min(1),
        Expr::Un(op, a) => {
            let level = op.level() as u64;
            let round = call_pairs(level) + pairs_round(level, PREFIX, a.get());
            (round + most_open(parts, a.get())).min(MANY)
        }
        Expr::Bin(op, a, b) => {
            let level = op.level() as u64;
            let left = pairs_round(level, level, a.get()) + most_open(parts, a.get());
            let right = pairs_round(level, level + 1, b.get()) + most_open(parts, b.get());
            (call_pairs(level) + left.max(right)).min(MANY)
        }
        Expr::Select(c, a, b) => {
            let last = most_open(parts, a.get()).max(most_open(parts, b.get()));
            (1 + most_open(parts, c.get()).max(last)).min(MANY)
        }
        Expr::Cast(_, a) => (1 + most_open(parts, a.get())).min(MANY),
    }
}
