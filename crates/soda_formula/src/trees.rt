#![tactic(auto, using(crate::proofs::Tree::levels))]

ghost use Rattle.std.specs.Prelude.{◌≡◌, ℕ, ℤ, List, IfOk};
ghost use Rattle.soda_formula.specs.Terms.{literal, cell, value, unary, binary, choice, cast};
ghost use Rattle.soda_formula.specs.Tree.{term_of};

use crate::{NoMemory, Written};
use soda_words::{BinOp, UnOp, Word};
use sqlite_items::{Boxed, Items};
use std::alloc::Global;

pub(crate) fn number(n: u64) -> Written
    ensures { term_of result ≡ literal n }
{
    Written::Number(n)
}

pub(crate) fn cell(tensor: Word, offsets: Items<i128>) -> Written
    ensures { term_of result ≡ cell tensor offsets }
{
    Written::Cell { tensor, offsets }
}

pub(crate) fn value(param: Word, indexes: Items<u64>) -> Written
    ensures { term_of result ≡ value param indexes }
{
    Written::Value { param, indexes }
}

pub(crate) fn unary(alloc: Global, op: UnOp, operand: Written) -> Result<Written, NoMemory>
    ensures { IfOk result (λ w. term_of w ≡ unary op (term_of operand)) }
{
    Ok(Written::Unary(op, Boxed::new(alloc, operand)?))
}

pub(crate) fn binary(
    alloc: Global,
    op: BinOp,
    left: Written,
    right: Written,
) -> Result<Written, NoMemory>
    ensures { IfOk result (λ w. term_of w ≡ binary op (term_of left) (term_of right)) }
{
    let left = Boxed::new(alloc, left);
    let right = Boxed::new(alloc, right);
    Ok(Written::Binary(op, left?, right?))
}

pub(crate) fn choice(
    alloc: Global,
    test: Written,
    first: Written,
    second: Written,
) -> Result<Written, NoMemory>
    ensures { IfOk result (λ w. term_of w ≡ choice (term_of test) (term_of first) (term_of second)) }
{
    let test = Boxed::new(alloc, test);
    let first = Boxed::new(alloc, first);
    let second = Boxed::new(alloc, second);
    Ok(Written::Choice(test?, first?, second?))
}

pub(crate) fn cast(alloc: Global, word: Word, operand: Written) -> Result<Written, NoMemory>
    ensures { IfOk result (λ w. term_of w ≡ cast word (term_of operand)) }
{
    Ok(Written::Cast(word, Boxed::new(alloc, operand)?))
}
