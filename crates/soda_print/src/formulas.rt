ghost use Rattle.std.specs.Prelude.{◌≡◌, ◌++◌, OnOk};
ghost use Rattle.soda_ir.specs.Program.{plain};
ghost use Rattle.soda_ir.specs.Tree.{formula_of};
ghost use Rattle.soda_print.specs.Canonical.{indexes, indexes_text, tensor_name, value_text};
ghost use Rattle.soda_print.specs.Sized.{IsSized};
ghost use Rattle.soda_print.specs.machine.Held.{held_formula};
ghost use Rattle.soda_print.specs.machine.Steps.{binary_begin, binary_end, binary_middle, unary_begin, unary_end};

use crate::NoMemory;
use crate::text::{add, add_indexes, add_number, add_offset, add_type, close, open};
use soda_ir::{Expr, Parts, pairs_round};
use soda_words::{BinOp, OPERAND_LEVEL, PREFIX_LEVEL, UnOp};
use std::alloc::Global;

// Adds the name of a tensor.
#[tactic(auto, unfolding(crate::specs::Canonical::tensor_name))]
fn add_tensor_name(text: &mut Vec<u8>, parts: &Parts, tensor: u32) -> Result<(), NoMemory>
    ensures { OnOk result (text.new.items ≡ text.old.items ++ tensor_name (plain parts.now) tensor) }
{
    match parts.tensors.get(tensor as usize) {
        Some(tensor) => add(text, tensor.name.as_slice()),
        None => add(text, b""),
    }
}

// Adds the indexes of a place, in square brackets.
fn add_place(alloc: Global, text: &mut Vec<u8>, sizes: &[u64], place: u64) -> Result<(), NoMemory>
    ensures { OnOk result (text.new.items ≡ text.old.items ++ indexes_text (indexes sizes.now place)) }
{
    match sizes {
        [] => add(text, b""),
        [_] => add_indexes(alloc, text, &[place]),
        [_, last, ..] => {
            let last = *last;
            if last == 0 {
                add(text, b"")
            } else {
                add_indexes(alloc, text, &[place / last, place % last])
            }
        }
    }
}

// Adds a param's value at a place.
#[tactic(auto, using(crate::proofs::Appended::appended), unfolding(crate::specs::Canonical::value_text))]
fn add_value(
    alloc: Global,
    text: &mut Vec<u8>,
    parts: &Parts,
    param: u32,
    place: u32,
) -> Result<(), NoMemory>
    ensures { OnOk result (text.new.items ≡ text.old.items ++ value_text (plain parts.now) param place) }
{
    match parts.params.get(param as usize) {
        Some(param) => {
            add(text, param.name.as_slice())?;
            add_place(alloc, text, param.sizes.as_slice(), place as u64)
        }
        None => add(text, b""),
    }
}

// Adds what stands in front of the operand of an operator.
#[tactic(auto, using(crate::proofs::Appended::appended), unfolding(crate::specs::machine::Steps::unary_begin))]
fn begin_unary(text: &mut Vec<u8>, op: UnOp, pairs: u64) -> Result<(), NoMemory>
    ensures { OnOk result (text.new.items ≡ text.old.items ++ unary_begin op pairs) }
{
    add(text, op.spelling())?;
    if op.level() == OPERAND_LEVEL {
        add(text, b"(")
    } else {
        open(text, pairs)
    }
}

// Adds what stands behind the operand of an operator.
#[tactic(auto, using(crate::proofs::Appended::appended), unfolding(crate::specs::machine::Steps::unary_end))]
fn end_unary(text: &mut Vec<u8>, op: UnOp, pairs: u64) -> Result<(), NoMemory>
    ensures { OnOk result (text.new.items ≡ text.old.items ++ unary_end op pairs) }
{
    if op.level() == OPERAND_LEVEL {
        add(text, b")")
    } else {
        close(text, pairs)
    }
}

// Adds what stands in front of the left operand of an operator.
#[tactic(auto, using(crate::proofs::Appended::appended), unfolding(crate::specs::machine::Steps::binary_begin))]
fn begin_binary(text: &mut Vec<u8>, op: BinOp, left: u64) -> Result<(), NoMemory>
    ensures { OnOk result (text.new.items ≡ text.old.items ++ binary_begin op left) }
{
    if op.level() == OPERAND_LEVEL {
        add(text, op.spelling())?;
        add(text, b"(")
    } else {
        open(text, left)
    }
}

// Adds what stands between the operands of an operator.
#[tactic(auto, using(crate::proofs::Appended::appended), unfolding(crate::specs::machine::Steps::binary_middle))]
fn part_binary(text: &mut Vec<u8>, op: BinOp, left: u64, right: u64) -> Result<(), NoMemory>
    ensures { OnOk result (text.new.items ≡ text.old.items ++ binary_middle op left right) }
{
    if op.level() == OPERAND_LEVEL {
        add(text, b", ")
    } else {
        close(text, left)?;
        add(text, b" ")?;
        add(text, op.spelling())?;
        add(text, b" ")?;
        open(text, right)
    }
}

// Adds what stands behind the right operand of an operator.
#[tactic(auto, using(crate::proofs::Appended::appended), unfolding(crate::specs::machine::Steps::binary_end))]
fn end_binary(text: &mut Vec<u8>, op: BinOp, right: u64) -> Result<(), NoMemory>
    ensures { OnOk result (text.new.items ≡ text.old.items ++ binary_end op right) }
{
    if op.level() == OPERAND_LEVEL {
        add(text, b")")
    } else {
        close(text, right)
    }
}

/// Adds a formula.
#[tactic(auto, using(crate::proofs::Operators::written))]
pub(crate) fn add_formula(
    alloc: Global,
    text: &mut Vec<u8>,
    parts: &Parts,
    formula: &Expr,
) -> Result<(), NoMemory>
    ensures adds { OnOk result (text.new.items ≡ text.old.items ++ held_formula parts.now formula.now) }
    ensures sized { OnOk result (IsSized (formula_of formula.now)) }
{
    match formula {
        Expr::Num(n) => add_number(alloc, text, *n),
        Expr::Cell { tensor, offset } => {
            add_tensor_name(text, parts, *tensor)?;
            add_offset(alloc, text, offset.as_slice())
        }
        Expr::Par { param, place } => add_value(alloc, text, parts, *param, *place),
        Expr::Un(op, a) => {
            let pairs = pairs_round(op.level() as u64, PREFIX_LEVEL as u64, a.get());
            begin_unary(text, *op, pairs)?;
            add_formula(alloc, text, parts, a.get())?;
            end_unary(text, *op, pairs)
        }
        Expr::Bin(op, a, b) => {
            let level = op.level() as u64;
            let left = pairs_round(level, level, a.get());
            let right = pairs_round(level, level + 1, b.get());
            begin_binary(text, *op, left)?;
            add_formula(alloc, text, parts, a.get())?;
            part_binary(text, *op, left, right)?;
            add_formula(alloc, text, parts, b.get())?;
            end_binary(text, *op, right)
        }
        Expr::Select(c, a, b) => {
            add(text, b"select(")?;
            add_formula(alloc, text, parts, c.get())?;
            add(text, b", ")?;
            add_formula(alloc, text, parts, a.get())?;
            add(text, b", ")?;
            add_formula(alloc, text, parts, b.get())?;
            add(text, b")")
        }
        Expr::Cast(ty, a) => {
            add_type(alloc, text, *ty)?;
            add(text, b"(")?;
            add_formula(alloc, text, parts, a.get())?;
            add(text, b")")
        }
    }
}
