//! The formulas that are timed.

use arrayvec::ArrayVec;
use soda_ir::{Expr, NoMemory};
use soda_words::{BinOp, UnOp};
use sqlite_items::Boxed;
use std::alloc::Global;

/// A piece of a formula, operands before their operator.
#[derive(Clone, Copy)]
pub enum Piece {
    /// A cell, so far along the row and so many rows on.
    At(i64, i64),
    /// A literal.
    Number(u64),
    /// An operator of two operands.
    Two(BinOp),
    /// The number without its sign.
    Abs,
}

use Piece::{Abs, At, Number, Two};

/// The mean of three cells of a row.
pub const BLUR: [Piece; 7] = [
    At(-1, 0),
    At(0, 0),
    Two(BinOp::Add),
    At(1, 0),
    Two(BinOp::Add),
    Number(3),
    Two(BinOp::Div),
];

/// The mean of a cell and its four neighbours.
pub const JACOBI: [Piece; 11] = [
    At(0, 1),
    At(1, 0),
    Two(BinOp::Add),
    At(0, 0),
    Two(BinOp::Add),
    At(0, -1),
    Two(BinOp::Add),
    At(-1, 0),
    Two(BinOp::Add),
    Number(5),
    Two(BinOp::Div),
];

/// The slopes along both dimensions, without their signs.
pub const SOBEL: [Piece; 29] = [
    At(1, -1),
    At(-1, -1),
    Two(BinOp::Sub),
    At(1, 0),
    At(-1, 0),
    Two(BinOp::Sub),
    Number(2),
    Two(BinOp::Mul),
    Two(BinOp::Add),
    At(1, 1),
    At(-1, 1),
    Two(BinOp::Sub),
    Two(BinOp::Add),
    Abs,
    At(-1, 1),
    At(-1, -1),
    Two(BinOp::Sub),
    At(0, 1),
    At(0, -1),
    Two(BinOp::Sub),
    Number(2),
    Two(BinOp::Mul),
    Two(BinOp::Add),
    At(1, 1),
    At(1, -1),
    Two(BinOp::Sub),
    Two(BinOp::Add),
    Abs,
    Two(BinOp::Add),
];

fn cell(dx: i64, dy: i64) -> Expr {
    let mut offset = ArrayVec::new();
    let _ = offset.try_push(dx);
    let _ = offset.try_push(dy);
    Expr::Cell { tensor: 0, offset }
}

// Puts a formula on the stack.
fn put(alloc: Global, stack: &mut Vec<Boxed<Expr>>, expr: Expr) -> Result<(), NoMemory> {
    stack.push(Boxed::new(alloc, expr)?)?;
    Ok(())
}

// An operator on the two topmost formulas of the stack, where there are two.
fn join(alloc: Global, stack: &mut Vec<Boxed<Expr>>, op: BinOp) -> Result<(), NoMemory> {
    match stack.pop() {
        Some(right) => match stack.pop() {
            Some(left) => put(alloc, stack, Expr::Bin(op, left, right)),
            None => {
                drop(right);
                Ok(())
            }
        },
        None => Ok(()),
    }
}

fn without_sign(alloc: Global, stack: &mut Vec<Boxed<Expr>>) -> Result<(), NoMemory> {
    match stack.pop() {
        Some(operand) => put(alloc, stack, Expr::Un(UnOp::Abs, operand)),
        None => Ok(()),
    }
}

/// The formula of these pieces, if they make one up.
pub fn formula(alloc: Global, pieces: &[Piece]) -> Result<Option<Expr>, NoMemory> {
    let mut stack = Vec::new(alloc);
    for piece in pieces {
        match piece {
            Piece::At(dx, dy) => put(alloc, &mut stack, cell(*dx, *dy))?,
            Piece::Number(n) => put(alloc, &mut stack, Expr::Num(*n))?,
            Piece::Two(op) => join(alloc, &mut stack, *op)?,
            Piece::Abs => without_sign(alloc, &mut stack)?,
        }
    }
    match stack.pop() {
        Some(all) => Ok(Some(all.into_inner())),
        None => Ok(None),
    }
}
