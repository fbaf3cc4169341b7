//! Programs made from numbers.

use arrayvec::ArrayVec;
use int_types::{BinOp, Ty, UnOp, int32};
use soda_ir::{Border, Expr, MakeRefusal, Param, Parts, Program, Role, Tensor};
use sqlite_items::{Boxed, Items};
use std::alloc::{AllocError, Global};

/// Numbers from a seed.
#[derive(Drop)]
pub(crate) struct Random(u64);

impl Random {
    pub(crate) fn new(seed: u64) -> Random {
        Random(seed | 1)
    }

    pub(crate) fn next(&mut self) -> u64 {
        let mut x = self.0;
        x ^= x.wrapping_shl(13);
        x ^= x.wrapping_shr(7);
        x ^= x.wrapping_shl(17);
        self.0 = x;
        x
    }
}

/// How many inputs a program has.
pub(crate) const INPUTS: usize = 14;

/// The types of a program's inputs, as a sign and a width, and by how many bits its literals fall short of 64.
#[derive(Clone, Copy)]
pub(crate) struct Words {
    types: &'static [(bool, u8)],
    less: u32,
}

/// Types of all widths.
pub(crate) const WIDE: Words = Words {
    types: &[
        (true, 2),
        (true, 8),
        (true, 16),
        (true, 31),
        (true, 32),
        (true, 33),
        (true, 64),
        (false, 1),
        (false, 8),
        (false, 16),
        (false, 31),
        (false, 32),
        (false, 33),
        (false, 64),
    ],
    less: 0,
};

/// Types whose operators compute as int32.
pub(crate) const NARROW: Words = Words {
    types: &[
        (true, 2),
        (true, 8),
        (true, 16),
        (true, 31),
        (true, 32),
        (true, 17),
        (true, 9),
        (false, 1),
        (false, 8),
        (false, 16),
        (false, 31),
        (false, 3),
        (false, 30),
        (false, 15),
    ],
    less: 33,
};

const BINARY: &[BinOp] = &[
    BinOp::LogOr,
    BinOp::LogAnd,
    BinOp::BitOr,
    BinOp::BitXor,
    BinOp::BitAnd,
    BinOp::Eq,
    BinOp::Ne,
    BinOp::Lt,
    BinOp::Le,
    BinOp::Gt,
    BinOp::Ge,
    BinOp::Add,
    BinOp::Sub,
    BinOp::Mul,
    BinOp::Div,
    BinOp::Rem,
    BinOp::Min,
    BinOp::Max,
];

const UNARY: &[UnOp] = &[UnOp::Plus, UnOp::Minus, UnOp::Flip, UnOp::Not, UnOp::Abs];

const NAMES: &[u8] = b"abcdefghijklmn";

fn type_of(words: &Words, number: u64) -> Ty {
    match words.types.get((number % INPUTS as u64) as usize) {
        Some((signed, bits)) => match Ty::new(*signed, *bits) {
            Some(ty) => ty,
            None => int32(),
        },
        None => int32(),
    }
}

fn cell(tensor: u32, component: i64) -> Expr {
    let mut offset = ArrayVec::new();
    let _ = offset.try_push(component);
    Expr::Cell { tensor, offset }
}

// A literal of any width, a param's value or a cell.
fn leaf(random: &mut Random, words: &Words) -> Expr {
    match random.next() % 6 {
        0 => {
            let less = words.less.wrapping_add((random.next() % 64) as u32).min(63);
            Expr::Num(random.next() >> less)
        }
        1 => Expr::Par {
            param: (random.next() % 2) as u32,
            place: 0,
        },
        _ => {
            let tensor = (random.next() % INPUTS as u64) as u32;
            cell(tensor, (random.next() % 5) as i64 - 2)
        }
    }
}

// Puts a formula on the stack.
fn put(alloc: Global, stack: &mut Vec<Boxed<Expr>>, expr: Expr) -> Result<(), AllocError> {
    stack.push(Boxed::new(alloc, expr)?)?;
    Ok(())
}

fn any_unary(random: &mut Random) -> UnOp {
    match UNARY.get((random.next() % 5) as usize) {
        Some(op) => *op,
        None => UnOp::Plus,
    }
}

fn any_binary(random: &mut Random) -> BinOp {
    match BINARY.get((random.next() % 18) as usize) {
        Some(op) => *op,
        None => BinOp::Add,
    }
}

// An operator on the topmost formula.
fn put_unary(
    alloc: Global,
    stack: &mut Vec<Boxed<Expr>>,
    random: &mut Random,
) -> Result<(), AllocError> {
    match stack.pop() {
        Some(a) => {
            let op = any_unary(random);
            put(alloc, stack, Expr::Un(op, a))
        }
        None => Ok(()),
    }
}

// A cast of the topmost formula.
fn put_cast(alloc: Global, stack: &mut Vec<Boxed<Expr>>, ty: Ty) -> Result<(), AllocError> {
    match stack.pop() {
        Some(a) => put(alloc, stack, Expr::Cast(ty, a)),
        None => Ok(()),
    }
}

// An operator on the two topmost formulas, where there are two.
fn put_binary(
    alloc: Global,
    stack: &mut Vec<Boxed<Expr>>,
    random: &mut Random,
) -> Result<(), AllocError> {
    match stack.pop() {
        Some(b) => match stack.pop() {
            Some(a) => {
                let op = any_binary(random);
                put(alloc, stack, Expr::Bin(op, a, b))
            }
            None => {
                stack.push(b)?;
                Ok(())
            }
        },
        None => Ok(()),
    }
}

// A choice between the two topmost formulas by a cell.
fn put_choice(
    alloc: Global,
    stack: &mut Vec<Boxed<Expr>>,
    random: &mut Random,
) -> Result<(), AllocError> {
    match stack.pop() {
        Some(b) => match stack.pop() {
            Some(a) => {
                let tensor = (random.next() % INPUTS as u64) as u32;
                match Boxed::new(alloc, cell(tensor, 1)) {
                    Ok(c) => put(alloc, stack, Expr::Select(c, a, b)),
                    Err(refused) => {
                        drop(a);
                        drop(b);
                        Err(refused)
                    }
                }
            }
            None => {
                stack.push(b)?;
                Ok(())
            }
        },
        None => Ok(()),
    }
}

// One step: a leaf more, or an operator on what is there.
fn step(
    alloc: Global,
    stack: &mut Vec<Boxed<Expr>>,
    random: &mut Random,
    words: &Words,
) -> Result<(), AllocError> {
    match random.next() % 12 {
        0 => put_unary(alloc, stack, random),
        1 => {
            let ty = type_of(words, random.next());
            put_cast(alloc, stack, ty)
        }
        2 => put_choice(alloc, stack, random),
        3..=6 => put_binary(alloc, stack, random),
        _ => {
            let leaf = leaf(random, words);
            put(alloc, stack, leaf)
        }
    }
}

/// A formula of at most so many steps.
fn formula(
    alloc: Global,
    random: &mut Random,
    words: &Words,
    steps: u64,
) -> Result<Expr, AllocError> {
    let mut stack = Vec::new(alloc);
    let first = leaf(random, words);
    put(alloc, &mut stack, first)?;
    for _ in 0..steps {
        step(alloc, &mut stack, random, words)?;
    }
    for _ in 0..steps {
        put_binary(alloc, &mut stack, random)?;
    }
    match stack.pop() {
        Some(all) => Ok(all.into_inner()),
        None => Ok(Expr::Num(0)),
    }
}

fn tensor(
    alloc: Global,
    name: &[u8],
    ty: Ty,
    role: Role,
    formula: Option<Expr>,
) -> Result<Tensor, AllocError> {
    match Items::from_slice(alloc, name) {
        Ok(name) => Ok(Tensor {
            name,
            ty,
            role,
            formula,
        }),
        Err(refused) => {
            drop(formula);
            Err(refused)
        }
    }
}

fn name(k: usize) -> &'static [u8] {
    if k < NAMES.len() {
        &NAMES[k..k + 1]
    } else {
        b"y"
    }
}

fn tensors(
    alloc: Global,
    words: &Words,
    ty: Ty,
    formula: Expr,
) -> Result<Items<Tensor>, AllocError> {
    let output = tensor(alloc, b"z", ty, Role::Output, Some(formula))?;
    let output = Boxed::new(alloc, output)?;
    let mut tensors = Items::new(alloc);
    for k in 0..INPUTS {
        let ty = type_of(words, k as u64);
        tensors.push(tensor(alloc, name(k), ty, Role::Input, None)?)?;
    }
    tensors.push(output.into_inner())?;
    Ok(tensors)
}

fn param(alloc: Global, name: &[u8], ty: Ty) -> Result<Param, AllocError> {
    Ok(Param {
        name: Items::from_slice(alloc, name)?,
        ty,
        sizes: Items::new(alloc),
    })
}

fn params(alloc: Global, words: &Words) -> Result<Items<Param>, AllocError> {
    let mut params = Items::new(alloc);
    params.push(param(alloc, b"p", type_of(words, 3))?)?;
    params.push(param(alloc, b"q", type_of(words, 9))?)?;
    Ok(params)
}

/// A program of two params, `INPUTS` inputs and an output, whose formula is of at most so many steps; None where it
/// would be too large.
pub(crate) fn program(
    alloc: Global,
    random: &mut Random,
    words: &Words,
    steps: u64,
) -> Result<Option<Program>, AllocError> {
    let params = params(alloc, words)?;
    let kernel = Items::from_slice(alloc, b"k")?;
    let formula = formula(alloc, random, words, steps)?;
    let ty = type_of(words, random.next());
    let tensors = tensors(alloc, words, ty, formula)?;
    let parts = Parts {
        kernel,
        burst: 64,
        unroll: 1,
        iterate: 1,
        border: Border::Ignore,
        params,
        extents: Items::new(alloc),
        tensors,
    };
    match Program::make(alloc, parts) {
        Ok(program) => Ok(Some(program)),
        Err(MakeRefusal::Invalid) => Ok(None),
        Err(MakeRefusal::Memory) => Err(AllocError),
    }
}
