//! Programs as data: parts that no text gives.

use arrayvec::ArrayVec;
use soda_ir::{Border, Expr, MakeRefusal, NoMemory, Parts, Program, Role, Tensor};
use soda_words::{BinOp, Ty, int32};
use sqlite_items::{Boxed, Items};
use std::alloc::Global;

// A formula: none, a number, a cell of a tensor, a param's value, or the sum of a cell of tensor 0 and a number.
#[derive(Clone, Copy)]
enum Formula {
    Nothing,
    Number(u64),
    Cell(u32),
    Value(u32),
    Sum(u64),
}

// A cell at offset 1.
fn cell(tensor: u32) -> Expr {
    let mut offset = ArrayVec::new();
    offset.push(1);
    Expr::Cell { tensor, offset }
}

// The sum of a cell of tensor 0 and a number.
fn sum(alloc: Global, number: u64) -> Result<Expr, NoMemory> {
    let left = Boxed::new(alloc, cell(0));
    let right = Boxed::new(alloc, Expr::Num(number));
    Ok(Expr::Bin(BinOp::Add, left?, right?))
}

fn made_formula(alloc: Global, formula: Formula) -> Result<Option<Expr>, NoMemory> {
    match formula {
        Formula::Nothing => Ok(None),
        Formula::Number(number) => Ok(Some(Expr::Num(number))),
        Formula::Cell(tensor) => Ok(Some(cell(tensor))),
        Formula::Value(param) => Ok(Some(Expr::Par { param, place: 0 })),
        Formula::Sum(number) => match sum(alloc, number) {
            Ok(sum) => Ok(Some(sum)),
            Err(refused) => Err(refused),
        },
    }
}

// A tensor: its name, what it is, and its formula.
type Row = (&'static [u8], Role, Formula);

fn made_tensor(alloc: Global, row: &Row) -> Result<Tensor, NoMemory> {
    let (name, role, formula) = *row;
    let name = Items::from_slice(alloc, name);
    let formula = made_formula(alloc, formula);
    Ok(Tensor {
        name: name?,
        ty: int32(),
        role,
        formula: formula?,
    })
}

fn made_tensors(alloc: Global, rows: &[Row; 2]) -> Result<Items<Tensor>, NoMemory> {
    let mut tensors = Items::new(alloc);
    for row in rows {
        tensors.push(made_tensor(alloc, row)?)?;
    }
    Ok(tensors)
}

// A program of these tensors, if they are those of one.
fn made(alloc: Global, kernel: &[u8], rows: &[Row; 2]) -> Result<Program, MakeRefusal> {
    let kernel = Items::from_slice(alloc, kernel);
    let tensors = made_tensors(alloc, rows);
    Program::make(
        alloc,
        Parts {
            kernel: kernel?,
            burst: 32,
            unroll: 1,
            iterate: 1,
            border: Border::Ignore,
            params: Items::new(alloc),
            extents: Items::new(alloc),
            tensors: tensors?,
        },
    )
}

const IN: Row = (b"a", Role::Input, Formula::Nothing);

const OUT: Row = (b"o", Role::Output, Formula::Sum(7));

// The name of a kernel, its tensors, and whether they make a program.
const PROGRAMS: &[(&[u8], &[Row; 2], bool)] = &[
    (b"k", &[IN, OUT], true),
    (b"input", &[IN, OUT], true),
    (b"9k", &[IN, OUT], false),
    (b"k", &[OUT, IN], false),
    (b"k", &[IN, (b"o", Role::Local, Formula::Sum(7))], false),
    (b"k", &[IN, (b"o", Role::Input, Formula::Nothing)], false),
    (b"k", &[IN, (b"o", Role::Output, Formula::Nothing)], false),
    (b"k", &[(b"a", Role::Input, Formula::Number(7)), OUT], false),
    (b"k", &[(b"o", Role::Input, Formula::Nothing), OUT], false),
    (b"k", &[IN, (b"o", Role::Output, Formula::Number(7))], true),
    (b"k", &[IN, (b"o", Role::Output, Formula::Cell(0))], true),
    (b"k", &[IN, (b"o", Role::Output, Formula::Cell(2))], false),
    (b"k", &[IN, (b"o", Role::Output, Formula::Value(0))], false),
];

#[test]
fn programs_are_made(rt: HostRuntime) {
    for row in PROGRAMS {
        let (kernel, tensors, wanted) = *row;
        let is_made = match made(rt.alloc(), kernel, tensors) {
            Ok(program) => {
                drop(program);
                Some(true)
            }
            Err(MakeRefusal::Invalid) => Some(false),
            Err(MakeRefusal::Memory) => None,
        };
        assert_eq!(rt; is_made, Some(wanted));
    }
}
