ghost use Rattle.std.specs.Prelude.{◌≡◌, ◌&&◌, ◌+◌, ◌*◌, ◌^◌, ◌<◌, ◌≤◌, [], ◌∷◌, ◌++◌, ℕ, true, pos, ◌+ℤ◌, ◌*ℤ◌, unsigned_abs, length, IfOk, OnOk};
ghost use Rattle.std.specs.List.{list_any};
ghost use Rattle.soda_words.specs.Limits.{most_offset};
ghost use Rattle.soda_ir.specs.Formula.{by_formula, every};
ghost use Rattle.soda_ir.specs.Counts.{
  IsCountable,
  border_reads,
  distinct_count,
  formula_in,
  formula_reads,
  is_output,
  is_same_read,
  output_number,
  reach,
  tensor_reads,
};
ghost use Rattle.soda_ir.specs.Points.{linear, listed};
ghost use Rattle.soda_ir.specs.Program.{extents_at, plain, preserves};
ghost use Rattle.soda_ir.specs.Tree.{formula_of};
ghost use Rattle.soda_ir.specs.Uses.{is_near};

use crate::NoMemory;
use crate::expr::Expr;
use crate::program::Parts;
use sqlite_items::Items;
use std::alloc::Global;

/// A read of a cell: the number of the tensor that is read, and how far away the cell stands in the array, in cells.
#[derive(Clone, Copy)]
pub struct Read {
    /// The number of the tensor that is read.
    pub of: u32,
    /// How far behind the reader's own place the cell stands, in cells; negative for a place before it.
    pub offset: i64,
}

fn product(n: i128, rest: i128) -> i128
    requires factor { unsigned_abs n ≤ 2 ^ 27 }
    requires small { unsigned_abs rest ≤ 2 ^ 90 }
    ensures { result ≡ n *ℤ rest }
{
    n * rest
}

// One dimension more of a distance.
fn outward(d: i64, n: u64, rest: i128) -> i128
    requires factor { n ≤ 2 ^ 27 }
    requires small { unsigned_abs rest ≤ 2 ^ 90 }
    ensures value { result ≡ d +ℤ (pos n *ℤ rest) }
    ensures bound { unsigned_abs result ≤ 2 ^ 63 + n * unsigned_abs rest }
{
    let along = product(n as i128, rest);
    d as i128 + along
}

/// How far away in the array a cell at an offset stands, in cells; the last extent is no matter, and the others are
/// given.
pub fn distance(extents: &[u64], offset: &[i64]) -> i128
    requires { reach extents.now ≤ 2 ^ 26 }
    ensures value { result ≡ linear (extents.now ++ 1 ∷ []) offset.now }
    ensures bound { unsigned_abs result ≤ 2 ^ 63 * reach extents.now }
{
    match offset {
        [] => 0,
        [d, ds @ ..] => match extents {
            [] => *d as i128,
            [n, ns @ ..] => {
                if *n == 0 {
                    *d as i128
                } else {
                    outward(*d, *n, distance(ns, ds))
                }
            }
        },
    }
}

// How far away a near cell stands.
fn near_distance(extents: &[u64], offset: &[i64]) -> i64
    requires near { is_near offset.now ≡ true }
    requires small { reach extents.now ≤ 2 ^ 26 }
    ensures { result ≡ linear (extents.now ++ 1 ∷ []) offset.now }
{
    distance(extents, offset) as i64
}

fn add(reads: &mut Vec<Read>, read: Read) -> Result<(), NoMemory>
    ensures { OnOk result (reads.new.items ≡ reads.old.items ++ read ∷ []) }
{
    reads.push(read)?;
    Ok(())
}

// Adds the reads of a formula, from the left.
#[tactic(auto, using(crate::proofs::CallerLemmas::levels, crate::proofs::Distances::joined))]
fn collect(expr: &Expr, extents: &[u64], reads: &mut Vec<Read>) -> Result<(), NoMemory>
    requires near { every (λ t o. is_near o) (formula_of expr.now) ≡ true }
    requires small { reach extents.now ≤ 2 ^ 26 }
    ensures { OnOk result (reads.new.items ≡ reads.old.items
        ++ formula_reads (extents.now ++ 1 ∷ []) (formula_of expr.now)) }
{
    match expr {
        Expr::Num(_) => Ok(()),
        Expr::Cell { tensor, offset } => {
            let _dims = offset.len();
            let offset = near_distance(extents, offset.as_slice());
            let read = Read {
                of: *tensor,
                offset,
            };
            add(reads, read)
        }
        Expr::Par { .. } => Ok(()),
        Expr::Un(_, a) => collect(a.get(), extents, reads),
        Expr::Bin(_, a, b) => {
            collect(a.get(), extents, reads)?;
            collect(b.get(), extents, reads)
        }
        Expr::Select(c, a, b) => {
            collect(c.get(), extents, reads)?;
            collect(a.get(), extents, reads)?;
            collect(b.get(), extents, reads)
        }
        Expr::Cast(_, a) => collect(a.get(), extents, reads),
    }
}

// Adds the read of an output under preserve: that of the input of its number.
fn add_border(
    parts: &Parts,
    tensor: u32,
    number: u32,
    reads: &mut Vec<Read>,
) -> Result<(), NoMemory>
    requires { number ≡ output_number (plain parts.now) tensor }
    ensures { OnOk result (reads.new.items ≡ reads.old.items ++ border_reads (plain parts.now) tensor) }
{
    if has_border(parts, tensor) {
        let read = Read {
            of: number,
            offset: 0,
        };
        add(reads, read)
    } else {
        Ok(())
    }
}

fn has_border(parts: &Parts, tensor: u32) -> bool
    ensures { result ≡ (preserves (plain parts.now) && is_output (plain parts.now) tensor) }
{
    parts.is_preserved() && parts.is_output(tensor)
}

// Adds the reads of a tensor's formula.
fn add_formula(parts: &Parts, tensor: u32, reads: &mut Vec<Read>) -> Result<(), NoMemory>
    requires { IsCountable (plain parts.now) }
    ensures { OnOk result (reads.new.items ≡ reads.old.items
        ++ by_formula (formula_in (plain parts.now) tensor) [] (formula_reads (extents_at (plain parts.now) 1))) }
{
    match parts.formula(tensor) {
        Some(formula) => collect(formula, parts.extents.as_slice(), reads),
        None => Ok(()),
    }
}

// The reads of a tensor, in front of which so many outputs stand.
fn reads_of(alloc: Global, parts: &Parts, tensor: u32, number: u32) -> Result<Items<Read>, NoMemory>
    requires countable { IsCountable (plain parts.now) }
    requires number { number ≡ output_number (plain parts.now) tensor }
    ensures { IfOk result (λ reads. reads ≡ tensor_reads (plain parts.now) tensor) }
{
    let mut reads = Vec::new(alloc);
    add_formula(parts, tensor, &mut reads)?;
    add_border(parts, tensor, number, &mut reads)?;
    Ok(Items::from_vec(reads))
}

/// The reads of each tensor in an iteration, from the left: of its formula, and under preserve that of an output's own
/// input. Its cells are there and near, and the limits `iterate`, `dims`, `tile` and `tensors` are kept.
pub fn all_reads(alloc: Global, parts: &Parts) -> Result<Vec<Items<Read>>, NoMemory>
    requires { IsCountable (plain parts.now) }
    ensures { IfOk result (λ all. all.items ≡ listed (tensor_reads (plain parts.now)) (length parts.now.tensors)) }
{
    let mut all = Vec::new(alloc);
    let mut number = 0;
    for tensor in 0..parts.tensors.len() as u32 {
        all.push(reads_of(alloc, parts, tensor, number)?)?;
        if parts.is_output(tensor) {
            number += 1;
        }
    }
    Ok(all)
}

/// How many of these reads there are, each counted once.
pub(crate) fn distinct_count(reads: &[Read]) -> u64
    ensures value { result ≡ distinct_count reads.now }
    ensures most { result ≤ length reads.now }
{
    let mut count = 0;
    let mut rest = reads;
    while let [read, more @ ..] = rest {
        if !has_read(more, *read) {
            count += 1;
        }
        rest = more;
    }
    count
}

fn has_read(reads: &[Read], read: Read) -> bool
    ensures { result ≡ list_any (is_same_read read) reads.now }
{
    for other in reads {
        if is_same_read(read, *other) {
            return true;
        }
    }
    false
}

fn is_same_read(a: Read, b: Read) -> bool
    ensures { result ≡ is_same_read a b }
{
    (a.of == b.of) & (a.offset == b.offset)
}
