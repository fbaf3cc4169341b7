ghost use Rattle.std.specs.Prelude.{◌≡◌, ◌<◌, ◌≤◌, ◌+◌, ◌^◌, ◌-ℤ◌, ◌&&◌, pos, true, false, nat_le, length, position, find, slice_index_or, unsigned_abs, IfOk, MatchOption};
ghost use Rattle.std.specs.Option.{option_copied};
ghost use Rattle.soda_checks.specs.Names.{names_of};
ghost use Rattle.soda_checks.specs.Outline.{is_same};
ghost use Rattle.soda_formula.specs.Tree.{term_of};
ghost use Rattle.soda_ir.specs.Tree.{formula_of as formula};
ghost use Rattle.soda_parse.specs.Meaning.{cell_formula, formula_of, int_type, offset_or_none, place_at, place_of, place_or_0, shifted, tensor_number, named_value};
ghost use Rattle.soda_words.specs.Limits.{most_offset};

use crate::NoMemory;
use arrayvec::ArrayVec;
use soda_checks::{Names, Outline, are_below, param_of, type_of};
use soda_formula::{Size, Written};
use soda_ir::{Expr, Offset};
use soda_words::{MOST_DIMS, MOST_OFFSET, MOST_VALUES, Ty, Word, int32};
use sqlite_items::Boxed;
use std::alloc::Global;

/// The type of a word; int32 where it stands for none.
pub(crate) fn int_type(word: &Word) -> Ty
    ensures { result ≡ int_type word.now }
{
    match type_of(word.text.as_slice()) {
        Some(ty) => ty,
        None => int32(),
    }
}

// The place of the input of this name.
#[tactic(auto, using(crate::proofs::Listed::listed))]
fn input_place(outline: &Outline, names: &Names, word: &Word) -> Option<usize>
    requires { names.now ≡ names_of outline.now }
    ensures { result ≡ position (λ i. is_same word.now i.name) outline.now.inputs }
{
    let _ = outline;
    names.inputs.place(word.text.as_slice())
}

// The place of the local or output of this name.
#[tactic(auto, using(crate::proofs::Listed::listed))]
fn defined_place(outline: &Outline, names: &Names, word: &Word) -> Option<usize>
    requires { names.now ≡ names_of outline.now }
    ensures { result ≡ position (λ d. is_same word.now d.name) outline.now.defined }
{
    let _ = outline;
    names.defined.place(word.text.as_slice())
}

// The place of the param of this name.
#[tactic(auto, using(crate::proofs::Listed::listed))]
fn param_place(outline: &Outline, names: &Names, word: &Word) -> Option<usize>
    requires { names.now ≡ names_of outline.now }
    ensures { result ≡ position (λ q. is_same word.now q.name) outline.now.params }
{
    let _ = outline;
    names.params.place(word.text.as_slice())
}

// The number of the tensor of this name.
fn tensor_number(outline: &Outline, names: &Names, word: &Word) -> Option<u32>
    requires names { names.now ≡ names_of outline.now }
    requires few { length outline.now.inputs + length outline.now.defined < 2 ^ 32 }
    ensures { result ≡ tensor_number outline.now word.now }
{
    if let Some(place) = input_place(outline, names, word) {
        return Some(place as u32);
    }
    match defined_place(outline, names, word) {
        Some(place) => Some((outline.inputs.len() + place) as u32),
        None => None,
    }
}

// The component of this place, and 0 past the last.
pub(crate) fn component(components: &[i128], place: usize) -> i128
    ensures { result ≡ slice_index_or components.now place (pos 0) }
{
    match components.get(place) {
        Some(component) => *component,
        None => 0,
    }
}

// The difference of two components, if its magnitude is at most the greatest of an offset.
fn near_difference(a: i128, b: i128) -> Option<i64>
    ensures { MatchOption result (nat_le (unsigned_abs (a -ℤ b)) most_offset ≡ false)
        (λ d. (d ≡ a -ℤ b) × (nat_le (unsigned_abs d) most_offset ≡ true)) }
{
    if a.abs_diff(b) > MOST_OFFSET as u128 {
        return None;
    }
    Some((a - b) as i64)
}

// An offset with the left side subtracted, if it may be, and else none.
fn offset_or_none(offsets: &[i128], left: &[i128]) -> Offset
    ensures { result.items ≡ offset_or_none (shifted offsets.now left.now) }
{
    let mut offset = ArrayVec::new();
    if offsets.len() > MOST_DIMS {
        return offset;
    }
    for (i, d) in offsets.iter().enumerate() {
        match near_difference(*d, component(left, i)) {
            Some(near) => offset.push(near),
            None => return ArrayVec::new(),
        }
    }
    offset
}

// The cell of a tensor, and 0 where there is none.
#[tactic(auto, using(crate::proofs::Levels::levels))]
fn cell(number: Option<u32>, offset: Offset) -> Expr
    ensures { formula result ≡ cell_formula number offset.items }
{
    match number {
        Some(tensor) => Expr::Cell { tensor, offset },
        None => Expr::Num(0),
    }
}

// The place of a value in a param of two sizes.
fn place_at(sizes: &[Size], indexes: &[u64]) -> u128
    ensures { result ≡ place_at sizes.now indexes.now }
{
    match sizes {
        [] => 0,
        [_] => match indexes {
            [] => 0,
            [i, ..] => *i as u128,
        },
        [_, t, ..] => match indexes {
            [] => 0,
            [_] => 0,
            [i, j, ..] => *i as u128 * t.value as u128 + *j as u128,
        },
    }
}

// The place of a param's value.
fn place_of(sizes: &[Size], indexes: &[u64]) -> u32
    ensures { result ≡ place_of sizes.now indexes.now }
{
    if !are_below(indexes, sizes) {
        return 0;
    }
    let place = place_at(sizes, indexes);
    if place < MOST_VALUES as u128 {
        place as u32
    } else {
        0
    }
}

// The value of a param, and 0 where there is none.
#[tactic(auto, using(crate::proofs::Levels::levels))]
fn value(outline: &Outline, names: &Names, word: &Word, indexes: &[u64]) -> Expr
    requires names { names.now ≡ names_of outline.now }
    requires few { length outline.now.params < 2 ^ 32 }
    ensures { formula result ≡ named_value outline.now.params word.now indexes.now }
{
    match param_place(outline, names, word) {
        Some(place) => match param_of(outline, names, word) {
            Some(param) => Expr::Par {
                param: place as u32,
                place: place_of(param.sizes.as_slice(), indexes),
            },
            None => Expr::Num(0),
        },
        None => Expr::Num(0),
    }
}

/// The formula that a written one stands for, behind these offsets on the left side.
#[tactic(auto, using(crate::proofs::Levels::levels))]
pub(crate) fn make_formula(
    alloc: Global,
    outline: &Outline,
    names: &Names,
    left: &[i128],
    written: &Written,
) -> Result<Expr, NoMemory>
    requires names { names.now ≡ names_of outline.now }
    requires tensors { length outline.now.inputs + length outline.now.defined < 2 ^ 32 }
    requires params { length outline.now.params < 2 ^ 32 }
    ensures { IfOk result (λ found. formula found ≡ formula_of outline.now left.now (term_of written.now)) }
{
    match written {
        Written::Number(n) => Ok(Expr::Num(*n)),
        Written::Cell { tensor, offsets } => Ok(cell(
            tensor_number(outline, names, tensor),
            offset_or_none(offsets.as_slice(), left),
        )),
        Written::Value { param, indexes } => {
            Ok(value(outline, names, param, indexes.as_slice()))
        }
        Written::Unary(op, a) => {
            let a = make_formula(alloc, outline, names, left, a.get())?;
            let a = Boxed::new(alloc, a)?;
            Ok(Expr::Un(*op, a))
        }
        Written::Binary(op, a, b) => {
            let a = make_formula(alloc, outline, names, left, a.get())?;
            let a = Boxed::new(alloc, a)?;
            let b = make_formula(alloc, outline, names, left, b.get())?;
            let b = Boxed::new(alloc, b)?;
            Ok(Expr::Bin(*op, a, b))
        }
        Written::Choice(c, a, b) => {
            let c = make_formula(alloc, outline, names, left, c.get())?;
            let c = Boxed::new(alloc, c)?;
            let a = make_formula(alloc, outline, names, left, a.get())?;
            let a = Boxed::new(alloc, a)?;
            let b = make_formula(alloc, outline, names, left, b.get())?;
            let b = Boxed::new(alloc, b)?;
            Ok(Expr::Select(c, a, b))
        }
        Written::Cast(word, a) => {
            let a = make_formula(alloc, outline, names, left, a.get())?;
            Ok(Expr::Cast(int_type(word), Boxed::new(alloc, a)?))
        }
    }
}
