ghost use Rattle.std.specs.Prelude.{◌≡◌, option_map};
ghost use Rattle.soda_words.specs.Tokens.{or_else};
ghost use Rattle.share_shape.specs.Shifts.{binary_number, unary_number};
ghost use Rattle.share_shape.specs.machine.Marks.{apart, between, mixed, pair_mark, part, type_number};

use crate::cells::{apart, component};
use soda_ir::Offset;
use soda_words::{BinOp, Ty, UnOp};

/// What a search keeps of a formula: its mark, and the offset of its first cell.
#[derive(Clone, Copy)]
pub(crate) struct Marked<'a> {
    /// A number that shift-equal formulas have in common.
    pub mark: u64,
    /// The offset of the first cell, from the left, if there is a cell.
    pub first: Option<&'a Offset>,
}

/// What the marks mix a number with.
const FACTOR: u64 = 11_400_714_819_323_198_485;

// A number made of two.
#[tactic(auto, unfolding(crate::specs::machine::Marks::mixed))]
fn mixed(a: u64, b: u64) -> u64
    ensures { result ≡ mixed a b }
{
    let s = a.wrapping_mul(FACTOR).wrapping_add(b);
    let twice = s.wrapping_add(s);
    s.wrapping_mul(twice.wrapping_add(1))
}

// A component as a number.
#[tactic(auto, unfolding(crate::specs::machine::Marks::part))]
fn part(d: i128) -> u64
    ensures { result ≡ part d }
{
    (d.cast_unsigned() % (1 << 64)) as u64
}

// How far one offset is from another.
fn distance(from: &[i64], to: &[i64]) -> u64
    ensures { result ≡ apart from.now to.now }
{
    let mut mark = 0;
    for (i, f) in from.iter().enumerate() {
        mark = mixed(mark, part(apart(component(to, i), *f)));
    }
    mark
}

// The same of the first cells of two formulas, where each has one.
fn between(from: Option<&Offset>, to: Option<&Offset>) -> u64
    ensures { result ≡ between (option_map (λ o. o.now.items) from.entry) (option_map (λ o. o.now.items) to.entry) }
{
    match from {
        Some(from) => match to {
            Some(to) => distance(from.as_slice(), to.as_slice()),
            None => 0,
        },
        None => 0,
    }
}

// The first of two cells.
fn first<'a>(a: Option<&'a Offset>, b: Option<&'a Offset>) -> Option<&'a Offset>
    ensures { option_map (λ o. o.now.items) result
        ≡ or_else (option_map (λ o. o.now.items) a.entry) (option_map (λ o. o.now.items) b.entry) }
{
    match a {
        Some(a) => Some(a),
        None => b,
    }
}

// Two formulas one after the other.
fn pair<'a>(a: &Marked<'a>, b: &Marked<'a>) -> Marked<'a>
    ensures mark { result.mark ≡ pair_mark a.now.mark b.now.mark (option_map (λ o. o.now.items) a.now.first)
        (option_map (λ o. o.now.items) b.now.first) }
    ensures first { option_map (λ o. o.now.items) result.first
        ≡ or_else (option_map (λ o. o.now.items) a.now.first) (option_map (λ o. o.now.items) b.now.first) }
{
    Marked {
        mark: mixed(mixed(a.mark, b.mark), between(a.first, b.first)),
        first: first(a.first, b.first),
    }
}

/// A literal.
pub(crate) fn of_number<'a>(n: u64) -> Marked<'a>
    ensures mark { result.mark ≡ mixed 1 n }
    ensures first { result.first ≡ None }
{
    Marked {
        mark: mixed(1, n),
        first: None,
    }
}

/// A cell.
pub(crate) fn of_cell(tensor: u32, offset: &Offset) -> Marked<'_>
    ensures mark { result.mark ≡ mixed 2 tensor }
    ensures first { option_map (λ o. o.now.items) result.first ≡ Some offset.now.items }
{
    Marked {
        mark: mixed(2, tensor as u64),
        first: Some(offset),
    }
}

/// A param's value.
pub(crate) fn of_param<'a>(param: u32, place: u32) -> Marked<'a>
    ensures mark { result.mark ≡ mixed (mixed 3 param) place }
    ensures first { result.first ≡ None }
{
    Marked {
        mark: mixed(mixed(3, param as u64), place as u64),
        first: None,
    }
}

/// An operator of one operand.
pub(crate) fn of_unary<'a>(op: UnOp, a: &Marked<'a>) -> Marked<'a>
    ensures mark { result.mark ≡ mixed (mixed 4 (unary_number op)) a.now.mark }
    ensures first { result.first ≡ a.now.first }
{
    Marked {
        mark: mixed(mixed(4, op as u64), a.mark),
        first: a.first,
    }
}

/// An operator of two operands.
pub(crate) fn of_binary<'a>(op: BinOp, a: &Marked<'a>, b: &Marked<'a>) -> Marked<'a>
    ensures mark { result.mark ≡ mixed (mixed 5 (binary_number op)) (pair_mark a.now.mark b.now.mark
        (option_map (λ o. o.now.items) a.now.first) (option_map (λ o. o.now.items) b.now.first)) }
    ensures first { option_map (λ o. o.now.items) result.first
        ≡ or_else (option_map (λ o. o.now.items) a.now.first) (option_map (λ o. o.now.items) b.now.first) }
{
    let both = pair(a, b);
    Marked {
        mark: mixed(mixed(5, op as u64), both.mark),
        first: both.first,
    }
}

/// A choice.
pub(crate) fn of_choice<'a>(c: &Marked<'a>, a: &Marked<'a>, b: &Marked<'a>) -> Marked<'a>
    ensures mark { result.mark ≡ pair_mark c.now.mark (pair_mark a.now.mark b.now.mark
        (option_map (λ o. o.now.items) a.now.first) (option_map (λ o. o.now.items) b.now.first))
        (option_map (λ o. o.now.items) c.now.first)
        (or_else (option_map (λ o. o.now.items) a.now.first) (option_map (λ o. o.now.items) b.now.first)) }
    ensures first { option_map (λ o. o.now.items) result.first
        ≡ or_else (option_map (λ o. o.now.items) c.now.first)
        (or_else (option_map (λ o. o.now.items) a.now.first) (option_map (λ o. o.now.items) b.now.first)) }
{
    let both = pair(a, b);
    pair(c, &both)
}

/// A cast.
pub(crate) fn of_cast<'a>(ty: Ty, a: &Marked<'a>) -> Marked<'a>
    ensures mark { result.mark ≡ mixed (mixed 6 (type_number ty)) a.now.mark }
    ensures first { result.first ≡ a.now.first }
{
    let sign = if ty.signed() { 64 } else { 0 };
    Marked {
        mark: mixed(mixed(6, ty.bits() as u64 + sign), a.mark),
        first: a.first,
    }
}
