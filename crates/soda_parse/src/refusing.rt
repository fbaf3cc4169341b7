ghost use Rattle.std.specs.Prelude.{◌≡◌, ◌<◌, ◌+◌, ◌^◌, None, length, IfOk};
ghost use Rattle.soda_checks.specs.Names.{names_of};
ghost use Rattle.soda_ir.specs.Counts.{IsCountable};
ghost use Rattle.soda_ir.specs.Program.{plain};
ghost use Rattle.soda_parse.specs.Meaning.{tile_items};
ghost use Rattle.soda_parse.specs.Text.{count_refusal, late_refusal, names_refusal, refusal_by, shape_by, shape_refusal, size_refusal, use_refusal};

use crate::conditions::{
    bad_burst, circular, iterate_mismatch, offset_past, outputs_fit, params_past,
    preserve_mismatch, tile_past, unless_within,
};
use crate::{NoMemory, Refusal};
use soda_checks::{
    Names, Outline, bad_width, first_tile, float_type, missing, name_twice, param_use, twice,
    unknown_name, wrong_dims, wrong_tile,
};
use soda_ir::{LimitKind, Parts, live_count, read_count};
use soda_words::{MOST_DIMS, MOST_ITERATE, MOST_LIVE, MOST_READS, MOST_TENSORS, MOST_UNROLL};
use std::alloc::Global;

/// Why names and types are refused, if they are.
#[tactic(auto, unfolding(crate::specs::Text::names_refusal))]
pub(crate) fn names_refusal(outline: &Outline, names: &Names) -> Option<Refusal>
    requires { names.now ≡ names_of outline.now }
    ensures { result ≡ names_refusal outline.now }
{
    if let Some(need) = missing(outline) {
        return Some(Refusal::Missing(need));
    }
    if let Some(line) = twice(outline) {
        return Some(Refusal::Twice(line));
    }
    if let Some(line) = float_type(outline) {
        return Some(Refusal::FloatType(line));
    }
    if let Some(line) = bad_width(outline) {
        return Some(Refusal::BadWidth(line));
    }
    if let Some(line) = name_twice(outline, names) {
        return Some(Refusal::NameTwice(line));
    }
    if let Some(line) = unknown_name(outline, names) {
        return Some(Refusal::UnknownName(line));
    }
    match wrong_dims(outline, names) {
        Some(line) => Some(Refusal::WrongDims(line)),
        None => None,
    }
}

// The refusal of a program's shape, by what is wrong with it.
fn shape_by(
    circle: Option<u64>,
    iterate: bool,
    preserve: bool,
    tile: Option<u64>,
) -> Option<Refusal>
    ensures { result ≡ shape_by circle iterate preserve tile }
{
    if let Some(line) = circle {
        return Some(Refusal::Circular(line));
    }
    if iterate {
        return Some(Refusal::IterateMismatch);
    }
    if preserve {
        return Some(Refusal::PreserveMismatch);
    }
    match tile {
        Some(line) => Some(Refusal::Tile(line)),
        None => None,
    }
}

/// Why the shape of the program is refused, if it is.
#[tactic(auto, unfolding(crate::specs::Text::shape_refusal))]
pub(crate) fn shape_refusal(
    alloc: Global,
    outline: &Outline,
    parts: &Parts,
) -> Result<Option<Refusal>, NoMemory>
    requires tensors { length parts.now.tensors < 2 ^ 32 }
    requires few { length outline.now.inputs + length outline.now.defined < 2 ^ 32 }
    ensures { IfOk result (λ refusal. refusal ≡ shape_refusal outline.now (plain parts.now)) }
{
    let circle = circular(alloc, outline, parts)?;
    let fit = outputs_fit(alloc, parts)?;
    let iterate = iterate_mismatch(parts, fit);
    let preserve = preserve_mismatch(parts, fit);
    let tile = wrong_tile(outline);
    let refusal = shape_by(circle, iterate, preserve, tile);
    Ok(refusal)
}

// How many items the first tile has, and 0 where no input has one.
fn dims(outline: &Outline) -> usize
    ensures { result ≡ length (tile_items outline.now) }
{
    match first_tile(outline.inputs.as_slice()) {
        Some(tile) => tile.len(),
        None => 0,
    }
}

/// The first limit on sizes that is passed, if one is.
#[tactic(auto, unfolding(crate::specs::Text::size_refusal))]
pub(crate) fn size_refusal(outline: &Outline, names: &Names, parts: &Parts) -> Option<Refusal>
    requires { names.now ≡ names_of outline.now }
    ensures { result ≡ size_refusal outline.now (plain parts.now) }
{
    if let Some(n) = unless_within(1, MOST_UNROLL as u128, parts.unroll as u128) {
        return Some(Refusal::Limit(LimitKind::Unroll, n));
    }
    if let Some(n) = unless_within(1, MOST_ITERATE as u128, parts.iterate as u128) {
        return Some(Refusal::Limit(LimitKind::Iterate, n));
    }
    if let Some(n) = unless_within(0, MOST_DIMS as u128, dims(outline) as u128) {
        return Some(Refusal::Limit(LimitKind::Dims, n));
    }
    if let Some(n) = tile_past(parts.extents.as_slice()) {
        return Some(Refusal::Limit(LimitKind::Tile, n));
    }
    if let Some(n) = offset_past(outline, names) {
        return Some(Refusal::Limit(LimitKind::Offset, n));
    }
    if let Some(n) = unless_within(0, MOST_TENSORS as u128, parts.tensors.len() as u128) {
        return Some(Refusal::Limit(LimitKind::Tensors, n));
    }
    match params_past(parts.params.as_slice()) {
        Some(n) => Some(Refusal::Limit(LimitKind::Params, n)),
        None => None,
    }
}

/// The first limit on the staged program that is passed, if one is.
#[tactic(auto, unfolding(crate::specs::Text::count_refusal))]
pub(crate) fn count_refusal(alloc: Global, parts: &Parts) -> Result<Option<Refusal>, NoMemory>
    requires { IsCountable (plain parts.now) }
    ensures { IfOk result (λ refusal. refusal ≡ count_refusal (plain parts.now)) }
{
    let live = live_count(alloc, parts)?;
    if let Some(n) = unless_within(0, MOST_LIVE as u128, live as u128) {
        return Ok(Some(Refusal::Limit(LimitKind::Live, n)));
    }
    let reads = read_count(alloc, parts)?;
    match unless_within(0, MOST_READS as u128, reads) {
        Some(n) => Ok(Some(Refusal::Limit(LimitKind::Reads, n))),
        None => Ok(None),
    }
}

/// Why the burst width or the use of a param is refused, if one is.
#[tactic(auto, unfolding(crate::specs::Text::use_refusal))]
pub(crate) fn use_refusal(outline: &Outline, names: &Names, parts: &Parts) -> Option<Refusal>
    requires { names.now ≡ names_of outline.now }
    ensures { result ≡ use_refusal outline.now (plain parts.now) }
{
    if let Some(n) = bad_burst(parts) {
        return Some(Refusal::BurstWidth(n));
    }
    match param_use(outline, names) {
        Some(line) => Some(Refusal::ParamUse(line)),
        None => None,
    }
}

// The first refusal of a program that keeps the conditions on names and on its shape.
#[tactic(auto, unfolding(crate::specs::Text::late_refusal))]
fn late_refusal(
    alloc: Global,
    outline: &Outline,
    names: &Names,
    parts: &Parts,
) -> Result<Option<Refusal>, NoMemory>
    requires names { names.now ≡ names_of outline.now }
    requires countable { size_refusal outline.now (plain parts.now) ≡ None → IsCountable (plain parts.now) }
    ensures { IfOk result (λ refusal. refusal ≡ late_refusal outline.now (plain parts.now)) }
{
    if let Some(refusal) = size_refusal(outline, names, parts) {
        return Ok(Some(refusal));
    }
    if let Some(refusal) = count_refusal(alloc, parts)? {
        return Ok(Some(refusal));
    }
    Ok(use_refusal(outline, names, parts))
}

/// Why statements of this outline and these parts are refused, if they are: the first of the
/// conditions that fails.
#[tactic(auto, unfolding(crate::specs::Text::refusal_by))]
pub(crate) fn refusal_by(
    alloc: Global,
    outline: &Outline,
    names: &Names,
    parts: &Parts,
) -> Result<Option<Refusal>, NoMemory>
    requires names { names.now ≡ names_of outline.now }
    requires tensors { length parts.now.tensors < 2 ^ 32 }
    requires few { length outline.now.inputs + length outline.now.defined < 2 ^ 32 }
    requires countable { names_refusal outline.now ≡ None → shape_refusal outline.now (plain parts.now) ≡ None →
        size_refusal outline.now (plain parts.now) ≡ None → IsCountable (plain parts.now) }
    ensures { IfOk result (λ refusal. refusal ≡ refusal_by outline.now (plain parts.now)) }
{
    if let Some(refusal) = names_refusal(outline, names) {
        return Ok(Some(refusal));
    }
    if let Some(refusal) = shape_refusal(alloc, outline, parts)? {
        return Ok(Some(refusal));
    }
    late_refusal(alloc, outline, names, parts)
}
