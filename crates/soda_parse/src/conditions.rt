ghost use Rattle.std.specs.Prelude.{◌≡◌, ◌<◌, ◌≤◌, ◌+◌, ◌^◌, ◌&&◌, ℕ, false, length, map, unsigned_abs, slice_index_or, IfOk, MatchResult, None, Some};
ghost use Rattle.soda_ir.specs.Counts.{can_be_placed};
ghost use Rattle.std.specs.List.{list_all};
ghost use Rattle.soda_ir.specs.Valid.{fills_burst};
ghost use Rattle.soda_ir.specs.Points.{size};
ghost use Rattle.soda_ir.specs.Program.{plain, plain_param, preserves};
ghost use Rattle.soda_parse.specs.ProgramConditions.{bad_burst, has_good_burst, circular, circular_from, first_past, iterate_mismatch, offset_past, outputs_fit, param_products, partial_products, values_past, preserve_mismatch, left_behind, site_magnitudes, unless_within};
ghost use Rattle.soda_checks.specs.Names.{names_of};
ghost use Rattle.soda_parse.specs.Meaning.{shifted};
ghost use Rattle.soda_words.specs.Limits.{most_offset, most_tile, most_values};

use crate::NoMemory;
use crate::formulas::component;
use soda_checks::{Defined, Names, Outline, Site, is_tensor};
use soda_ir::{Border, Param, Parts, fill_burst, placed_tensors};
use soda_words::{LEAST_BURST, MOST_BURST, MOST_OFFSET, MOST_TILE, MOST_VALUES};
use std::alloc::Global;

fn is_marked(marks: &[bool], place: usize) -> bool
    ensures { result ≡ slice_index_or marks.now place false }
{
    match marks.get(place) {
        Some(mark) => *mark,
        None => false,
    }
}

// The line of the first of these locals and outputs that can't be placed, the first of which is the
// tensor of this number.
fn first_unplaced(parts: &Parts, placed: &[bool], number: usize, defined: &[Defined]) -> Option<u64>
    requires placed { (x : ℕ) → slice_index_or placed.now x false ≡ can_be_placed (plain parts.now) x }
    requires few { number + length defined.now < 2 ^ 32 }
    ensures { result ≡ circular_from (plain parts.now) number defined.now }
{
    let _ = parts;
    for (i, line) in defined.iter().enumerate() {
        if !is_marked(placed, number + i) {
            return Some(line.name.line);
        }
    }
    None
}

/// The line of the name of the first local or output that can't be placed.
pub(crate) fn circular(
    alloc: Global,
    outline: &Outline,
    parts: &Parts,
) -> Result<Option<u64>, NoMemory>
    requires tensors { length parts.now.tensors < 2 ^ 32 }
    requires few { length outline.now.inputs + length outline.now.defined < 2 ^ 32 }
    ensures { IfOk result (λ line. line ≡ circular outline.now (plain parts.now)) }
{
    let placed = placed_tensors(alloc, parts)?;
    Ok(first_unplaced(
        parts,
        &placed,
        outline.inputs.len(),
        outline.defined.as_slice(),
    ))
}

/// Whether there are as many inputs as outputs, of equal types in order.
pub(crate) fn outputs_fit(alloc: Global, parts: &Parts) -> Result<bool, NoMemory>
    ensures { IfOk result (λ fit. fit ≡ outputs_fit (plain parts.now)) }
{
    let fit = soda_ir::outputs_fit(alloc, parts.tensors.as_slice())?;
    Ok(fit)
}

/// Whether the computation does not run just once, and the outputs do not fit the inputs.
pub(crate) fn iterate_mismatch(parts: &Parts, fit: bool) -> bool
    requires { fit ≡ outputs_fit (plain parts.now) }
    ensures { result ≡ iterate_mismatch (plain parts.now) }
{
    parts.iterate != 1 && !fit
}

fn is_preserved(parts: &Parts) -> bool
    ensures { result ≡ preserves (plain parts.now) }
{
    match parts.border {
        Border::Ignore => false,
        Border::Preserve => true,
    }
}

/// Whether the border is preserved, and the outputs do not fit the inputs.
pub(crate) fn preserve_mismatch(parts: &Parts, fit: bool) -> bool
    requires { fit ≡ outputs_fit (plain parts.now) }
    ensures { result ≡ preserve_mismatch (plain parts.now) }
{
    is_preserved(parts) && !fit
}

/// The number, if it is none from the least to the most.
pub(crate) fn unless_within(least: u128, most: u128, number: u128) -> Option<u128>
    ensures { result ≡ unless_within least most number }
{
    if least <= number && number <= most {
        None
    } else {
        Some(number)
    }
}

/// The first partial product of the fixed extents that passes the most.
pub(crate) fn tile_past(extents: &[u64]) -> Option<u128>
    ensures { result ≡ first_past most_tile (partial_products 1 extents.now) }
{
    let mut product = 1;
    for extent in extents {
        product = product * *extent as u128;
        if product > MOST_TILE as u128 {
            return Some(product);
        }
    }
    None
}

// The first magnitude of an offset with the left side subtracted that is too great.
fn far_component(offsets: &[i128], left: &[i128]) -> Option<u128>
    ensures { result ≡ first_past most_offset (map unsigned_abs (shifted offsets.now left.now)) }
{
    for (i, d) in offsets.iter().enumerate() {
        let magnitude = d.abs_diff(component(left, i));
        if magnitude > MOST_OFFSET as u128 {
            return Some(magnitude);
        }
    }
    None
}

// The same of a cell of a tensor, and None for another name.
fn far_cell(outline: &Outline, names: &Names, site: &Site, left: &[i128]) -> Option<u128>
    requires { names.now ≡ names_of outline.now }
    ensures { result ≡ first_past most_offset (site_magnitudes outline.now left.now site.now) }
{
    match site {
        Site::Size(_) => None,
        Site::Left { .. } => None,
        Site::Cell { name, offsets } => {
            if is_tensor(outline, names, name) {
                far_component(offsets.as_slice(), left)
            } else {
                None
            }
        }
        Site::Value { .. } => None,
    }
}

// The left side that a site sets, or else the one before it.
fn left_at<'a>(site: &'a Site, left: &'a [i128]) -> &'a [i128]
    ensures { result.now ≡ left_behind left.now site.now }
{
    match site {
        Site::Left { offsets, .. } => offsets.as_slice(),
        Site::Size(_) => left,
        Site::Cell { .. } => left,
        Site::Value { .. } => left,
    }
}

/// The first magnitude of a component of a cell's offset, the left side subtracted, that is too great.
pub(crate) fn offset_past(outline: &Outline, names: &Names) -> Option<u128>
    requires { names.now ≡ names_of outline.now }
    ensures { result ≡ offset_past outline.now }
{
    let sites = outline.sites.as_slice();
    let mut left: &[i128] = &[];
    for site in sites {
        if let Some(magnitude) = far_cell(outline, names, site, left) {
            return Some(magnitude);
        }
        left = left_at(site, left);
    }
    None
}

// The values of one more param together with those before; or the first sum with a partial product
// that is too great.
fn add_values(before: u128, sizes: &[u64]) -> Result<u128, u128>
    requires { before ≤ most_values }
    ensures { MatchResult result
        (λ sum. (sum ≤ most_values) × (sum ≡ before + size sizes.now) ×
        (first_past most_values (map (λ n. before + n) (param_products sizes.now)) ≡ None))
        (λ kept. first_past most_values (map (λ n. before + n) (param_products sizes.now)) ≡ Some kept) }
{
    if sizes.len() == 0 {
        return add_one(before);
    }
    let mut product = 1;
    for size in sizes {
        product = product * *size as u128;
        if before + product > MOST_VALUES as u128 {
            return Err(before + product);
        }
    }
    Ok(before + product)
}

// The same of a param with no size, which is one value.
fn add_one(before: u128) -> Result<u128, u128>
    requires { before ≤ most_values }
    ensures { MatchResult result
        (λ sum. (sum ≤ most_values) × (sum ≡ before + 1)) (λ kept. (most_values < kept) × (kept ≡ before + 1)) }
{
    if before + 1 > MOST_VALUES as u128 {
        Err(before + 1)
    } else {
        Ok(before + 1)
    }
}

/// The first sum of the params' values, partial products among them, that is too great.
pub(crate) fn params_past(params: &[Param]) -> Option<u128>
    ensures { result ≡ values_past 0 (map plain_param params.now) }
{
    let mut before = 0;
    for param in params {
        match add_values(before, param.sizes.as_slice()) {
            Ok(sum) => before = sum,
            Err(kept) => return Some(kept),
        }
    }
    None
}

// Whether whole cells of each input and output fill a burst.
fn are_filled(parts: &Parts) -> bool
    ensures { result ≡ list_all (fills_burst parts.now.burst) (plain parts.now).tensors }
{
    fill_burst(parts.burst, parts.tensors.as_slice())
}

// Whether the burst width is one that whole cells of each input and output fill.
fn has_good_burst(parts: &Parts) -> bool
    ensures { result ≡ has_good_burst (plain parts.now) }
{
    LEAST_BURST <= parts.burst && parts.burst <= MOST_BURST && are_filled(parts)
}

/// The burst width, if it isn't one that whole cells of each input and output fill.
pub(crate) fn bad_burst(parts: &Parts) -> Option<u64>
    ensures { result ≡ bad_burst (plain parts.now) }
{
    if has_good_burst(parts) {
        None
    } else {
        Some(parts.burst)
    }
}
