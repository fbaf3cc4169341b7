//! Runs of code, beside the values of its formula.

ghost use Rattle.std.specs.Prelude.{◌≤◌, length};
ghost use Rattle.formula_code.specs.Codes.{HasRoom};

use super::cells::raw;
use formula_code::{
    Code, NarrowCode, NarrowScratch, Scratch as CodeScratch, fit_narrow, make_scratch, run_narrow,
};
use int_types::{Ty, wrap};
use lane_code::{CellRead, Code as WideCode, Place, Scratch, fit, wrap_all};
use sqlite_items::Items;
use std::alloc::{AllocError, Global};

// Where the reads of lane 0 lie.
fn places(alloc: Global, reads: &[CellRead]) -> Result<Vec<Place>, AllocError> {
    let mut places = Vec::new(alloc);
    for read in reads {
        let start = match read.offset.as_slice() {
            [first, ..] => first.wrapping_add(2).unsigned_abs() as usize,
            [] => 2,
        };
        places.push(Place {
            array: read.tensor as usize,
            start,
        })?;
    }
    Ok(places)
}

// Whether the words are the first of these values.
fn are_values(words: &[i128], values: &[i128]) -> bool {
    if words.len() > values.len() {
        return false;
    }
    let first = &values[..words.len()];
    words == first
}

// A run on wide words, where all cells are there.
fn run_wide(
    code: &WideCode,
    arrays: &[Items<i128>],
    places: &[Place],
    scratch: &mut Scratch,
    out: &mut [i128],
) -> bool
    requires { length code.now.instrs ≤ scratch.old.slots }
{
    if fit(arrays, places, out.len()) {
        lane_code::run(code, arrays, places, scratch, out);
        true
    } else {
        false
    }
}

// A run on the words that were chosen.
fn run_code(
    code: &Code,
    arrays: &[Items<i128>],
    places: &[Place],
    scratch: &mut CodeScratch,
    out: &mut [i128],
) -> bool
    requires { HasRoom code.now scratch.old }
{
    if fit(arrays, places, out.len()) {
        formula_code::run(code, arrays, places, scratch, out);
        true
    } else {
        false
    }
}

// A run on words of 32 bits over narrow cells.
fn run_words(
    narrow: &NarrowCode,
    arrays: &[Items<i32>],
    places: &[Place],
    scratch: &mut NarrowScratch,
    out: &mut [i32],
) -> bool
    requires { length narrow.now.groups ≤ scratch.old.slots }
{
    if fit_narrow(arrays, places, out.len()) {
        run_narrow(narrow, arrays, places, scratch, out);
        true
    } else {
        false
    }
}

/// Whether the code gives these values on wide words, over n lanes, and their wraps to a type.
pub(crate) fn wide_holds(
    alloc: Global,
    code: &WideCode,
    arrays: &[Items<i128>],
    values: &[i128],
    ty: Ty,
    n: usize,
) -> Result<bool, AllocError> {
    let places = places(alloc, code.reads.as_slice())?;
    let mut scratch = Scratch::new(alloc, code.instrs.len(), 256)?;
    let mut out = vec![in alloc; 0i128; n]?;
    let ran = run_wide(code, arrays, &places, &mut scratch, &mut out);
    let right = ran && are_values(&out, values);
    wrap_all(ty, &mut out);
    Ok(right && are_wraps(&out, values, ty))
}

// Whether the words are the first of these values, wrapped.
fn are_wraps(words: &[i128], values: &[i128], ty: Ty) -> bool {
    words.len() <= values.len()
        && words
            .iter()
            .zip(values)
            .all(|(word, value)| *word == wrap(ty, *value))
}

/// Whether the code gives these values on the words that were chosen, over n lanes.
pub(crate) fn code_holds(
    alloc: Global,
    code: &Code,
    arrays: &[Items<i128>],
    values: &[i128],
    n: usize,
) -> Result<bool, AllocError> {
    let places = places(alloc, code.wide.reads.as_slice())?;
    let mut scratch = make_scratch(alloc, code, 256)?;
    let mut out = vec![in alloc; 0i128; n]?;
    let ran = run_code(code, arrays, &places, &mut scratch, &mut out);
    Ok(ran && are_values(&out, values))
}

/// Whether narrow code gives these values over narrow cells, over n lanes.
pub(crate) fn narrow_holds(
    alloc: Global,
    reads: &[CellRead],
    narrow: &NarrowCode,
    arrays: &[Items<i128>],
    values: &[i128],
    n: usize,
) -> Result<bool, AllocError> {
    let places = places(alloc, reads)?;
    let words = narrow_arrays(alloc, arrays)?;
    let mut scratch = NarrowScratch::new(alloc, narrow.groups.len(), 256)?;
    let mut out = vec![in alloc; 0i32; n]?;
    let ran = run_words(narrow, &words, &places, &mut scratch, &mut out);
    let mut wide = Vec::new(alloc);
    for word in &out {
        wide.push(i128::from(*word))?;
    }
    Ok(ran && are_values(&wide, values))
}

// Cells of 32 bits.
fn narrow_arrays(alloc: Global, arrays: &[Items<i128>]) -> Result<Vec<Items<i32>>, AllocError> {
    let mut narrow = Vec::new(alloc);
    for array in arrays {
        let mut cells = Items::new(alloc);
        for cell in array.as_slice() {
            cells.push(i32::try_from(*cell).unwrap_or(0))?;
        }
        narrow.push(cells)?;
    }
    Ok(narrow)
}

// What the reads are in a lane.
fn values_in(
    alloc: Global,
    reads: &[CellRead],
    arrays: &[Items<i128>],
    lane: usize,
) -> Result<Vec<i128>, AllocError> {
    let mut values = Vec::new(alloc);
    for read in reads {
        values.push(raw(arrays, lane, read.tensor, read.offset.as_slice()))?;
    }
    Ok(values)
}

/// Whether the code gives this value in a lane by itself, on wide words and on the words that were chosen.
pub(crate) fn one_holds(
    alloc: Global,
    code: &Code,
    arrays: &[Items<i128>],
    value: i128,
    lane: usize,
) -> Result<bool, AllocError> {
    let wide = &code.wide;
    let values = values_in(alloc, wide.reads.as_slice(), arrays, lane)?;
    let mut scratch = Scratch::new(alloc, wide.instrs.len(), 1)?;
    let by_wide = lane_code::run_one(wide, &values, &mut scratch);
    let mut scratch = make_scratch(alloc, code, 1)?;
    let by_code = formula_code::run_one(code, &values, &mut scratch);
    Ok(value == by_wide && value == by_code)
}
