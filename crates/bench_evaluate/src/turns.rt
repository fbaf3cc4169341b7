//! One turn over all rows, and over single cells.

use formula_code::{
    Code, NarrowCode, NarrowScratch, Place, Scratch, fit, fit_narrow, make_scratch, run,
    run_narrow, run_one,
};
use sqlite_items::Items;
use std::alloc::{AllocError, Global};

/// Moves the places on by so many cells.
fn move_on(places: &mut [Place], by: usize) {
    for place in places.iter_mut() {
        place.start = place.start.wrapping_add(by);
    }
}

fn narrow_row(
    narrow: &NarrowCode,
    arrays: &[Items<u16>],
    places: &[Place],
    scratch: &mut NarrowScratch,
    out: &mut [i32],
) -> bool {
    if narrow.groups.len() > scratch.slots {
        return false;
    }
    if fit_narrow(arrays, places, out.len()) {
        run_narrow(narrow, arrays, places, scratch, out);
        true
    } else {
        false
    }
}

/// All rows, so wide, over narrow cells. Tells whether each row was done.
pub fn narrow_turn(
    narrow: &NarrowCode,
    arrays: &[Items<u16>],
    places: &mut [Place],
    width: usize,
    scratch: &mut NarrowScratch,
    out: &mut [i32],
) -> bool {
    let mut all = true;
    for row in out.chunks_mut(width.max(1)) {
        all &= narrow_row(narrow, arrays, places, scratch, row);
        move_on(places, width);
    }
    all
}

fn wide_row(
    alloc: Global,
    code: &Code,
    arrays: &[Items<i128>],
    places: &[Place],
    out: &mut [i128],
) -> Result<bool, AllocError> {
    if fit(arrays, places, out.len()) {
        let mut scratch = make_scratch(alloc, code, 500)?;
        run(code, arrays, places, &mut scratch, out);
        Ok(true)
    } else {
        Ok(false)
    }
}

/// All rows, so wide, over wide cells. Tells whether each row was done.
pub fn wide_turn(
    alloc: Global,
    code: &Code,
    arrays: &[Items<i128>],
    places: &mut [Place],
    width: usize,
    out: &mut [i128],
) -> Result<bool, AllocError> {
    let mut all = true;
    for row in out.chunks_mut(width.max(1)) {
        all &= wide_row(alloc, code, arrays, places, row)?;
        move_on(places, width);
    }
    Ok(all)
}

/// So many cells, one at a time, each over the same values. The sum of all, wrapped.
pub fn single_turn(
    alloc: Global,
    code: &Code,
    values: &[i128],
    count: u32,
) -> Result<i128, AllocError> {
    let mut scratch = make_scratch(alloc, code, 1)?;
    let mut sum = 0i128;
    'cells: for _ in 0..count {
        sum = sum.wrapping_add(run_one(code, values, &mut scratch));
    }
    Ok(sum)
}

/// The same on wide words.
pub fn wide_single_turn(
    alloc: Global,
    code: &lane_code::Code,
    values: &[i128],
    count: u32,
) -> Result<i128, AllocError> {
    let mut scratch = lane_code::Scratch::new(alloc, code.instrs.len(), 1)?;
    let mut sum = 0i128;
    for _ in 0..count {
        if code.instrs.len() <= scratch.slots {
            sum = sum.wrapping_add(lane_code::run_one(code, values, &mut scratch));
        }
    }
    Ok(sum)
}
