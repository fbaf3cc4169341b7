//! How often modules fire.

ghost use Rattle.std.specs.Prelude.{◌≡◌};
ghost use Rattle.soda_ir.specs.Program.{plain};
ghost use Rattle.time_stages.specs.Staged.{staged};

use crate::tests::plans::{AVG, AVG_BY_TWO, BLUR, delays_of, program_of};
use net_build::{BuildRefusal, build, firings, limits_are_three};
use soda_ir::Program;
use soda_run::array_cells;
use soda_words::MOST_CELLS;
use std::alloc::{AllocError, Global};
use std::test::Fail;
use time_stages::{Staged, stage};

// A text, a number of rows, and how often a module of age 0 fires.
type Row = (&'static [u8], u64, u64);

const ROWS: &[Row] = &[
    (AVG, 5, 6),
    (AVG, 0, 1),
    (AVG_BY_TWO, 5, 3),
    (BLUR, 1000, 125251),
];

// How often a module of age 0 fires, where the limits are kept.
fn fired(
    alloc: Global,
    program: &Program,
    staging: &Staged,
    rows: u64,
) -> Result<Option<u64>, BuildRefusal>
    requires { staging.now ≡ staged (plain program.now) }
{
    if array_cells(program, rows) > MOST_CELLS as u128 {
        return Ok(None);
    }
    let delays = delays_of(alloc, program, staging)?;
    let network = build(alloc, program, staging, &delays)?;
    drop(network);
    limits_are_three();
    Ok(Some(firings(rows, program, &delays)))
}

fn is_row(alloc: Global, program: &Program, row: &Row) -> Result<bool, BuildRefusal> {
    let (_, rows, wanted) = *row;
    let staging = stage(alloc, program)?;
    let found = fired(alloc, program, &staging, rows);
    drop(staging);
    Ok(found? == Some(wanted))
}

fn holds(alloc: Global, row: &Row) -> Result<bool, AllocError> {
    let (text, _, _) = *row;
    let Some(program) = program_of(alloc, text)? else {
        return Ok(false);
    };
    let is = is_row(alloc, &program, row);
    drop(program);
    Ok(is == Ok(true))
}

// The number of the first row that doesn't hold, and the number of rows where all do.
fn first_wrong(alloc: Global, rows: &[Row]) -> Result<usize, AllocError> {
    for number in 0..rows.len() {
        if !holds(alloc, &rows[number])? {
            return Ok(number);
        }
    }
    Ok(rows.len())
}

#[test]
fn firings_of_programs(rt: HostRuntime) -> Result<(), Fail> {
    assert_eq!(rt; first_wrong(rt.alloc(), ROWS)?, ROWS.len());
    Ok(())
}
