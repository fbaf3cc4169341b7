//! The modules that are stalled, cycle by cycle.

use net_ir::Module;
use sim_lines::{Stall, StallFlags};
use soda_parse::{ParseFail, parse};
use soda_words::MOST_TEXT;
use sqlite_items::Items;
use std::alloc::{AllocError, Global};
use std::test::Fail;
use time_stages::{StagedTensor, stage};

const AVG: &[u8] = b"kernel: avg\nburst width: 8\nunroll factor: 1\ninput uint8: a(*)\n\
output uint8: o(0) = (a(-1) + a(0) + a(1)) / 3\n";

// The modules of its network, in firing order.
const AVG_MODULES: &[Module] = &[
    Module::Forward {
        tensor: 0,
        lane: 0,
        tap: 2,
    },
    Module::Forward {
        tensor: 0,
        lane: 0,
        tap: 1,
    },
    Module::Source { tensor: 0 },
    Module::Forward {
        tensor: 0,
        lane: 0,
        tap: 0,
    },
    Module::Compute { tensor: 1, lane: 0 },
    Module::Sink { tensor: 1 },
];

// Two sources of one input, and one of no staged tensor.
const TWICE: &[Module] = &[
    Module::Source { tensor: 0 },
    Module::Source { tensor: 2 },
    Module::Sink { tensor: 1 },
    Module::Source { tensor: 0 },
];

// Stalls of cycles and tensors, and for each cycle from 0 the numbers of the modules that are stalled.
type Row = (&'static [(u64, u32)], &'static [&'static [usize]]);

const AVG_ROWS: &[Row] = &[
    (
        &[(2, 0), (3, 0), (4, 1)],
        &[&[], &[], &[2], &[2], &[5], &[]],
    ),
    (&[], &[&[], &[], &[]]),
    // In another order, repeated, and several in one cycle.
    (
        &[(3, 1), (0, 0), (3, 0), (1, 1), (3, 1), (0, 0)],
        &[&[2], &[5], &[], &[2, 5], &[]],
    ),
    // One for the last cycle that can be listed, and one of no input or output.
    (&[(18446744073709551615, 0), (1, 7)], &[&[], &[], &[]]),
];

const TWICE_ROWS: &[Row] = &[(&[(0, 0), (1, 1), (2, 0)], &[&[0, 3], &[2], &[0, 3], &[]])];

// The stalls of a row.
fn stalls_of(alloc: Global, pairs: &[(u64, u32)]) -> Result<Vec<Stall>, AllocError> {
    let mut stalls = Vec::new(alloc);
    for pair in pairs {
        stalls.push(Stall {
            cycle: pair.0,
            tensor: pair.1,
        })?;
    }
    Ok(stalls)
}

// The staged tensors of the program of a text, and none where it is refused.
fn staged_of(alloc: Global, text: &[u8]) -> Result<Items<StagedTensor>, AllocError> {
    match parse(alloc, text, MOST_TEXT) {
        Ok(program) => Ok(stage(alloc, &program)?.tensors),
        Err(ParseFail::Refused(_)) => Ok(Items::new(alloc)),
        Err(ParseFail::Memory) => Err(AllocError),
    }
}

// Whether the flags that are set are those of these modules.
fn are_set(flags: &[bool], modules: &[usize]) -> bool {
    for (number, flag) in flags.iter().enumerate() {
        if *flag != modules.contains(&number) {
            return false;
        }
    }
    true
}

// Whether the flags are those of a row, cycle by cycle.
fn holds(
    alloc: Global,
    staged: &[StagedTensor],
    modules: &[Module],
    row: &Row,
) -> Result<bool, AllocError> {
    let stalls = stalls_of(alloc, row.0)?;
    let mut flags = StallFlags::new(alloc, &stalls, modules, staged)?;
    for wanted in row.1 {
        if flags.flags().len() != modules.len() || !are_set(flags.flags(), *wanted) {
            return Ok(false);
        }
        flags.advance();
    }
    Ok(flags.cycle() == row.1.len() as u64)
}

// The number of the first row that doesn't hold, and the number of rows where all do.
fn first_wrong(
    alloc: Global,
    staged: &[StagedTensor],
    modules: &[Module],
    rows: &[Row],
) -> Result<usize, AllocError> {
    for number in 0..rows.len() {
        if !holds(alloc, staged, modules, &rows[number])? {
            return Ok(number);
        }
    }
    Ok(rows.len())
}

#[test]
fn flags_of_cycles(rt: HostRuntime) -> Result<(), Fail> {
    let staged = staged_of(rt.alloc(), AVG)?;
    assert_eq!(rt; staged.len(), 2);
    assert_eq!(rt;
        first_wrong(rt.alloc(), staged.as_slice(), AVG_MODULES, AVG_ROWS)?,
        AVG_ROWS.len()
    );
    assert_eq!(rt;
        first_wrong(rt.alloc(), staged.as_slice(), TWICE, TWICE_ROWS)?,
        TWICE_ROWS.len()
    );
    Ok(())
}

// As many modules as there may be, of which the last but one is a source and the last a sink.
fn many_modules(alloc: Global) -> Result<Vec<Module>, AllocError> {
    let forward = Module::Forward {
        tensor: 0,
        lane: 0,
        tap: 0,
    };
    let mut modules = vec![in alloc; forward; 65_534]?;
    modules.push(Module::Source { tensor: 0 })?;
    modules.push(Module::Sink { tensor: 1 })?;
    Ok(modules)
}

// From the last cycle to the first, the input in each, and the output in every third.
fn many_stalls(alloc: Global, cycles: u64) -> Result<Vec<Stall>, AllocError> {
    let mut stalls = Vec::new(alloc);
    for cycle in (0..cycles).rev() {
        stalls.push(Stall { cycle, tensor: 0 })?;
        if cycle % 3 == 0 {
            stalls.push(Stall { cycle, tensor: 1 })?;
        }
    }
    Ok(stalls)
}

// The number of the first cycle whose flags at the source and the sink aren't those of these stalls, or how many cycles
// there are.
fn first_other(alloc: Global, cycles: u64) -> Result<u64, AllocError> {
    let staged = staged_of(alloc, AVG)?;
    let modules = many_modules(alloc)?;
    let stalls = many_stalls(alloc, cycles)?;
    let mut flags = StallFlags::new(alloc, &stalls, &modules, staged.as_slice())?;
    for cycle in 0..cycles {
        let source = flags.flags().get(65_534).copied();
        let sink = flags.flags().get(65_535).copied();
        if source != Some(true) || sink != Some(cycle % 3 == 0) {
            return Ok(cycle);
        }
        flags.advance();
    }
    Ok(if are_set(flags.flags(), &[]) {
        cycles
    } else {
        0
    })
}

#[test]
fn many_stalls_of_many_modules(rt: HostRuntime) -> Result<(), Fail> {
    assert_eq!(rt; first_other(rt.alloc(), 196_608)?, 196_608);
    Ok(())
}
