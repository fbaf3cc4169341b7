//! Three hundred formulas of each kind.

ghost use Rattle.std.specs.Prelude.{◌≡◌};
ghost use Rattle.soda_ir.specs.Program.{plain};
ghost use Rattle.soda_eval.specs.Runs.{HasValues, place_types};

use super::cells::{OUTPUT, make_arrays, tensor_type, values_of};
use super::programs::{NARROW, Random, WIDE, Words, program};
use super::runs::{code_holds, narrow_holds, one_holds, wide_holds};
use formula_code::{Code, compile};
use int_types::Ty;
use param_lines::{LineFail, read_params};
use soda_ir::Program;
use sqlite_items::Items;
use std::alloc::{AllocError, Global};
use std::test::Fail;

const LANES: usize = 1000;

// The lines of a program's params.
fn lines_of(number: u64) -> &'static [u8] {
    match number % 4 {
        0 => b"p 0\nq 0\n",
        1 => b"p -1\nq 1\n",
        2 => b"p 1073741823\nq 32767\n",
        _ => b"p -1073741824\nq 10\n",
    }
}

// Whether a run of the code over n lanes gives these values: on wide words, on the words that were chosen, and over
// narrow cells where these were.
fn lanes_hold(
    alloc: Global,
    code: &Code,
    arrays: &[Items<i128>],
    values: &[i128],
    ty: Ty,
    n: usize,
) -> Result<bool, AllocError> {
    let reads = code.wide.reads.as_slice();
    if !wide_holds(alloc, &code.wide, arrays, values, ty, n)? {
        return Ok(false);
    }
    if let Some(narrow) = &code.narrow {
        if !narrow_holds(alloc, reads, narrow, arrays, values, n)? {
            return Ok(false);
        }
    }
    code_holds(alloc, code, arrays, values, n)
}

// Whether each run of the code gives these values.
fn code_is_right(
    alloc: Global,
    code: &Code,
    arrays: &[Items<i128>],
    values: &[i128],
    ty: Ty,
) -> Result<bool, AllocError> {
    for lane in 0..values.len().min(3) {
        if !one_holds(alloc, code, arrays, values[lane], lane)? {
            return Ok(false);
        }
    }
    for n in [1, 7, LANES] {
        if !lanes_hold(alloc, code, arrays, values, ty, n)? {
            return Ok(false);
        }
    }
    Ok(true)
}

// Whether the code of the program's output gives the formula's values; and whether it is on narrow words.
fn compiled_holds(
    alloc: Global,
    random: &mut Random,
    program: &Program,
    params: &[i128],
) -> Result<(bool, bool), AllocError>
    requires { HasValues (place_types (plain program.now).params) params.now }
{
    let arrays = make_arrays(alloc, random, program, LANES + 4)?;
    match compile(alloc, program, OUTPUT, params)? {
        Some(code) => {
            let values = values_of(alloc, program, params, &arrays, LANES)?;
            let ty = tensor_type(program, OUTPUT);
            let holds = code_is_right(alloc, &code, &arrays, &values, ty)?;
            Ok((holds, code.narrow.is_some()))
        }
        None => Ok((false, false)),
    }
}

// The same of a program made from numbers.
fn holds(
    alloc: Global,
    random: &mut Random,
    words: &Words,
    steps: u64,
    lines: &[u8],
) -> Result<(bool, bool), AllocError> {
    match program(alloc, random, words, steps)? {
        Some(program) => {
            let holds = program_holds(alloc, random, &program, lines);
            drop(program);
            holds
        }
        None => Ok((false, false)),
    }
}

// The same of this program, with the params' values from these lines.
fn program_holds(
    alloc: Global,
    random: &mut Random,
    program: &Program,
    lines: &[u8],
) -> Result<(bool, bool), AllocError> {
    match read_params(alloc, program, lines) {
        Ok(params) => compiled_holds(alloc, random, program, &params),
        Err(LineFail::Line(_)) => Ok((false, false)),
        Err(LineFail::Memory) => Err(AllocError),
    }
}

// The number of the first formula of 300 that doesn't hold, and 300 where all do; and how many are on narrow words.
fn first_wrong(alloc: Global, seed: u64, words: &Words) -> Result<(u64, u64), AllocError> {
    let mut random = Random::new(seed);
    let mut narrow = 0u64;
    for number in 0..300u64 {
        let lines = lines_of(number);
        let (right, is_narrow) = holds(alloc, &mut random, words, number % 25, lines)?;
        if !right {
            return Ok((number, narrow));
        }
        narrow = narrow.wrapping_add(u64::from(is_narrow));
    }
    Ok((300, narrow))
}

#[test]
fn formulas_of_all_types(rt: HostRuntime) -> Result<(), Fail> {
    assert_eq!(rt;
        first_wrong(rt.alloc(), 0x1234_5678_9abc_def1, &WIDE)?.0,
        300
    );
    Ok(())
}

#[test]
fn formulas_on_narrow_words(rt: HostRuntime) -> Result<(), Fail> {
    assert_eq!(rt;
        first_wrong(rt.alloc(), 0x0fed_cba9_8765_4321, &NARROW)?,
        (300, 300)
    );
    Ok(())
}
