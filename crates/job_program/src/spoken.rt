ghost use Rattle.std.specs.Prelude.{◌≡◌, ◌<◌, ℕ, ℤ, List, length, suc, slice_index_or, true, IfOk};
ghost use Rattle.soda_ir.specs.Program.{PlainProgram, plain};
ghost use Rattle.soda_eval.specs.Runs.{defined_arrays};
ghost use Rattle.soda_parse.specs.Fails.{IfRefused};
ghost use Rattle.soda_parse.specs.Text.{Accepts};
ghost use Rattle.job_program.specs.Spoken.{IsMadeOf, PassesFirst, RefusesProgram, SpeaksOf};

use share_expr::{ShareRefusal, share};
use soda_ir::Program;
use soda_parse::{ParseFail, Refusal, parse};
use std::alloc::Global;

// What sharing makes of a program, or the first limit of sharing that it passes.
fn shared_program(alloc: Global, program: Program) -> Result<Program, ParseFail>
    ensures made { IfOk result (λ q. IsMadeOf true (plain program) (plain q)) }
    ensures arrays { IfOk result (λ q. (rows : ℕ) (params : List ℤ) (inputs : List (List ℤ))
        → defined_arrays (plain q) rows params inputs ≡ defined_arrays (plain program) rows params inputs) }
    ensures refused { IfRefused result (PassesFirst (plain program)) }
{
    let made = share(alloc, &program);
    drop(program);
    match made {
        Ok(shared) => Ok(shared),
        Err(ShareRefusal::Limit(kind, number)) => {
            Err(ParseFail::Refused(Refusal::Limit(kind, number)))
        }
        Err(ShareRefusal::Memory) => Err(ParseFail::Memory),
    }
}

/// The program that is spoken of where a job has this text, of at most so many bytes: the program of the text, or where
/// sharing is asked for, what sharing makes of that. A text is refused as `parse` refuses it. Behind that the limits of
/// sharing are refused, each with the number that passes it.
pub fn spoken_program(
    alloc: Global,
    text: &[u8],
    most: u32,
    share: bool,
) -> Result<Program, ParseFail>
    ensures spoken { IfOk result (λ q. SpeaksOf most share text.now (plain q)) }
    // Shared or not, its arrays are those of the program of the text.
    ensures arrays { IfOk result (λ q. (p : PlainProgram) (rows : ℕ) (params : List ℤ) (inputs : List (List ℤ))
        → Accepts most text.now p
        → defined_arrays (plain q) rows params inputs ≡ defined_arrays p rows params inputs) }
    ensures refused { IfRefused result (RefusesProgram most share text.now) }
{
    match parse(alloc, text, most) {
        Ok(program) => {
            if share {
                shared_program(alloc, program)
            } else {
                Ok(program)
            }
        }
        Err(fail) => Err(fail),
    }
}
