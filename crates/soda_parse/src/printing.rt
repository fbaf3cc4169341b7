ghost use Rattle.std.specs.Prelude.{◌≡◌, IfOk};
ghost use Rattle.soda_ir.specs.Program.{PlainProgram, plain};
ghost use Rattle.soda_ir.specs.Valid.{IsValid};
ghost use Rattle.soda_parse.specs.Text.{Accepts};
ghost use Rattle.soda_print.specs.Canonical.{canonical};
ghost use Rattle.soda_print.specs.Sized.{IsSizedProgram};
ghost use Rattle.soda_words.specs.Limits.{most_canonical};

use crate::NoMemory;
use soda_ir::Program;
use std::alloc::Global;

/// The canonical text of a program, of at most `soda_words::MOST_CANONICAL` bytes: `parse` reads it back as this
/// program. No two programs have one canonical text.
pub fn print(alloc: Global, program: &Program) -> Result<Vec<u8>, NoMemory>
    ensures text { IfOk result (λ text. text.items ≡ canonical (plain program.now)) }
    ensures read_back { IfOk result (λ text. Accepts most_canonical text.items (plain program.now)) }
    ensures one { IfOk result (λ text. (q : PlainProgram) → Accepts most_canonical text.items q →
        q ≡ plain program.now) }
    ensures alone { IfOk result (λ text. (q : PlainProgram) → IsValid q → IsSizedProgram q →
        canonical q ≡ text.items → q ≡ plain program.now) }
{
    soda_print::print(alloc, program)
}
