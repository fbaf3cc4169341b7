ghost use Rattle.std.specs.Prelude.{◌≡◌, IfOk, IfErr, Some, None};
ghost use Rattle.soda_formula.specs.Reading.{ReadsFormula, StopsFormula};
ghost use Rattle.soda_formula.specs.Tree.{term_of};
ghost use Rattle.soda_formula.specs.Fails.{IfWrong};

use crate::frame::{Fed, Reader};
use crate::size::Size;
use crate::{NoMemory, Written};
use soda_words::Placed;
use std::alloc::Global;

/// Why no formula was read.
#[derive(Clone, Copy)]
pub enum FormulaFail {
    /// The token of this number is wrong, or the tokens end before it.
    Wrong(usize),
    /// Want of memory.
    Memory,
}

impl From<NoMemory> for FormulaFail {
    ghost use Rattle.std.specs.Prelude.{◌≡◌};
    ghost use Rattle.soda_formula.specs.declared.reading.FormulaFail.{FormulaFail};

    ghost from_gives = { λ _ fail. fail ≡ FormulaFail.Memory };

    fn from(_e: NoMemory) -> FormulaFail {
        FormulaFail::Memory
    }
}

/// The formula at the front of the tokens, as long as it goes on, and how many tokens it has.
pub fn read_formula(alloc: Global, tokens: &[Placed]) -> Result<(Written, usize), FormulaFail>
    ensures found { IfOk result (λ found. ReadsFormula tokens.now found.1 (term_of found.0)) }
    ensures wrong { IfWrong result (StopsFormula tokens.now) }
{
    let mut reader = Reader::new(alloc);
    let mut size = Size::none();
    for (i, placed) in tokens.iter().enumerate() {
        match reader.feed(alloc, placed)? {
            Fed::On(next) => {
                reader = next;
                size = size.with(&placed.token);
                if size.is_large() {
                    drop(reader);
                    return Err(FormulaFail::Wrong(i));
                }
            }
            Fed::End(found) => return ended(found, i),
        }
    }
    ended(reader.finish(alloc)?, tokens.len())
}

/// The answer where a formula or none ends behind so many tokens.
fn ended(found: Option<Written>, count: usize) -> Result<(Written, usize), FormulaFail>
    ensures found { IfOk result (λ answer. (found ≡ Some answer.0) × (answer.1 ≡ count)) }
    ensures wrong { IfErr result (λ fail. (found ≡ None) × (fail ≡ FormulaFail.Wrong count)) }
{
    match found {
        Some(written) => Ok((written, count)),
        None => Err(FormulaFail::Wrong(count)),
    }
}
