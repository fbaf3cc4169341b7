ghost use Rattle.std.specs.Prelude.{IfOk, [], nat_lt, length, if◌then◌else◌};
ghost use Rattle.soda_words.specs.Limits.{most_sizes};
ghost use Rattle.soda_formula.specs.Terms.{value};
ghost use Rattle.soda_formula.specs.machine.Steps.{finished, name_followed, index_followed, opening_of, in_state, at_index};
ghost use Rattle.soda_formula.specs.machine.Views.{frames_of, IsFed};

use crate::NoMemory;
use crate::frame::{Fed, Frame, Mode, Opening, Reader};
use crate::marks::behind_operand;
use crate::names::opening_of;
use crate::stack::alone;
use crate::trees::value;
use soda_words::{MOST_SIZES, Token, Word};
use sqlite_items::Items;
use std::alloc::Global;

/// What a token behind a name does.
pub(crate) fn behind_name(
    alloc: Global,
    frames: Items<Frame>,
    name: Word,
    token: &Token,
) -> Result<Fed, NoMemory>
    ensures { IfOk result
        (IsFed (name_followed (opening_of token.now) name (frames_of frames) token.now)
        (finished (Some (value name [])) (frames_of frames))) }
{
    match opening_of(token) {
        Opening::Round => Ok(Fed::On(Reader {
            mode: Mode::Component(name, Items::new(alloc)),
            frames,
        })),
        Opening::Square => Ok(Fed::On(Reader {
            mode: Mode::Index(name, Items::new(alloc)),
            frames,
        })),
        Opening::Neither => {
            let operand = value(name, Items::new(alloc));
            behind_operand(alloc, frames, operand, token)
        }
    }
}

/// What a token behind the indexes of a param does.
pub(crate) fn behind_index(
    alloc: Global,
    frames: Items<Frame>,
    param: Word,
    indexes: Items<u64>,
    token: &Token,
) -> Result<Fed, NoMemory>
    ensures { IfOk result
        (IsFed (index_followed (opening_of token.now) param indexes (frames_of frames) token.now)
        (finished (Some (value param indexes)) (frames_of frames))) }
{
    match opening_of(token) {
        Opening::Square => another_index(alloc, frames, param, indexes),
        Opening::Round => Ok(Fed::End(alone(alloc, frames, value(param, indexes))?)),
        Opening::Neither => {
            let operand = value(param, indexes);
            behind_operand(alloc, frames, operand, token)
        }
    }
}

fn another_index(
    alloc: Global,
    frames: Items<Frame>,
    param: Word,
    indexes: Items<u64>,
) -> Result<Fed, NoMemory>
    ensures { IfOk result
        (IsFed
        (if nat_lt (length indexes) most_sizes
        then in_state (at_index param indexes) (frames_of frames)
        else None)
        (finished (Some (value param indexes)) (frames_of frames))) }
{
    if indexes.len() < MOST_SIZES {
        Ok(Fed::On(Reader {
            mode: Mode::Index(param, indexes),
            frames,
        }))
    } else {
        Ok(Fed::End(alone(alloc, frames, value(param, indexes))?))
    }
}
