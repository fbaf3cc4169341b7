#![tactic(auto, using(crate::proofs::Refusals::refusals))]

ghost use Rattle.std.specs.Prelude.{◌++◌, ◌∷◌, [], IfOk};
ghost use Rattle.soda_formula.specs.machine.Steps.{in_state, component, magnitude, component_followed, index, index_closed, behind_component, at_close};
ghost use Rattle.soda_formula.specs.machine.Views.{frames_of, IsFed};

use crate::NoMemory;
use crate::frame::{Fed, Frame, Mode, Reader};
use crate::trees::cell;
use soda_words::{Symbol, Token, Word};
use sqlite_items::Items;

/// What a token does where a component of an offset is to come.
pub(crate) fn component(
    frames: Items<Frame>,
    tensor: Word,
    offsets: Items<i128>,
    token: &Token,
) -> Result<Fed, NoMemory>
    ensures { IfOk result (IsFed (component tensor offsets (frames_of frames) token.now) None) }
{
    match token {
        Token::Number(n) => with_component(frames, tensor, offsets, i128::from(*n)),
        Token::Sign(symbol) => match symbol {
            Symbol::MinusSign => Ok(Fed::On(Reader {
                mode: Mode::Magnitude(tensor, offsets),
                frames,
            })),
            _ => Ok(Fed::End(None)),
        },
        Token::Name(_) | Token::Bad => Ok(Fed::End(None)),
    }
}

/// What a token does behind the minus sign of a component.
pub(crate) fn magnitude(
    frames: Items<Frame>,
    tensor: Word,
    offsets: Items<i128>,
    token: &Token,
) -> Result<Fed, NoMemory>
    ensures { IfOk result (IsFed (magnitude tensor offsets (frames_of frames) token.now) None) }
{
    match token {
        Token::Number(n) => with_component(frames, tensor, offsets, -i128::from(*n)),
        Token::Name(_) | Token::Sign(_) | Token::Bad => Ok(Fed::End(None)),
    }
}

fn with_component(
    frames: Items<Frame>,
    tensor: Word,
    offsets: Items<i128>,
    component: i128,
) -> Result<Fed, NoMemory>
    ensures { IfOk result
        (IsFed (in_state (behind_component tensor (offsets ++ component ∷ [])) (frames_of frames)) None) }
{
    let mut offsets = offsets;
    offsets.push(component)?;
    Ok(Fed::On(Reader {
        mode: Mode::BehindComponent(tensor, offsets),
        frames,
    }))
}

/// What a token does behind a component of an offset.
pub(crate) fn behind_component(
    frames: Items<Frame>,
    tensor: Word,
    offsets: Items<i128>,
    token: &Token,
) -> Fed
    ensures { IsFed (component_followed tensor offsets (frames_of frames) token.now) None result }
{
    match token {
        Token::Sign(symbol) => match symbol {
            Symbol::Comma => Fed::On(Reader {
                mode: Mode::Component(tensor, offsets),
                frames,
            }),
            Symbol::CloseRound => Fed::On(Reader {
                mode: Mode::Whole(cell(tensor, offsets)),
                frames,
            }),
            _ => Fed::End(None),
        },
        Token::Name(_) | Token::Number(_) | Token::Bad => Fed::End(None),
    }
}

/// What a token does where the number of an index is to come.
pub(crate) fn index(
    frames: Items<Frame>,
    param: Word,
    indexes: Items<u64>,
    token: &Token,
) -> Result<Fed, NoMemory>
    ensures { IfOk result (IsFed (index param indexes (frames_of frames) token.now) None) }
{
    match token {
        Token::Number(n) => with_index(frames, param, indexes, *n),
        Token::Name(_) | Token::Sign(_) | Token::Bad => Ok(Fed::End(None)),
    }
}

fn with_index(
    frames: Items<Frame>,
    param: Word,
    indexes: Items<u64>,
    index: u64,
) -> Result<Fed, NoMemory>
    ensures { IfOk result (IsFed (in_state (at_close param (indexes ++ index ∷ [])) (frames_of frames)) None) }
{
    let mut indexes = indexes;
    indexes.push(index)?;
    Ok(Fed::On(Reader {
        mode: Mode::Close(param, indexes),
        frames,
    }))
}

/// What a token does behind the number of an index.
pub(crate) fn index_closed(
    frames: Items<Frame>,
    param: Word,
    indexes: Items<u64>,
    token: &Token,
) -> Fed
    ensures { IsFed (index_closed param indexes (frames_of frames) token.now) None result }
{
    match token {
        Token::Sign(symbol) => match symbol {
            Symbol::CloseSquare => Fed::On(Reader {
                mode: Mode::Indexed(param, indexes),
                frames,
            }),
            _ => Fed::End(None),
        },
        Token::Name(_) | Token::Number(_) | Token::Bad => Fed::End(None),
    }
}
