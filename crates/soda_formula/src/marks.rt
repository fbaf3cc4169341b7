#![tactic(auto, using(crate::proofs::Refusals::refusals))]

ghost use Rattle.std.specs.Prelude.{◌≡◌, IfOk, option_map};
ghost use Rattle.soda_formula.specs.Grammar.{infix_of};
ghost use Rattle.soda_formula.specs.machine.Steps.{reduce, left_alone, enclosed, parted, closing, parting, mark_after, sign_after, after};
ghost use Rattle.soda_formula.specs.Tree.{term_of};
ghost use Rattle.soda_formula.specs.machine.Views.{frame_of, frames_of, held, IsFed};

use crate::frame::{Fed, Frame, Mode, Reader};
use crate::operators::infix_of;
use crate::stack::{alone, lone, reduced, waiting};
use crate::trees::{binary, cast, choice, unary};
use crate::{NoMemory, Written};
use soda_words::{Symbol, Token, UnOp};
use sqlite_items::Items;
use std::alloc::Global;

/// What a token behind a whole operand does.
pub(crate) fn behind_operand(
    alloc: Global,
    frames: Items<Frame>,
    operand: Written,
    token: &Token,
) -> Result<Fed, NoMemory>
    ensures { IfOk result
        (IsFed (after (frames_of frames) (term_of operand) token.now)
        (left_alone (reduce 0 (frames_of frames) (term_of operand)))) }
{
    match token {
        Token::Sign(symbol) => behind_sign(alloc, frames, operand, *symbol),
        Token::Name(_) | Token::Number(_) | Token::Bad => {
            Ok(Fed::End(alone(alloc, frames, operand)?))
        }
    }
}

fn behind_sign(
    alloc: Global,
    frames: Items<Frame>,
    operand: Written,
    symbol: Symbol,
) -> Result<Fed, NoMemory>
    ensures { IfOk result
        (IsFed (sign_after (infix_of symbol) symbol (frames_of frames) (term_of operand))
        (left_alone (reduce 0 (frames_of frames) (term_of operand)))) }
{
    let mut frames = frames;
    match infix_of(symbol) {
        Some(infix) => {
            let left = reduced(alloc, &mut frames, infix.level, operand)?;
            Ok(Fed::On(waiting(frames, Frame::Infix(infix, left))?))
        }
        None => {
            let operand = reduced(alloc, &mut frames, 0, operand)?;
            behind_mark(alloc, frames, operand, symbol)
        }
    }
}

fn behind_mark(
    alloc: Global,
    frames: Items<Frame>,
    operand: Written,
    symbol: Symbol,
) -> Result<Fed, NoMemory>
    ensures { IfOk result (IsFed (mark_after symbol (held frames operand)) (left_alone (held frames operand))) }
{
    match symbol {
        Symbol::CloseRound => behind_close(alloc, frames, operand),
        Symbol::Comma => behind_comma(frames, operand),
        _ => Ok(Fed::End(lone(&frames, operand))),
    }
}

fn behind_close(alloc: Global, frames: Items<Frame>, operand: Written) -> Result<Fed, NoMemory>
    ensures { IfOk result
        (IsFed (closing (frames_of frames) (term_of operand)) (left_alone (held frames operand))) }
{
    let mut frames = frames;
    let Some(frame) = frames.pop() else {
        return Ok(Fed::End(Some(operand)));
    };
    match enclosed(alloc, frame, operand)? {
        Some(whole) => Ok(Fed::On(Reader {
            mode: Mode::Whole(whole),
            frames,
        })),
        None => Ok(Fed::End(None)),
    }
}

/// The operand that ends with `)`, if one does.
fn enclosed(alloc: Global, frame: Frame, operand: Written) -> Result<Option<Written>, NoMemory>
    ensures { IfOk result (λ w. option_map term_of w ≡ enclosed (frame_of frame) (term_of operand)) }
{
    match frame {
        Frame::Group => Ok(Some(operand)),
        Frame::Cast(word) => Ok(Some(cast(alloc, word, operand)?)),
        Frame::Abs => Ok(Some(unary(alloc, UnOp::Abs, operand)?)),
        Frame::Second(op, first) => Ok(Some(binary(alloc, op, first, operand)?)),
        Frame::Else(test, first) => Ok(Some(choice(alloc, test, first, operand)?)),
        Frame::Infix(_, left) => {
            drop(left);
            drop(operand);
            Ok(None)
        }
        Frame::Then(test) => {
            drop(test);
            drop(operand);
            Ok(None)
        }
        Frame::Prefix(_) | Frame::First(_) | Frame::Test => {
            drop(operand);
            Ok(None)
        }
    }
}

fn behind_comma(frames: Items<Frame>, operand: Written) -> Result<Fed, NoMemory>
    ensures { IfOk result
        (IsFed (parting (frames_of frames) (term_of operand)) (left_alone (held frames operand))) }
{
    let mut frames = frames;
    let Some(frame) = frames.pop() else {
        return Ok(Fed::End(Some(operand)));
    };
    match parted(frame, operand) {
        Some(frame) => Ok(Fed::On(waiting(frames, frame)?)),
        None => Ok(Fed::End(None)),
    }
}

/// What waits behind a comma, if one may stand there.
fn parted(frame: Frame, operand: Written) -> Option<Frame>
    ensures { option_map frame_of result ≡ parted (frame_of frame) (term_of operand) }
{
    match frame {
        Frame::First(op) => Some(Frame::Second(op, operand)),
        Frame::Test => Some(Frame::Then(operand)),
        Frame::Then(test) => Some(Frame::Else(test, operand)),
        other => {
            drop(other);
            drop(operand);
            None
        }
    }
}
