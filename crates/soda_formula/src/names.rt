#![tactic(auto, using(crate::proofs::Refusals::refusals))]

ghost use Rattle.std.specs.Prelude.{◌≡◌, IfOk};
ghost use Rattle.soda_formula.specs.Grammar.{prefix_of};
ghost use Rattle.soda_formula.specs.machine.Steps.{word_mode, opened, opening_of, begun, sign_begun, group_begun};
ghost use Rattle.soda_formula.specs.machine.Views.{frame_of, frames_of, mode_of, opening_as, IsFed};

use crate::NoMemory;
use crate::frame::{Fed, Frame, Mode, Opening, Reader};
use crate::stack::waiting;
use crate::trees::number;
use soda_words::{BinOp, Placed, Symbol, Token, UnOp, Word, is_cast_word, is_word};
use sqlite_items::Items;
use std::alloc::Global;

/// What a token does where an operand is to come.
pub(crate) fn begun(alloc: Global, frames: Items<Frame>, placed: &Placed) -> Result<Fed, NoMemory>
    ensures { IfOk result (IsFed (begun (frames_of frames) placed.now.line placed.now.token) None) }
{
    match &placed.token {
        Token::Name(text) => {
            let text = Items::from_slice(alloc, text.as_slice())?;
            let line = placed.line;
            let mode = word_mode(Word { line, text });
            Ok(Fed::On(Reader { mode, frames }))
        }
        Token::Number(n) => Ok(Fed::On(Reader {
            mode: Mode::Whole(number(*n)),
            frames,
        })),
        Token::Sign(symbol) => sign_begun(frames, *symbol),
        Token::Bad => Ok(Fed::End(None)),
    }
}

/// What a word begins.
fn word_mode(word: Word) -> Mode
    ensures { mode_of result ≡ word_mode word }
{
    let text = word.text.as_slice();
    if is_cast_word(text) {
        Mode::Called(Frame::Cast(word))
    } else if is_word(BinOp::Min.spelling(), text) {
        Mode::Called(Frame::First(BinOp::Min))
    } else if is_word(BinOp::Max.spelling(), text) {
        Mode::Called(Frame::First(BinOp::Max))
    } else if is_word(UnOp::Abs.spelling(), text) {
        Mode::Called(Frame::Abs)
    } else if is_word(b"select", text) {
        Mode::Called(Frame::Test)
    } else {
        Mode::Named(word)
    }
}

fn sign_begun(frames: Items<Frame>, symbol: Symbol) -> Result<Fed, NoMemory>
    ensures { IfOk result (IsFed (sign_begun (prefix_of symbol) symbol (frames_of frames)) None) }
{
    match symbol.unary() {
        Some(op) => Ok(Fed::On(waiting(frames, Frame::Prefix(op))?)),
        None => group_begun(frames, symbol),
    }
}

fn group_begun(frames: Items<Frame>, symbol: Symbol) -> Result<Fed, NoMemory>
    ensures { IfOk result (IsFed (group_begun symbol (frames_of frames)) None) }
{
    match symbol {
        Symbol::OpenRound => Ok(Fed::On(waiting(frames, Frame::Group)?)),
        _ => Ok(Fed::End(None)),
    }
}

/// What a token does where the bracket of a call is to come.
pub(crate) fn opened(frames: Items<Frame>, call: Frame, token: &Token) -> Result<Fed, NoMemory>
    ensures { IfOk result (IsFed (opened (frame_of call) (frames_of frames) token.now) None) }
{
    match token {
        Token::Sign(symbol) => match symbol {
            Symbol::OpenRound => Ok(Fed::On(waiting(frames, call)?)),
            _ => {
                drop(call);
                Ok(Fed::End(None))
            }
        },
        Token::Name(_) | Token::Number(_) | Token::Bad => {
            drop(call);
            Ok(Fed::End(None))
        }
    }
}

/// The bracket that a token opens.
pub(crate) fn opening_of(token: &Token) -> Opening
    ensures { opening_as result ≡ opening_of token.now }
{
    match token {
        Token::Sign(symbol) => match symbol {
            Symbol::OpenRound => Opening::Round,
            Symbol::OpenSquare => Opening::Square,
            _ => Opening::Neither,
        },
        Token::Name(_) | Token::Number(_) | Token::Bad => Opening::Neither,
    }
}
