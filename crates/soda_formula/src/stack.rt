ghost use Rattle.std.specs.Prelude.{◌≡◌, ◌∷◌, IfOk, option_map};
ghost use Rattle.soda_formula.specs.machine.Steps.{reduce, left_alone, in_state, wanted};
ghost use Rattle.soda_formula.specs.Tree.{term_of};
ghost use Rattle.soda_formula.specs.machine.Views.{frame_of, frames_of, held, state_of, IsTaken};

use crate::frame::{Frame, Mode, Reader, Taken};
use crate::trees::{binary, unary};
use crate::{NoMemory, Written};
use sqlite_items::Items;
use std::alloc::Global;

/// Gives the operand to each of the innermost operators that bind at least as tightly as this level.
pub(crate) fn reduced(
    alloc: Global,
    frames: &mut Items<Frame>,
    level: u8,
    operand: Written,
) -> Result<Written, NoMemory>
    ensures { IfOk result
        (λ w. reduce level (frames_of frames.old) (term_of operand) ≡ held frames.new w) }
{
    let mut operand = operand;
    loop {
        match taken(alloc, frames, level, operand)? {
            Taken::Again(larger) => operand = larger,
            Taken::Done(whole) => return Ok(whole),
        }
    }
}

/// Gives the operand to the innermost operator, if that binds at least as tightly as this level.
fn taken(
    alloc: Global,
    frames: &mut Items<Frame>,
    level: u8,
    operand: Written,
) -> Result<Taken, NoMemory>
    ensures { IfOk result (IsTaken level frames.old frames.new (term_of operand)) }
{
    let Some(frame) = frames.pop() else {
        return Ok(Taken::Done(operand));
    };
    match frame {
        Frame::Prefix(op) => Ok(Taken::Again(unary(alloc, op, operand)?)),
        Frame::Infix(infix, left) => {
            if infix.level < level {
                frames.push(Frame::Infix(infix, left))?;
                return Ok(Taken::Done(operand));
            }
            Ok(Taken::Again(binary(alloc, infix.op, left, operand)?))
        }
        bracket => {
            frames.push(bracket)?;
            Ok(Taken::Done(operand))
        }
    }
}

/// The operand as the whole formula, if nothing waits but operators.
pub(crate) fn alone(
    alloc: Global,
    frames: Items<Frame>,
    operand: Written,
) -> Result<Option<Written>, NoMemory>
    ensures { IfOk result (λ w. option_map term_of w ≡ left_alone (reduce 0 (frames_of frames) (term_of operand))) }
{
    let mut frames = frames;
    let operand = reduced(alloc, &mut frames, 0, operand)?;
    Ok(lone(&frames, operand))
}

/// The operand, if nothing waits.
pub(crate) fn lone(frames: &Items<Frame>, operand: Written) -> Option<Written>
    ensures { option_map term_of result ≡ left_alone (held frames.now operand) }
{
    if frames.is_empty() {
        Some(operand)
    } else {
        None
    }
}

/// What is read, with one frame more, where an operand is wanted.
pub(crate) fn waiting(frames: Items<Frame>, frame: Frame) -> Result<Reader, NoMemory>
    ensures { IfOk result (λ r. Some (state_of r) ≡ in_state wanted (frame_of frame ∷ frames_of frames)) }
{
    let mut frames = frames;
    frames.push(frame)?;
    Ok(Reader {
        mode: Mode::Wanted,
        frames,
    })
}
