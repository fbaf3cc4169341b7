ghost use Rattle.std.specs.Prelude.{◌≡◌, ◌↔◌, IsTrue, ℕ, ◌<◌, ◌≤◌, ◌^◌, ◌++◌, ◌∷◌, [], codes, length, pos, IfOk, MatchOption};
ghost use Rattle.delay_net.specs.Limits.{delay_end};
ghost use Rattle.delay_net.specs.Shape.{HasSmallOffset};
ghost use Rattle.delay_net.specs.Windows.{HasShortDelays, MeetsWindow, age, at_least_0};
ghost use Rattle.design_lines.specs.PlanLines.{read_front, read_line, tensor_front, tensor_line};
ghost use Rattle.soda_ir.specs.Program.{plain};
ghost use Rattle.design_lines.specs.Lines.{GoesOn};
ghost use Rattle.design_lines.specs.machine.Reading.{two_numbered};

use crate::NoMemory;
use crate::cursor::{Pair, two_behind};
use crate::text::{add_read_front, add_tensor_front};
use delay_net::{DELAY_END, Read, age_of, meets_window};
use soda_ir::Parts;
use std::alloc::Global;
use time_stages::StagedTensor;

// What stands before the delay in the line of the staged tensor of this number.
fn tensor_front(
    alloc: Global,
    parts: &Parts,
    number: usize,
    staged: &StagedTensor,
) -> Result<Vec<u8>, NoMemory>
    ensures { IfOk result (λ text. text.items ≡ tensor_front (plain parts.now) number staged.now) }
{
    let mut text = Vec::new(alloc);
    add_tensor_front(alloc, &mut text, parts, number, staged)?;
    Ok(text)
}

// What stands before the hold in the line of the read of this number.
fn read_front(alloc: Global, number: usize, read: Read, age: u64) -> Result<Vec<u8>, NoMemory>
    ensures { IfOk result (λ text. text.items ≡ read_front number read age) }
{
    let mut text = Vec::new(alloc);
    add_read_front(alloc, &mut text, number, read, age)?;
    Ok(text)
}

/// The delay and the storage that the line of the staged tensor of this number tells, in this order, and the text
/// behind it, if the text goes on with such a line.
pub fn tensor_told<'a>(
    alloc: Global,
    text: &'a [u8],
    parts: &Parts,
    number: usize,
    staged: &StagedTensor,
) -> Result<Option<Pair<'a>>, NoMemory>
    ensures { IfOk result (λ told. MatchOption told
        ((delay storage : ℕ) → delay < delay_end → storage < 2 ^ 64
        → GoesOn (tensor_line (plain parts.now) number staged.now delay storage ∷ []) text.now → ⊥)
        (λ t. (t.first < delay_end) × (t.second < 2 ^ 64) × (text.now
        ≡ (tensor_line (plain parts.now) number staged.now t.first t.second ++ codes "\n") ++ t.rest.now))) }
{
    let front = tensor_front(alloc, parts, number, staged)?;
    match two_behind(&front, b" storage ", text) {
        Some(told) => {
            let delay = told.first;
            if delay < DELAY_END {
                Ok(Some(told))
            } else {
                Ok(None)
            }
        }
        None => Ok(None),
    }
}

/// What the line of a read tells, and the text behind it.
#[derive(Clone, Copy)]
pub struct Amounts<'a> {
    /// The hold, in bits.
    pub hold: u32,
    /// The need, in bits.
    pub need: u32,
    /// What follows the line.
    pub rest: &'a [u8],
}

// Two numbers as a hold and a need, where both fit.
fn amounts_of(pair: Pair<'_>) -> Option<Amounts<'_>>
    ensures { MatchOption result (pair.entry.first < 2 ^ 32 → pair.entry.second < 2 ^ 32 → ⊥)
        (λ t. (t.hold < 2 ^ 32) × (t.need < 2 ^ 32) × (t.hold ≡ pair.entry.first) × (t.need ≡ pair.entry.second)
        × (t.rest.now ≡ pair.entry.rest.now)) }
{
    let first = pair.first;
    let second = pair.second;
    if first > u32::MAX as u64 {
        return None;
    }
    if second > u32::MAX as u64 {
        return None;
    }
    Some(Amounts {
        hold: first as u32,
        need: second as u32,
        rest: pair.rest,
    })
}

// The two numbers that the line of a read of this age tells, and the text behind it, if there is such a line.
fn pair_told<'a>(
    alloc: Global,
    text: &'a [u8],
    number: usize,
    read: Read,
    age: u64,
) -> Result<Option<Pair<'a>>, NoMemory>
    ensures { IfOk result (λ told. MatchOption told
        ((hold need : ℕ) → hold < 2 ^ 64 → need < 2 ^ 64
        → GoesOn (two_numbered (read_front number read age) (codes " need ") hold need ∷ []) text.now → ⊥)
        (λ t. (t.first < 2 ^ 64) × (t.second < 2 ^ 64) × (text.now
        ≡ (two_numbered (read_front number read age) (codes " need ") t.first t.second ++ codes "\n") ++ t.rest.now))) }
{
    let front = read_front(alloc, number, read, age)?;
    Ok(two_behind(&front, b" need ", text))
}

/// The hold and the need that the line of the read of this number tells, and the text behind it, if the text goes on
/// with such a line and the delays meet the window of the read.
pub fn read_told<'a>(
    alloc: Global,
    text: &'a [u8],
    number: usize,
    read: Read,
    delays: &[u64],
) -> Result<Option<Amounts<'a>>, NoMemory>
    requires reader { read.reader < length delays.now }
    requires of { read.of < length delays.now }
    requires offset { HasSmallOffset read }
    requires short { HasShortDelays delays.now }
    ensures { IfOk result (λ told. MatchOption told
        ((hold need : ℕ) → hold < 2 ^ 32 → need < 2 ^ 32 → MeetsWindow delays.now read
        → GoesOn (read_line number read (at_least_0 (age delays.now read)) hold need ∷ []) text.now → ⊥)
        (λ t. (t.hold < 2 ^ 32) × (t.need < 2 ^ 32) × MeetsWindow delays.now read × (text.now
        ≡ (read_line number read (at_least_0 (age delays.now read)) t.hold t.need ++ codes "\n") ++ t.rest.now))) }
{
    if !meets_window(read, delays) {
        return Ok(None);
    }
    let age = age_of(read, delays);
    match pair_told(alloc, text, number, read, age)? {
        Some(pair) => Ok(amounts_of(pair)),
        None => Ok(None),
    }
}
