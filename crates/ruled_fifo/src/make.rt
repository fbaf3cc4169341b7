//! Making a queue.
ghost use Rattle.std.specs.Prelude.{◌≡◌, [], ◌<◌, IfOk};
ghost use Rattle.ruled_fifo.specs.Ends.{sent, taken, send_misses, take_misses, send_capacity, take_capacity, AreOfOneQueue};

use crate::NoMemory;
use crate::ends::{SendEnd, TakeEnd};
use crate::rule::{Line, TwoEnds};
use std::alloc::Global;
use std::sync::Arc;

/// The two ends of a new queue, which holds at most `capacity` values. Nothing was sent, nothing was
/// taken, and neither end has a miss. No other call of the queue takes memory.
pub fn fifo(alloc: Global, capacity: u32) -> Result<(SendEnd, TakeEnd), NoMemory>
    requires { 0 < capacity }
    ensures queue { IfOk result (λ ends. AreOfOneQueue ends.0 ends.1) }
    ensures capacity { IfOk result (λ ends. (send_capacity ends.0 ≡ capacity) × (take_capacity ends.1 ≡ capacity)) }
    ensures lists { IfOk result (λ ends. (sent ends.0 ≡ []) × (taken ends.1 ≡ [])) }
    ensures misses { IfOk result (λ ends. (send_misses ends.0 ≡ 0) × (take_misses ends.1 ≡ 0)) }
{
    let (queue, mut pass) = Line::ruled(alloc, capacity as usize)?;
    let other = queue.another::<TwoEnds>(&mut pass);
    let line = Arc::new(alloc, queue)?;
    let again = Arc::try_clone(&line)?;
    Ok((SendEnd::of(line, pass), TakeEnd::of(again, other)))
}
