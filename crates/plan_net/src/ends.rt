ghost use Rattle.std.specs.Prelude.{◌≡◌, ◌<◌, ◌++◌, ◌∷◌, [], IfOk, OnOk, length, reverse};
ghost use Rattle.net_shape.specs.Queues.{goes_before, put_queue};

use crate::NoMemory;
use net_ir::Queue;

// Whether a queue goes before another by its receiver's number, and with the same receiver by its port.
fn goes_before(a: &Queue, b: &Queue) -> bool
    ensures { result ≡ goes_before a.now b.now }
{
    a.to < b.to || (a.to == b.to && a.port < b.port)
}

/// Puts a queue in its place among others in order, which are held from the last to the first.
pub(crate) fn put_queue(held: &mut Vec<Queue>, queue: Queue) -> Result<(), NoMemory>
    ensures { OnOk result (reverse held.new.items ≡ put_queue queue (reverse held.old.items)) }
{
    let mut place = held.len();
    while place > 0 && !goes_before(&queue, &held[place - 1]) {
        place -= 1;
    }
    held.insert(place, queue)?;
    Ok(())
}

/// Adds queues that are held from the last to the first.
pub(crate) fn push_held(held: &[Queue], queues: &mut Vec<Queue>) -> Result<(), NoMemory>
    ensures { OnOk result (queues.new.items ≡ queues.old.items ++ reverse held.now) }
{
    for passed in 0..held.len() {
        queues.push(held[held.len() - 1 - passed])?;
    }
    Ok(())
}
