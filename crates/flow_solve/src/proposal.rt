ghost use Rattle.std.specs.Prelude.{◌≡◌, ◌<◌, ◌≤◌, length, IfOk};
ghost use Rattle.std.specs.List.{All};
ghost use Rattle.delay_net.specs.Limits.{most_tensors};
ghost use Rattle.flow_solve.specs.machine.Steps.{IsStep, AreSteps};

use crate::search::{longest_steps, room};
use crate::steps::{Kind, Step, Steps, ordered};
use delay_net::{Net, NoMemory};
use std::alloc::Global;

// Two numbers for each read.
#[derive(Drop)]
pub(crate) struct Certificate {
    pub(crate) hold: Vec<u32>,
    pub(crate) need: Vec<u32>,
}

// How many units the amounts let along a walk, of as many as are asked.
fn room_along(walk: &[Step], hold: &[u32], need: &[u32], asked: u32) -> u32
    requires walk { All (IsStep (length hold.now)) walk.now }
    requires needs { length need.now ≡ length hold.now }
    ensures { result ≤ asked }
{
    let mut units = asked;
    for step in walk {
        units = room(*step, hold, need).min(units);
    }
    units
}

// Sends units along a step.
fn send(step: Step, units: u32, hold: &mut [u32], need: &mut [u32])
    requires holds { step.read < length hold.old }
    requires needs { step.read < length need.old }
{
    let read = step.read as usize;
    match step.kind {
        Kind::Window => need[read] = need[read].saturating_add(units),
        Kind::Storage => hold[read] = hold[read].saturating_add(units),
        Kind::WindowBack => need[read] = need[read].saturating_sub(units),
        Kind::StorageBack => hold[read] = hold[read].saturating_sub(units),
    }
}

// Sends units along a walk.
fn send_along(walk: &[Step], units: u32, hold: &mut [u32], need: &mut [u32])
    requires walk { All (IsStep (length hold.old)) walk.now }
    requires needs { length need.old ≡ length hold.old }
{
    for step in walk {
        send(*step, units, hold, need);
    }
}

// Sends units of a tensor along a longest walk, as many as are asked or as the walk lets through, and
// answers how many.
fn send_some(
    alloc: Global,
    steps: &Steps,
    tensors: u32,
    tensor: u32,
    asked: u32,
    hold: &mut [u32],
    need: &mut [u32],
) -> Result<u32, NoMemory>
    requires steps { AreSteps (length hold.old) steps.now }
    requires tensors { tensors ≤ most_tensors }
    requires tensor { tensor < tensors }
    requires needs { length need.old ≡ length hold.old }
    ensures { IfOk result (λ units. units ≤ asked) }
{
    let Some(walk) = longest_steps(alloc, steps, tensors, tensor, hold, need)? else {
        return Ok(0);
    };
    let units = room_along(&walk, hold, need, asked);
    send_along(&walk, units, hold, need);
    Ok(units)
}

// Sends the width of a tensor along longest walks.
fn send_width(
    alloc: Global,
    steps: &Steps,
    tensors: u32,
    tensor: u32,
    width: u32,
    hold: &mut [u32],
    need: &mut [u32],
) -> Result<(), NoMemory>
    requires steps { AreSteps (length hold.old) steps.now }
    requires tensors { tensors ≤ most_tensors }
    requires tensor { tensor < tensors }
    requires needs { length need.old ≡ length hold.old }
{
    let mut left = width;
    while left > 0 {
        let units = send_some(alloc, steps, tensors, tensor, left, hold, need)?;
        if units == 0 {
            break;
        }
        left -= units;
    }
    Ok(())
}

// The amounts after the width of each tensor went along longest walks from its first node to its
// second, in what the amounts so far leave.
pub(crate) fn proposal(alloc: Global, net: &Net) -> Result<Certificate, NoMemory>
    ensures holds { IfOk result (λ found. length found.hold.items ≡ length net.now.reads) }
    ensures needs { IfOk result (λ found. length found.need.items ≡ length net.now.reads) }
{
    let steps = ordered(alloc, net)?;
    let tensors = net.weights().len() as u32;
    let reads = net.reads().len();
    let mut hold = vec![in alloc; 0; reads]?;
    let mut need = vec![in alloc; 0; reads]?;
    for (tensor, width) in net.weights().iter().enumerate() {
        send_width(
            alloc,
            &steps,
            tensors,
            tensor as u32,
            *width as u32,
            &mut hold,
            &mut need,
        )?;
    }
    Ok(Certificate { hold, need })
}
