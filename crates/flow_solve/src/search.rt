ghost use Rattle.std.specs.Prelude.{◌≡◌, ℕ, ◌+◌, ◌<◌, ◌≤◌, length, IfOk, IfSome};
ghost use Rattle.std.specs.List.{All};
ghost use Rattle.delay_net.specs.Limits.{most_tensors};
ghost use Rattle.flow_solve.specs.Limits.{most_nodes};
ghost use Rattle.flow_solve.specs.machine.Steps.{IsStep, AreSteps, HasStep, AreMarks};

use crate::limits::MOST_NODES;
use crate::steps::{Kind, Step, Steps};
use delay_net::NoMemory;
use std::alloc::Global;

// How far a search has come at a node.
#[derive(Clone, Copy)]
struct Mark {
    // The greatest length of a walk to it so far.
    length: Option<i64>,
    // The last step of that walk.
    last: Option<Step>,
    // Whether the length rose since the search last went on from here.
    risen: bool,
}

// How many units the amounts let along a step.
pub(crate) fn room(step: Step, hold: &[u32], need: &[u32]) -> u32
    requires holds { step.read < length hold.now }
    requires needs { step.read < length need.now }
{
    match step.kind {
        Kind::Window | Kind::Storage => u32::MAX,
        Kind::WindowBack => need[step.read as usize],
        Kind::StorageBack => hold[step.read as usize],
    }
}

// Goes on by a step where that leads further, and answers whether it does.
fn go_on(step: Step, length: i64, mark: &mut Mark) -> bool
    ensures { (reads : ℕ) → IsStep reads step → HasStep reads mark.old → HasStep reads mark.new }
{
    if let Some(so_far) = mark.length {
        if length <= so_far {
            return false;
        }
    }
    *mark = Mark {
        length: Some(length),
        last: Some(step),
        risen: true,
    };
    true
}

// Goes on by a step, if the amounts let a unit along it and that leads further, and answers whether
// it does.
fn try_step(step: Step, so_far: i64, hold: &[u32], need: &[u32], marks: &mut [Mark]) -> bool
    requires step { IsStep (length hold.now) step }
    requires needs { length need.now ≡ length hold.now }
    requires marks { AreMarks (length hold.now) marks.old }
    ensures { AreMarks (length hold.now) marks.new }
{
    if room(step, hold, need) == 0 {
        return false;
    }
    let longer = so_far.saturating_add(step.arc.length);
    go_on(step, longer, &mut marks[step.arc.to as usize])
}

// Goes on by the steps that leave a node, the first of these, and answers whether one led further.
fn go_on_from(
    steps: &[Step],
    node: u32,
    so_far: i64,
    hold: &[u32],
    need: &[u32],
    marks: &mut [Mark],
) -> bool
    requires steps { All (IsStep (length hold.now)) steps.now }
    requires needs { length need.now ≡ length hold.now }
    requires marks { AreMarks (length hold.now) marks.old }
    ensures { AreMarks (length hold.now) marks.new }
{
    let mut further = false;
    for step in steps {
        if step.arc.from != node {
            break;
        }
        if try_step(*step, so_far, hold, need, marks) {
            further = true;
        }
    }
    further
}

// Goes on from a node, if its length rose, and answers whether that led further.
fn visit(steps: &Steps, node: u32, hold: &[u32], need: &[u32], marks: &mut [Mark]) -> bool
    requires steps { AreSteps (length hold.now) steps.now }
    requires node { node < most_nodes }
    requires needs { length need.now ≡ length hold.now }
    requires marks { AreMarks (length hold.now) marks.old }
    ensures { AreMarks (length hold.now) marks.new }
{
    let mark = &mut marks[node as usize];
    if !mark.risen {
        return false;
    }
    mark.risen = false;
    let Some(so_far) = mark.length else {
        return false;
    };
    go_on_from(steps.leaving(node), node, so_far, hold, need, marks)
}

// Visits the two nodes of each tensor, from the first to the last or back, and answers whether that
// led further.
fn sweep(
    steps: &Steps,
    tensors: u32,
    back: bool,
    hold: &[u32],
    need: &[u32],
    marks: &mut [Mark],
) -> bool
    requires steps { AreSteps (length hold.now) steps.now }
    requires tensors { tensors ≤ most_tensors }
    requires needs { length need.now ≡ length hold.now }
    requires marks { AreMarks (length hold.now) marks.old }
    ensures { AreMarks (length hold.now) marks.new }
{
    let mut further = false;
    for i in 0..tensors {
        let tensor = if back { tensors - 1 - i } else { i };
        let stored = visit(steps, tensors + tensor, hold, need, marks);
        let delayed = visit(steps, tensor, hold, need, marks);
        if stored || delayed {
            further = true;
        }
    }
    further
}

// Marks the nodes that walks from a node come to. It ends where no step leads further, or after as
// many sweeps as a walk without a circle needs at most.
fn search(steps: &Steps, tensors: u32, from: u32, hold: &[u32], need: &[u32], marks: &mut [Mark])
    requires steps { AreSteps (length hold.now) steps.now }
    requires tensors { tensors ≤ most_tensors }
    requires from { from < most_nodes }
    requires needs { length need.now ≡ length hold.now }
    requires marks { AreMarks (length hold.now) marks.old }
    ensures { AreMarks (length hold.now) marks.new }
{
    marks[from as usize] = Mark {
        length: Some(0),
        last: None,
        risen: true,
    };
    for i in 0..2 * tensors {
        if !sweep(steps, tensors, i % 2 == 1, hold, need, marks) {
            break;
        }
    }
}

// The steps of the walk that the marks tell, from its end back to its beginning.
fn walk_back(
    alloc: Global,
    marks: &[Mark],
    from: u32,
    to: u32,
) -> Result<Option<Vec<Step>>, NoMemory>
    requires to { to < most_nodes }
    requires marks { (reads : ℕ) × AreMarks reads marks.now }
    ensures { (reads : ℕ) → AreMarks reads marks.now
        → IfOk result (λ found. IfSome found (λ walk. All (IsStep reads) walk.items)) }
{
    let mut walk = Vec::new(alloc);
    let mut node = to;
    for _ in 0..MOST_NODES {
        if node == from {
            return Ok(Some(walk));
        }
        let Some(step) = marks[node as usize].last else {
            return Ok(None);
        };
        walk.push(step)?;
        node = step.arc.from;
    }
    Ok(None)
}

// The steps of a walk from the first node of a tensor to its second, by what the amounts leave, from
// its end back to its beginning. It is a longest one, where there is no closed walk of positive
// length; nothing is promised.
pub(crate) fn longest_steps(
    alloc: Global,
    steps: &Steps,
    tensors: u32,
    tensor: u32,
    hold: &[u32],
    need: &[u32],
) -> Result<Option<Vec<Step>>, NoMemory>
    requires steps { AreSteps (length hold.now) steps.now }
    requires tensors { tensors ≤ most_tensors }
    requires tensor { tensor < tensors }
    requires needs { length need.now ≡ length hold.now }
    ensures { IfOk result (λ found. IfSome found (λ walk. All (IsStep (length hold.now)) walk.items)) }
{
    let mut marks = [Mark {
        length: None,
        last: None,
        risen: false,
    }; MOST_NODES as usize];
    search(steps, tensors, tensor, hold, need, &mut marks);
    walk_back(alloc, &marks, tensor, tensors + tensor)
}
