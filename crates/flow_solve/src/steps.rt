ghost use Rattle.std.specs.Prelude.{◌≡◌, ℕ, ◌+◌, ◌<◌, ◌≤◌, length, IfOk, OnOk};
ghost use Rattle.std.specs.List.{All};
ghost use Rattle.delay_net.specs.Limits.{most_tensors};
ghost use Rattle.flow_solve.specs.Limits.{most_nodes, most_arcs};
ghost use Rattle.delay_net.specs.Shape.{HasSmallOffset};
ghost use Rattle.flow_solve.specs.machine.Steps.{IsStep, AreSteps};

use crate::Arc;
use crate::limits::MOST_NODES;
use crate::residual::{storage_arc, storage_back, window_arc, window_back};
use delay_net::{Net, NoMemory, Read};
use std::alloc::Global;

// Which of the four arcs of a read.
#[derive(Clone, Copy)]
pub(crate) enum Kind {
    // Its window, which raises its need.
    Window,
    // The storage that it needs, which raises its hold.
    Storage,
    // The window back, which lowers its need.
    WindowBack,
    // The storage back, which lowers its hold.
    StorageBack,
}

// An arc by which a walk may go on, and what sending a unit along it changes.
#[derive(Clone, Copy)]
pub(crate) struct Step {
    pub(crate) arc: Arc,
    pub(crate) read: u32,
    pub(crate) kind: Kind,
}

// All steps of a net, in the order of the nodes that they leave.
#[derive(Drop)]
pub(crate) struct Steps {
    steps: Vec<Step>,
    // For each of the most nodes, where the steps that leave it begin.
    begins: Vec<u32>,
}

impl Steps {
    // The steps that leave a node, and after them those that leave later ones.
    pub(crate) fn leaving(&self, node: u32) -> &[Step]
        requires node { node < most_nodes }
        requires steps { (reads : ℕ) × AreSteps reads self.now }
        ensures { (reads : ℕ) → AreSteps reads self.now → All (IsStep reads) result.now }
    {
        let begin = self.begins[node as usize] as usize;
        &self.steps[begin..]
    }
}

// The four steps of a read with a number.
fn steps_of(tensors: u32, number: u32, read: Read) -> [Step; 4]
    requires tensors { tensors ≤ most_tensors }
    requires order { (read.of < tensors) × (read.reader < tensors) }
    requires small { HasSmallOffset read }
    ensures steps { (reads : ℕ) → number < reads → All (IsStep reads) result }
    ensures four { length result ≡ 4 }
{
    [
        Step {
            arc: window_arc(read),
            read: number,
            kind: Kind::Window,
        },
        Step {
            arc: storage_arc(tensors, read),
            read: number,
            kind: Kind::Storage,
        },
        Step {
            arc: window_back(read, 1),
            read: number,
            kind: Kind::WindowBack,
        },
        Step {
            arc: storage_back(tensors, read, 1),
            read: number,
            kind: Kind::StorageBack,
        },
    ]
}

// Adds the four steps of a read.
fn add_steps(steps: &mut Vec<Step>, four: &[Step]) -> Result<(), NoMemory>
    ensures steps { (reads : ℕ) → All (IsStep reads) steps.old.items → All (IsStep reads) four.now
        → OnOk result (All (IsStep reads) steps.new.items) }
    ensures count { OnOk result (length steps.new.items ≡ length steps.old.items + length four.now) }
{
    for step in four {
        steps.push(*step)?;
    }
    Ok(())
}

// All steps of a net.
fn unordered(alloc: Global, net: &Net) -> Result<Vec<Step>, NoMemory>
    ensures steps { IfOk result (λ steps. All (IsStep (length net.now.reads)) steps.items) }
    ensures few { IfOk result (λ steps. length steps.items ≤ most_arcs) }
{
    let tensors = net.weights().len() as u32;
    let mut steps = Vec::new(alloc);
    for (number, read) in net.reads().iter().enumerate() {
        add_steps(&mut steps, &steps_of(tensors, number as u32, *read))?;
    }
    Ok(steps)
}

// The steps of a net, by the nodes that they leave.
pub(crate) fn ordered(alloc: Global, net: &Net) -> Result<Steps, NoMemory>
    ensures { IfOk result (AreSteps (length net.now.reads)) }
{
    let mut steps = unordered(alloc, net)?;
    steps.sort_by_key(|step| step.arc.from)?;
    let mut begins = Vec::new(alloc);
    for node in 0..MOST_NODES {
        let begin = steps.partition_point(|step| step.arc.from < node);
        begins.push(begin as u32)?;
    }
    Ok(Steps { steps, begins })
}
