//! An order in which tensors might be placed. It saves time where it is a good one, and nothing rests on it.

ghost use Rattle.std.specs.Prelude.{◌^◌, ◌<◌, length};

use crate::NoMemory;
use crate::expr::Expr;
use crate::program::Parts;
use std::alloc::Global;

// The order as far as it goes, and what the tensors wait for that aren't in it.
#[derive(Drop)]
struct Waiting {
    order: Vec<u32>,
    // How many reads of each tensor are of tensors that the order hasn't come to.
    counts: Vec<usize>,
    // The tensors that read each one, once for each read.
    readers: Vec<Vec<u32>>,
}

// Adds the tensors that a formula reads, once for each read.
fn add_read(expr: &Expr, read: &mut Vec<u32>) -> Result<(), NoMemory> {
    match expr {
        Expr::Num(_) | Expr::Par { .. } => Ok(()),
        Expr::Cell { tensor, .. } => Ok(read.push(*tensor)?),
        Expr::Un(_, a) => add_read(a.get(), read),
        Expr::Bin(_, a, b) => {
            add_read(a.get(), read)?;
            add_read(b.get(), read)
        }
        Expr::Select(c, a, b) => {
            add_read(c.get(), read)?;
            add_read(a.get(), read)?;
            add_read(b.get(), read)
        }
        Expr::Cast(_, a) => add_read(a.get(), read),
    }
}

// The tensors that a tensor reads, once for each read.
fn read_by(alloc: Global, parts: &Parts, tensor: u32) -> Result<Vec<u32>, NoMemory> {
    let mut read = Vec::new(alloc);
    if let Some(formula) = parts.formula(tensor) {
        add_read(formula, &mut read)?;
    }
    Ok(read)
}

// Adds a tensor to the readers of each that it reads.
fn add_reader(readers: &mut [Vec<u32>], read: &[u32], tensor: u32) -> Result<(), NoMemory> {
    for other in read {
        if let Some(list) = readers.get_mut(*other as usize) {
            list.push(tensor)?;
        }
    }
    Ok(())
}

// So many tensors that none reads.
fn no_readers(alloc: Global, tensors: usize) -> Result<Vec<Vec<u32>>, NoMemory> {
    let mut readers = Vec::new(alloc);
    for _ in 0..tensors {
        readers.push(Vec::new(alloc))?;
    }
    Ok(readers)
}

// The tensors that read nothing, and what each of the others waits for.
fn first_tensors(alloc: Global, parts: &Parts) -> Result<Waiting, NoMemory>
    requires { length parts.now.tensors < 2 ^ 32 }
{
    let mut order = Vec::new(alloc);
    let mut counts = Vec::new(alloc);
    let mut readers = no_readers(alloc, parts.tensors.len())?;
    for tensor in 0..parts.tensors.len() as u32 {
        let read = read_by(alloc, parts, tensor)?;
        if read.len() == 0 {
            order.push(tensor)?;
        }
        counts.push(read.len())?;
        add_reader(&mut readers, &read, tensor)?;
    }
    Ok(Waiting {
        order,
        counts,
        readers,
    })
}

// Adds those of the readers to the order that wait for one read more.
fn release(readers: &[u32], counts: &mut [usize], order: &mut Vec<u32>) -> Result<(), NoMemory> {
    for reader in readers {
        if let Some(count) = counts.get_mut(*reader as usize) {
            if *count == 1 {
                order.push(*reader)?;
            }
            *count = count.saturating_sub(1);
        }
    }
    Ok(())
}

/// An order of tensors, each of which stands behind those that it reads. Tensors that can't be placed are left out.
pub(crate) fn placing_order(alloc: Global, parts: &Parts) -> Result<Vec<u32>, NoMemory>
    requires { length parts.now.tensors < 2 ^ 32 }
{
    let mut waiting = first_tensors(alloc, parts)?;
    for at in 0..parts.tensors.len() {
        let Some(tensor) = waiting.order.get(at).copied() else {
            break;
        };
        if let Some(readers) = waiting.readers.get(tensor as usize) {
            release(readers, &mut waiting.counts, &mut waiting.order)?;
        }
    }
    Ok(waiting.order)
}
