//! Passes the numbers below a count from one thread to another, and prints the sum of what came.
//! The words are the queue, `ruled` or `plain`, how many values it can hold, and the count.
#![tactic(auto)]

ghost use Rattle.std.specs.Prelude.{◌<◌};

use anyhow::{Result, bail};
use crossbeam_queue::ArrayQueue;
use ruled_fifo::{SendEnd, TakeEnd, fifo};
use std::alloc::{AllocError, Global};
use std::sync::Wait;
use std::thread::Threads;
use std::{env, thread};

fn offer_all<R: Wait>(rt: &R, mut send: SendEnd, count: u32) {
    let mut next = 0u32;
    for _ in rt.forever() {
        if next >= count {
            break;
        }
        match send.offer(rt, i128::from(next)) {
            Ok(()) => next += 1,
            Err(_) => thread::yield_now(),
        }
    }
}

fn take_all<R: Wait>(rt: &R, mut take: TakeEnd, count: u32) -> i128 {
    let mut taken = 0u32;
    let mut sum = 0i128;
    for _ in rt.forever() {
        if taken >= count {
            break;
        }
        match take.take(rt) {
            Ok(value) => {
                sum = sum.wrapping_add(value);
                taken += 1;
            }
            Err(_) => thread::yield_now(),
        }
    }
    sum
}

fn push_all<R: Wait>(rt: &R, queue: &ArrayQueue<i128>, count: u32) {
    let mut next = 0u32;
    for _ in rt.forever() {
        if next >= count {
            break;
        }
        match queue.push(rt, i128::from(next)) {
            Ok(()) => next += 1,
            Err(_) => thread::yield_now(),
        }
    }
}

fn pop_all<R: Wait>(rt: &R, queue: &ArrayQueue<i128>, count: u32) -> i128 {
    let mut taken = 0u32;
    let mut sum = 0i128;
    for _ in rt.forever() {
        if taken >= count {
            break;
        }
        match queue.pop(rt) {
            Some(value) => {
                sum = sum.wrapping_add(value);
                taken += 1;
            }
            None => thread::yield_now(),
        }
    }
    sum
}

/// The sum of what came through a queue of `ruled_fifo`.
fn ruled<R: Threads + Wait + Sync>(
    rt: &R,
    alloc: Global,
    capacity: u32,
    count: u32,
) -> Result<i128, AllocError>
    requires { 0 < capacity }
{
    let (send, take) = fifo(alloc, capacity)?;
    let ((), sum) = thread::join(
        rt,
        move || offer_all(rt, send, count),
        move || take_all(rt, take, count),
    );
    Ok(sum)
}

/// The sum of what came through a queue of `crossbeam_queue`.
fn plain<R: Threads + Wait + Sync>(
    rt: &R,
    alloc: Global,
    capacity: u32,
    count: u32,
) -> Result<i128, AllocError>
    requires { 0 < capacity }
{
    let queue = ArrayQueue::new(alloc, capacity as usize)?;
    let shared = &queue;
    let ((), sum) = thread::join(
        rt,
        move || push_all(rt, shared, count),
        move || pop_all(rt, shared, count),
    );
    Ok(sum)
}

fn main(rt: HostRuntime) -> Result<()> {
    let alloc = rt.alloc();
    let words: Vec<String> = env::args(&(&rt, alloc))?.collect(alloc)?;
    let [_, queue, capacity, count] = words.as_slice() else {
        bail!("words: QUEUE CAPACITY COUNT");
    };
    let capacity: u32 = capacity.parse()?;
    let count: u32 = count.parse()?;
    if capacity == 0 {
        bail!("CAPACITY is at least 1");
    }
    let sum = match queue.as_str() {
        "ruled" => ruled(&rt, alloc, capacity, count)?,
        "plain" => plain(&rt, alloc, capacity, count)?,
        _ => bail!("QUEUE is ruled or plain"),
    };
    println!(rt; "{sum}")?;
    Ok(())
}
