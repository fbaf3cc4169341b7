//! Solves made nets, and tells how large each is and how much storage it needs. The words are, for each net, its
//! kind, `chain` or `random`, how many tensors it has, and how often each of them reads.
#![tactic(auto)]

mod limits;
mod nets;

use anyhow::{Result, bail};
use delay_net::{MOST_TENSORS, Net, check, storage};
use flow_solve::solve;
use limits::MOST_EACH;
use nets::{Kind, made_net};
use std::alloc::Global;
use std::env;
use std::rt::Runtime;

// The sum of the widths of a net.
fn sum_of_widths(net: &Net) -> u32 {
    let mut sum = 0;
    for width in net.weights() {
        sum += *width as u32;
    }
    sum
}

// The net that the words ask for.
fn asked_net(alloc: Global, words: &[String]) -> Result<Net> {
    let [kind, tensors, each] = words else {
        bail!("words: KIND TENSORS READS ..");
    };
    let kind = match kind.as_str() {
        "chain" => Kind::Chain,
        "random" => Kind::Random,
        _ => bail!("KIND is chain or random"),
    };
    let tensors = tensors.parse()?;
    let each = each.parse()?;
    if tensors > MOST_TENSORS as u32 || each > MOST_EACH {
        bail!("TENSORS is at most {MOST_TENSORS}, READS at most {MOST_EACH}");
    }
    Ok(made_net(alloc, kind, tensors, each)?)
}

// Solves the net that three words ask for, and prints what it is.
fn report(rt: &impl Runtime, alloc: Global, words: &[String]) -> Result<()> {
    let net = asked_net(alloc, words)?;
    let (delays, flow) = solve(alloc, &net)?;
    let reads = net.reads().len();
    let widths = sum_of_widths(&net);
    let storage = storage(&net, &delays);
    let checked = check(&net, &delays, &flow);
    drop(flow);
    drop(delays);
    drop(net);
    println!(rt; "reads {reads} widths {widths} storage {storage} checked {checked}")?;
    Ok(())
}

fn main(rt: HostRuntime) -> Result<()> {
    let alloc = rt.alloc();
    let words: Vec<String> = env::args(&(&rt, alloc))?.collect(alloc)?;
    let Some((_name, asked)) = words.split_first() else {
        bail!("words: KIND TENSORS READS ..");
    };
    for net in asked.chunks(3) {
        report(&rt, alloc, net)?;
    }
    Ok(())
}
