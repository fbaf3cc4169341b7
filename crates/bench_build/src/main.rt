//! Builds the networks of made programs, and tells how large each is and how long that takes. The words are, for each
//! program, its kind, `lanes` or `reads`, and its size; with `timed` as the first word the times are told, else 0.
#![tactic(auto)]

mod texts;

use anyhow::{Result, bail};
use flow_solve::solve;
use net_build::build;
use net_ir::Network;
use soda_ir::Program;
use soda_parse::{ParseFail, parse};
use soda_words::MOST_TEXT;
use std::alloc::Global;
use std::env;
use std::time::Instant;
use texts::{Kind, text_of};
use time_stages::{Staged, net_of, stage};

// How often each network is built. The best time counts.
const TURNS: usize = 5;

// The program that two words ask for.
fn asked_program(alloc: Global, words: &[String]) -> Result<Program> {
    let [kind, size] = words else {
        bail!("words: KIND SIZE ..");
    };
    let kind = match kind.as_str() {
        "lanes" => Kind::Lanes,
        "reads" => Kind::Reads,
        _ => bail!("KIND is lanes or reads"),
    };
    let text = text_of(alloc, kind, size.parse()?)?;
    match parse(alloc, &text, MOST_TEXT) {
        Ok(program) => Ok(program),
        Err(ParseFail::Refused(_)) => bail!("the program is refused"),
        Err(ParseFail::Memory) => bail!("out of memory"),
    }
}

// Nanoseconds since then, and 0 where nothing is timed.
fn since(rt: &HostRuntime, timed: bool, start: Instant) -> Result<u64> {
    let time = u64::try_from(start.elapsed(rt)?.as_nanos()).unwrap_or(u64::MAX);
    Ok(if timed { time } else { 0 })
}

// How many modules and queues a network has.
fn counts(network: Network) -> (usize, usize) {
    let counts = (network.modules().len(), network.queues().len());
    drop(network);
    counts
}

// Builds the network of a program, and prints how large it is.
fn report(rt: &HostRuntime, timed: bool, program: &Program) -> Result<()> {
    let alloc = rt.alloc();
    let staging = stage(alloc, program)?;
    let net = net_of(alloc, program, &staging)?;
    let (delays, flow) = solve(alloc, &net)?;
    let mut best = u64::MAX;
    let mut size = (0, 0);
    for _ in 0..TURNS {
        let start = Instant::now(rt)?;
        let network = build(alloc, program, &staging, &delays)?;
        best = best.min(since(rt, timed, start)?);
        size = counts(network);
    }
    let reads = net.reads().len();
    println!(rt;
        "reads {reads} modules {} queues {} ns {best}",
        size.0, size.1
    )?;
    drop(flow);
    drop(net);
    drop(staging);
    Ok(())
}

fn main(rt: HostRuntime) -> Result<()> {
    let alloc = rt.alloc();
    let words: Vec<String> = env::args(&(&rt, alloc))?.collect(alloc)?;
    let Some((_name, mut asked)) = words.split_first() else {
        bail!("words: KIND SIZE ..");
    };
    let mut timed = false;
    if let Some((first, rest)) = asked.split_first()
        && first.as_str() == "timed"
    {
        timed = true;
        asked = rest;
    }
    for one in asked.chunks(2) {
        let program = asked_program(alloc, one)?;
        report(&rt, timed, &program)?;
        drop(program);
    }
    Ok(())
}
