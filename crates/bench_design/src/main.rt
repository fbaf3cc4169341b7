//! Reads the text of a design from the standard input, prints it again, and tells how large the design is and how long
//! each takes. With the word `timed` the times are told, else 0.
#![tactic(auto)]

use anyhow::{Result, bail};
use design_reader::{TextFail, read_design};
use module_text::{Design, print_design};
use std::env;
use std::io::Read;
use std::time::Instant;

// How often the text is read and printed. The best times count.
const TURNS: usize = 5;

// Nanoseconds since then, and 0 where nothing is timed.
fn since(rt: &HostRuntime, timed: bool, start: Instant) -> Result<u64> {
    let time = u64::try_from(start.elapsed(rt)?.as_nanos()).unwrap_or(u64::MAX);
    Ok(if timed { time } else { 0 })
}

// The design that the bytes are the text of.
fn told(rt: &HostRuntime, bytes: &[u8]) -> Result<Design> {
    match read_design(rt.alloc(), bytes) {
        Ok(design) => Ok(design),
        Err(TextFail::Refused(line)) => bail!("line {line} is refused"),
        Err(TextFail::Memory) => bail!("out of memory"),
    }
}

// Nanoseconds that the design takes to be printed, and whether these are the bytes.
fn printed(rt: &HostRuntime, timed: bool, bytes: &[u8], design: &Design) -> Result<(u64, bool)> {
    let start = Instant::now(rt)?;
    let text = print_design(rt.alloc(), design)?;
    let time = since(rt, timed, start)?;
    Ok((time, text.as_slice() == bytes))
}

fn main(rt: HostRuntime) -> Result<()> {
    let words: Vec<String> = env::args(&(&rt, rt.alloc()))?.collect(rt.alloc())?;
    let timed = words.len() > 1 && words[1].as_str() == "timed";
    let mut bytes = Vec::new(rt.alloc());
    rt.reader().read_to_end(&mut bytes)?;
    let mut best = (u64::MAX, u64::MAX);
    for _ in 0..TURNS {
        let start = Instant::now(&rt)?;
        let design = told(&rt, &bytes)?;
        let reading = since(&rt, timed, start)?;
        let (printing, same) = printed(&rt, timed, &bytes, &design)?;
        drop(design);
        if !same {
            bail!("another text is printed");
        }
        best = (best.0.min(reading), best.1.min(printing));
    }
    println!(&rt;
        "bytes {} read ns {} print ns {}",
        bytes.len(),
        best.0,
        best.1
    )?;
    Ok(())
}
