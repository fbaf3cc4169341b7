//! Runs a blur of unroll factor 16 for so many cycles, and tells the nanoseconds that they took.
#![tactic(auto)]

ghost use Rattle.std.specs.Prelude.{◌≡◌, ℕ, ℤ, length};
ghost use Rattle.net_cycles.specs.Streams.{HoldStreams};

mod blur;
mod blur_net;
mod run;

use anyhow::{Result, bail};
use blur::Blur;
use blur_net::blur_net;
use cycle_rows::pipeline_if_sound;
use net_cycles::Pipeline;
use run::{Totals, run_cycles};
use std::alloc::Global;
use std::env;
use std::rt::Runtime;
use std::time::Instant;

/// The number of cycles, the last word.
fn cycles_of(rt: &HostRuntime) -> Result<u32> {
    let words: Vec<String> = env::args(&(rt, rt.alloc()))?.collect(rt.alloc())?;
    let [.., cycles] = words.as_slice() else {
        bail!("words: CYCLES");
    };
    let cycles: u32 = cycles.parse()?;
    Ok(cycles)
}

/// Runs the cycles, and tells what was done and how long it took.
fn timed(rt: &HostRuntime, pipeline: &mut Pipeline, stalled: &[bool], cycles: u32) -> Result<()>
    requires flags { length stalled.now ≡ length pipeline.old.network.modules }
    requires streams { (stream : ℕ → ℕ → ℤ)
        → HoldStreams pipeline.old.network pipeline.old.fired pipeline.old.fifos stream }
{
    let mut blur = Blur { checksum: 0 };
    let start = Instant::now(rt)?;
    let totals = run_cycles(pipeline, &mut blur, stalled, cycles)?;
    let took = start.elapsed(rt)?.as_nanos();
    let Totals { fired, held } = totals;
    let checksum = blur.checksum;
    println!(rt; "fired {fired} held {held} checksum {checksum}")?;
    eprintln!(rt; "rattle: {took} ns in {cycles} cycles")?;
    Ok(())
}

fn main(rt: HostRuntime) -> Result<()> {
    let cycles = cycles_of(&rt)?;
    let (modules, queues) = blur_net(rt.alloc())?;
    let module_count = modules.len();
    let queue_count = queues.len();
    println!(rt; "modules {module_count} queues {queue_count}")?;
    let stalled = vec![in rt.alloc(); false; module_count]?;
    let found = pipeline_if_sound(rt.alloc(), modules, queues, u64::from(cycles))?;
    let Some(mut pipeline) = found else {
        bail!("the network isn't sound");
    };
    let ran = timed(&rt, &mut pipeline, &stalled, cycles);
    drop(pipeline);
    drop(stalled);
    ran
}
