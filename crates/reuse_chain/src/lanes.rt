ghost use Rattle.std.specs.Prelude.{◌≡◌, ◌<◌, ◌≤◌, All, IfOk, map};
ghost use Rattle.std.specs.List.Sorted.{IsStrictlyIncreasing};
ghost use Rattle.reuse_chain.specs.Limits.{most_lanes, age_end};
ghost use Rattle.reuse_chain.specs.Lanes.{age_in_cycles, IsTaps, taps_of, gaps_of};

use crate::NoMemory;
use std::alloc::Global;

/// The taps of a lane: the distinct ages in cycles of reads of these ages in cells, rising. `Err` only where memory
/// runs out.
pub fn taps(alloc: Global, ages: &[u64], lane: u32, unroll: u32) -> Result<Vec<u64>, NoMemory>
    requires lane { lane < unroll }
    requires unroll { unroll ≤ most_lanes }
    requires ages { All (λ age. age < age_end) ages.now }
    ensures relation { IfOk result (λ taps. IsTaps ages.now lane unroll taps.items) }
    ensures value { IfOk result (λ taps. taps.items ≡ taps_of ages.now lane unroll) }
{
    let mut taps = ages_in_cycles(alloc, ages, lane, unroll)?;
    taps.sort_unstable();
    taps.dedup();
    Ok(taps)
}

// The age in cycles of each read, in the order of the reads.
fn ages_in_cycles(alloc: Global, ages: &[u64], lane: u32, unroll: u32) -> Result<Vec<u64>, NoMemory>
    requires lane { lane < unroll }
    requires unroll { unroll ≤ most_lanes }
    requires ages { All (λ age. age < age_end) ages.now }
    ensures { IfOk result (λ cycles. cycles.items ≡ map (age_in_cycles lane unroll) ages.now) }
{
    let mut cycles = Vec::with_capacity(alloc, ages.len())?;
    for age in ages {
        cycles.push((u64::from(lane) + *age) / u64::from(unroll))?;
    }
    Ok(cycles)
}

/// The gaps of a lane whose taps are these, which rise strictly: the first tap, and then the successive differences, in
/// cycles. `Err` only where memory runs out.
pub fn gaps(alloc: Global, taps: &[u64]) -> Result<Vec<u64>, NoMemory>
    requires { IsStrictlyIncreasing taps.now }
    ensures { IfOk result (λ gaps. gaps.items ≡ gaps_of taps.now) }
{
    let mut gaps = Vec::with_capacity(alloc, taps.len())?;
    let mut before = 0;
    for tap in taps {
        gaps.push(*tap - before)?;
        before = *tap;
    }
    Ok(gaps)
}
