ghost use Rattle.std.specs.Prelude.{◌≡◌, ℕ, ℤ, length};
ghost use Rattle.net_cycles.specs.Streams.{HoldStreams};

use crate::blur::Blur;
use net_cycles::Pipeline;
use net_ir::NoMemory;

/// The modules that fired in all cycles, and those that were held.
#[derive(Clone, Copy)]
pub(crate) struct Totals {
    pub(crate) fired: u64,
    pub(crate) held: u64,
}

/// Runs so many cycles.
pub(crate) fn run_cycles(
    pipeline: &mut Pipeline,
    blur: &mut Blur,
    stalled: &[bool],
    cycles: u32,
) -> Result<Totals, NoMemory>
    requires flags { length stalled.now ≡ length pipeline.old.network.modules }
    requires streams { (stream : ℕ → ℕ → ℤ)
        → HoldStreams pipeline.old.network pipeline.old.fired pipeline.old.fifos stream }
{
    let mut fired: u64 = 0;
    let mut held: u64 = 0;
    for _cycle in 0..cycles {
        let count = match pipeline.cycle(blur, &mut (), stalled) {
            Ok(count) => count,
            Err(fault) => return Err(fault),
        };
        fired = fired.wrapping_add(count.fired as u64);
        held = held.wrapping_add(count.held as u64);
    }
    Ok(Totals { fired, held })
}
