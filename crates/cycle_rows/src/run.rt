ghost use Rattle.std.specs.Prelude.{◌≡◌, ◌<◌, [], ℕ, ℤ, Bool, List, length, IfOk};
ghost use Rattle.net_ir.specs.CycleRun.{EndsWith};
ghost use Rattle.net_cycles.specs.Cycles.{HasRun};
ghost use Rattle.net_cycles.specs.Streams.{HoldStreams};
ghost use Rattle.cycle_rows.specs.Relayed.{AgreesWith, IsReady};

use crate::relay::{Cells, Relay, Stopped};
use net_cycles::Pipeline;

/// Runs cycles with these modules stalled in each, until no firing is left, but no more than so many, and says how
/// many: the number of net_ir's run where it is below the most.
pub fn run_to_end<E: Cells>(
    pipeline: &mut Pipeline,
    relay: &mut Relay,
    cells: &mut E,
    stalled: &[bool],
    most: u64,
) -> Result<u64, Stopped>
    requires flags { length stalled.now ≡ length pipeline.old.network.modules }
    requires start { HasRun pipeline.old.network pipeline.old.firings [] pipeline.old.fired }
    requires streams { (stream : ℕ → ℕ → ℤ)
        → AgreesWith pipeline.old.network relay.old.source relay.old.read.items stream
        → HoldStreams pipeline.old.network pipeline.old.fired pipeline.old.fifos stream }
    requires ready { IsReady pipeline.old.network relay.old.source relay.old.sink relay.old.read.items
        relay.old.given.items pipeline.old.fired }
    ensures network { pipeline.new.network ≡ pipeline.old.network }
    ensures ends { IfOk result (λ cycles. cycles < most → (stalls : List (List Bool)) × (length stalls ≡ cycles)
        × EndsWith pipeline.old.network pipeline.old.firings stalls) }
    ensures given { IfOk result (λ _. IsReady pipeline.new.network relay.new.source relay.new.sink relay.new.read.items
        relay.new.given.items pipeline.new.fired) }
{
    let mut cycles = 0;
    while cycles < most && !pipeline.finished() {
        match pipeline.cycle(relay, cells, stalled) {
            Ok(_) => {}
            Err(stopped) => return Err(stopped),
        }
        cycles += 1;
    }
    Ok(cycles)
}
