ghost use Rattle.std.specs.Prelude.{◌≡◌, ◌≢◌, ◌<◌, ◌≤◌, [], length, take};
ghost use Rattle.std.specs.List.{All, AllWithin, HoldsAt};
ghost use Rattle.sim_lines.specs.machine.Cursor.{AreSet};

use crate::stalled::StalledModule;

// Puts back the flags of these modules, where no others are set.
pub(crate) fn clear(flags: &mut [bool], stalled: &[StalledModule])
    requires known { All (λ s. s.number < length flags.old) stalled.now }
    requires marked { AreSet stalled.now flags.old }
    ensures { AreSet [] flags.new }
{
    for entry in stalled {
        flags[entry.number] = false;
    }
}

// Sets the flags of those at the beginning that are stalled in this cycle, and says how many they are. No flag is set
// before.
pub(crate) fn mark(flags: &mut [bool], stalled: &[StalledModule], cycle: u64) -> usize
    requires known { All (λ s. s.number < length flags.old) stalled.now }
    requires marked { AreSet [] flags.old }
    ensures within { result ≤ length stalled.now }
    ensures now { AllWithin (λ s. s.cycle ≡ cycle) stalled.now 0 result }
    ensures after { result < length stalled.now → HoldsAt (λ s. s.cycle ≢ cycle) stalled.now result }
    ensures marked { AreSet (take result stalled.now) flags.new }
{
    for (place, entry) in stalled.iter().enumerate() {
        if entry.cycle != cycle {
            return place;
        }
        flags[entry.number] = true;
    }
    stalled.len()
}
