// Counts of faults.
ghost use Rattle.std.specs.Prelude.{◌≡◌};
ghost use Rattle.soda_io.specs.Cause.{raised};

// Raises a count by one; at its end it stands still.
pub(crate) fn raise(faults: &mut u64)
    ensures { faults.new ≡ raised faults.old }
{
    *faults = faults.saturating_add(1);
}
