ghost use Rattle.std.specs.Prelude.{◌≡◌, ℕ, ◌<◌, ◌≤◌, ◌^◌, List, length, IfOk, IsErrOf};
ghost use Rattle.soda_io.specs.Bytes.{Takes};
ghost use Rattle.soda_io.specs.Cause.{HasCause};

use crate::IoErr;

/// A stream that takes bytes, as standard output.
pub trait Sink {
    /// Whether the bytes taken are told.
    ghost tells: { Type 0 };

    /// The bytes taken so far.
    ghost taken: { Self → List ℕ };

    /// The count of faults, which never falls and ends at 2^64 - 1.
    ghost faults: { Self → ℕ };

    /// Takes a front of the bytes and says how many: at least one. After an error it has taken nothing more.
    ///
    /// There are bytes. A stream that takes none of them answers `Failed`.
    fn write(&mut self, bytes: &[u8]) -> Result<usize, IoErr>
        requires { 0 < length bytes.now }
        ensures count { IfOk result (λ n. (0 < n) × (n ≤ length bytes.now)) }
        ensures taken { tells → Takes (taken self.old) (taken self.new) bytes.now result }
        ensures cause { HasCause (faults self.old) (faults self.new) result }
        ensures spared { IsErrOf result IoErr.Memory → faults self.new ≡ faults self.old };

    /// A count of 64 bits.
    ghost below: { (s : Self) → faults s < 2 ^ 64 };
}
