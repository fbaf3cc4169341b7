ghost use Rattle.std.specs.Prelude.{◌≡◌, ℕ, ◌<◌, ◌≤◌, ◌^◌, true, false, length, IfOk};
ghost use Rattle.soda_io.specs.Cause.{HasCause};
ghost use Rattle.soda_io.specs.Store.{Store, Opens, Creates, Reads, Writes, Gives, NamesGiven};

use crate::IoErr;

/// Files that are read from their first byte or written from empty, by ids that count from 0.
///
/// After an error of any call the bytes of every name and the place of every id are as before.
pub trait Files {
    /// Whether `store` is told.
    ghost tells: { Type 0 };

    /// The bytes of the names, the name and place of each id, and the journal of calls.
    ghost store: { Self → Store };

    /// How many ids were given.
    ghost given: { Self → ℕ };

    /// The count of faults, which never falls and ends at 2^64 - 1.
    ghost faults: { Self → ℕ };

    /// Opens a name for reading and gives an id that reads from its first byte.
    ///
    /// `Failed` where the name isn't there, where 4,294,967,295 ids were given, or where the file refuses.
    fn open(&mut self, name: &str) -> Result<u32, IoErr>
        ensures id { Gives (given self.old) (given self.new) result }
        ensures store { tells → Opens (given self.old) (store self.old) (store self.new) name.now result }
        ensures cause { HasCause (faults self.old) (faults self.new) result };

    /// Makes a name's bytes empty and gives an id that appends to them.
    ///
    /// `Failed` where 4,294,967,295 ids were given, or where the file refuses.
    fn create(&mut self, name: &str) -> Result<u32, IoErr>
        ensures id { Gives (given self.old) (given self.new) result }
        ensures store { tells → Creates (given self.old) (store self.old) (store self.new) name.now result }
        ensures cause { HasCause (faults self.old) (faults self.new) result };

    /// Puts the next bytes at the front of the buffer and says how many: 0 exactly where none is left.
    ///
    /// The id came from `open`, and the buffer isn't empty.
    fn read(&mut self, id: u32, buf: &mut [u8]) -> Result<usize, IoErr>
        requires given { id < given self.old }
        requires opened { tells → (store self.old).opened id ≡ true }
        requires room { 0 < length buf.old }
        ensures count { IfOk result (λ n. n ≤ length buf.new) }
        ensures ids { given self.new ≡ given self.old }
        ensures store { tells →
            Reads (given self.old) (store self.old) (store self.new) id (length buf.old) buf.new result }
        ensures cause { HasCause (faults self.old) (faults self.new) result };

    /// Appends a front of the bytes and says how many: at least one.
    ///
    /// The id came from `create`, and there are bytes. A file that takes none of them answers `Failed`.
    fn write(&mut self, id: u32, bytes: &[u8]) -> Result<usize, IoErr>
        requires given { id < given self.old }
        requires created { tells → (store self.old).opened id ≡ false }
        requires some { 0 < length bytes.now }
        ensures count { IfOk result (λ n. (0 < n) × (n ≤ length bytes.now)) }
        ensures ids { given self.new ≡ given self.old }
        ensures store { tells →
            Writes (given self.old) (store self.old) (store self.new) id bytes.now (length bytes.now) result }
        ensures cause { HasCause (faults self.old) (faults self.new) result };

    /// The journal names no id that wasn't given.
    ghost known: { (s : Self) → tells → NamesGiven (given s) (store s).calls };

    /// A count of 64 bits.
    ghost below: { (s : Self) → faults s < 2 ^ 64 };
}
