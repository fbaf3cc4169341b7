ghost use Rattle.std.specs.Prelude.{◌≡◌, ℕ, ◌<◌, false, length};
ghost use Rattle.soda_io.specs.Cause.{HasCause};
ghost use Rattle.whole_files.specs.Writing.{WritesWhole};

use soda_io::{Files, IoErr};

/// Appends all the bytes to an id's name. The id came from `create`.
///
/// After an error a prefix of them was appended. `Failed` exactly where a write failed, and it writes nothing after it.
pub fn write_whole<F: Files>(files: &mut F, id: u32, bytes: &[u8]) -> Result<(), IoErr>
    requires given { id < F.given files.old }
    requires created { F.tells → (F.store files.old).opened id ≡ false }

    ensures given { F.given files.new ≡ F.given files.old }
    ensures store { F.tells →
        WritesWhole (F.given files.old) (F.store files.old) (F.store files.new) id bytes.now result }
    ensures cause { HasCause (F.faults files.old) (F.faults files.new) result }
{
    let mut done = 0;
    while done < bytes.len() {
        match files.write(id, &bytes[done..]) {
            Ok(count) => done += count,
            Err(fault) => return Err(fault),
        }
    }
    Ok(())
}
