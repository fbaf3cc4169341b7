ghost use Rattle.std.specs.Prelude.{◌≡◌, ℕ, ◌<◌, length, IsErrOf};
ghost use Rattle.soda_io.specs.Cause.{HasCause};
ghost use Rattle.whole_files.specs.Sinking.{TakesFront};

use soda_io::{IoErr, Sink};

/// Puts all the bytes into a sink. After an error it has taken a prefix of them, and is asked nothing more.
pub fn put_whole<S: Sink>(sink: &mut S, bytes: &[u8]) -> Result<(), IoErr>
    ensures taken { S.tells → TakesFront (S.taken sink.old) (S.taken sink.new) bytes.now result }
    ensures cause { HasCause (S.faults sink.old) (S.faults sink.new) result }
    ensures spared { IsErrOf result IoErr.Memory → S.faults sink.new ≡ S.faults sink.old }
{
    let mut done = 0;
    while done < bytes.len() {
        match sink.write(&bytes[done..]) {
            Ok(count) => done += count,
            Err(fault) => return Err(fault),
        }
    }
    Ok(())
}
