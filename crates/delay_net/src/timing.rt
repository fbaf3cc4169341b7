ghost use Rattle.std.specs.Prelude.{◌≡◌, ◌<◌, ◌≤◌, ◌^◌, ◌↔◌, ℤ, pos, ◌+ℤ◌, ◌≤ℤ◌, length, IsTrue};
ghost use Rattle.std.specs.List.{All};
ghost use Rattle.delay_net.specs.Shape.{HasSmallOffset};
ghost use Rattle.delay_net.specs.Windows.{IsAssignment, HasShortDelays, MeetsWindow, MeetsWindows, age};

use crate::{Net, Read};

/// Whether an assignment meets the window of one read.
pub fn meets_window(read: Read, delays: &[u64]) -> bool
    requires reader { read.reader < length delays.now }
    requires of { read.of < length delays.now }
    requires offset { HasSmallOffset read }
    requires delays { HasShortDelays delays.now }
    ensures { IsTrue result ↔ MeetsWindow delays.now read }
{
    let reader = delays[read.reader as usize];
    let of = delays[read.of as usize];
    reader as i64 >= of as i64 + read.offset
}

/// Whether an assignment of delays meets the windows: each reader's delay is at least the delay of
/// what it reads plus the read's offset. The assignment has one delay for each tensor, each below
/// 2^62.
pub fn meets(net: &Net, delays: &[u64]) -> bool
    requires assignment { IsAssignment net.now.weights delays.now }
    requires delays { HasShortDelays delays.now }
    ensures { IsTrue result ↔ MeetsWindows net.now.reads delays.now }
{
    for read in net.reads() {
        if !meets_window(*read, delays) {
            return false;
        }
    }
    true
}

/// The age of a read whose window is met, in cells: how far behind its reader's newest cell the cell
/// that it reads lies.
pub fn age_of(read: Read, delays: &[u64]) -> u64
    requires reader { read.reader < length delays.now }
    requires of { read.of < length delays.now }
    requires offset { HasSmallOffset read }
    requires delays { HasShortDelays delays.now }
    requires met { MeetsWindow delays.now read }
    ensures { age delays.now read ≡ pos result }
{
    let reader = delays[read.reader as usize];
    let of = delays[read.of as usize];
    (reader as i64 - read.offset - of as i64) as u64
}
