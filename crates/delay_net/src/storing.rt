ghost use Rattle.std.specs.Prelude.{◌≡◌, ℕ, ◌<◌, ◌≤◌, length, slice_index};
ghost use Rattle.delay_net.specs.Limits.{most_tensors};
ghost use Rattle.delay_net.specs.Windows.{IsAssignment, HasShortDelays, MeetsWindows, IsGreatestAge, storage_of, total_storage};

use crate::timing::age_of;
use crate::{MOST_TENSORS, Net};

/// The storage of a tensor in cells: the greatest age of its reads, 0 where it isn't read.
pub fn storage_of(net: &Net, delays: &[u64], tensor: u32) -> u64
    requires assignment { IsAssignment net.now.weights delays.now }
    requires delays { HasShortDelays delays.now }
    requires meets { MeetsWindows net.now.reads delays.now }
    requires tensor { tensor < length net.now.weights }
    ensures value { result ≡ storage_of net.now.reads delays.now tensor }
    ensures greatest { IsGreatestAge net.now.reads delays.now tensor result }
{
    let mut greatest = 0;
    for read in net.reads() {
        if read.of == tensor {
            greatest = age_of(*read, delays).max(greatest);
        }
    }
    greatest
}

/// The storage of each tensor in cells, by the tensor's number.
pub fn storages(net: &Net, delays: &[u64]) -> [u64; MOST_TENSORS]
    requires assignment { IsAssignment net.now.weights delays.now }
    requires delays { HasShortDelays delays.now }
    requires meets { MeetsWindows net.now.reads delays.now }
    ensures each { (tensor : ℕ) → tensor < most_tensors
        → slice_index result tensor ≡ storage_of net.now.reads delays.now tensor }
    ensures few { length net.now.weights ≤ most_tensors }
{
    let mut greatest = [0; MOST_TENSORS];
    for read in net.reads() {
        let of = read.of as usize;
        greatest[of] = age_of(*read, delays).max(greatest[of]);
    }
    greatest
}

/// The total storage in bits: over the tensors, width times storage.
pub fn storage(net: &Net, delays: &[u64]) -> u128
    requires assignment { IsAssignment net.now.weights delays.now }
    requires delays { HasShortDelays delays.now }
    requires meets { MeetsWindows net.now.reads delays.now }
    ensures { result ≡ total_storage net.now.weights net.now.reads delays.now }
{
    let greatest = storages(net, delays);
    let mut bits = 0;
    for (tensor, width) in net.weights().iter().enumerate() {
        bits += *width as u128 * greatest[tensor] as u128;
    }
    bits
}
