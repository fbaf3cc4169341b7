ghost use Rattle.std.specs.Prelude.{◌≡◌, ℕ, ◌+◌, ◌<◌, ◌≤◌, ◌^◌, ◌↔◌, pos, neg_ℤ, ◌*ℤ◌, ◌≤ℤ◌, length, slice_index, IsTrue};
ghost use Rattle.std.specs.List.{All};
ghost use Rattle.delay_net.specs.Limits.{most_tensors, most_reads, most_offset};
ghost use Rattle.delay_net.specs.Shape.{IsNet, HasSmallOffset};
ghost use Rattle.delay_net.specs.Windows.{IsAssignment, HasShortDelays, MeetsWindows, IsLeastStorage, total_storage};
ghost use Rattle.delay_net.specs.Certificate.{sum_at, FillsWidths, IsEven, IsBalanced, sum_of_offsets, value_of, Fits};
ghost use Rattle.delay_net.specs.pieces.End.{tensor_at};

use crate::storing::storage;
use crate::{Flow, MOST_TENSORS, Net, Read};

// The two tensors of a read.
#[derive(Clone, Copy)]
enum End {
    Reader,
    Of,
}

impl End {
    fn tensor(self, read: &Read) -> u32
        ensures { result ≡ tensor_at self read.now }
    {
        match self {
            End::Reader => read.reader,
            End::Of => read.of,
        }
    }
}

// At each tensor, the numbers of the reads that have it at this end, added up.
fn sums(net: &Net, numbers: &[u32], end: End) -> [u64; MOST_TENSORS]
    requires { length numbers.now ≡ length net.now.reads }
    ensures sums { (tensor : ℕ) → tensor < most_tensors
        → slice_index result tensor ≡ sum_at (tensor_at end) tensor net.now.reads numbers.now }
    ensures small { (tensor : ℕ) → tensor < most_tensors → slice_index result tensor ≤ 2 ^ 46 }
{
    let reads = net.reads();
    let mut sums = [0; MOST_TENSORS];
    for (i, read) in reads.iter().enumerate() {
        sums[end.tensor(read) as usize] += numbers[i] as u64;
    }
    sums
}

// Whether the holds of each tensor that is read sum to its width.
fn fills_widths(net: &Net, hold: &[u32]) -> bool
    requires { length hold.now ≡ length net.now.reads }
    ensures { IsTrue result ↔ FillsWidths net.now.weights net.now.reads hold.now }
{
    let held = sums(net, hold, End::Of);
    let weights = net.weights();
    for read in net.reads() {
        let of = read.of as usize;
        if held[of] != weights[of] as u64 {
            return false;
        }
    }
    true
}

// Whether at each tensor the holds that come in and the needs that go out are as many as the needs
// that come in and the holds that go out.
fn is_even(net: &Net, hold: &[u32], need: &[u32]) -> bool
    requires holds { length hold.now ≡ length net.now.reads }
    requires needs { length need.now ≡ length net.now.reads }
    requires filled { FillsWidths net.now.weights net.now.reads hold.now }
    ensures { IsTrue result ↔ IsEven net.now.weights net.now.reads hold.now need.now }
{
    let holds_in = sums(net, hold, End::Reader);
    let holds_out = sums(net, hold, End::Of);
    let needs_in = sums(net, need, End::Reader);
    let needs_out = sums(net, need, End::Of);
    for tensor in 0..net.weights().len() {
        if holds_in[tensor] + needs_out[tensor] != needs_in[tensor] + holds_out[tensor] {
            return false;
        }
    }
    true
}

/// Whether a certificate is balanced: the holds of the reads of each tensor that is read sum to its
/// width, and at each tensor the holds where it reads and the needs where it is read are as many as
/// the needs where it reads and its width, if it is read. There is one hold and one need for each
/// read.
pub fn is_balanced(net: &Net, hold: &[u32], need: &[u32]) -> bool
    requires holds { length hold.now ≡ length net.now.reads }
    requires needs { length need.now ≡ length net.now.reads }
    ensures { IsTrue result ↔ IsBalanced net.now.weights net.now.reads hold.now need.now }
{
    fills_widths(net, hold) && is_even(net, hold, need)
}

// A number times an offset.
fn product(number: u32, offset: i64) -> i128
    requires from { neg_ℤ (pos most_offset) ≤ℤ offset }
    requires to { offset ≤ℤ pos most_offset }
    ensures value { result ≡ pos number *ℤ offset }
    ensures low { neg_ℤ (pos (2 ^ 74)) ≤ℤ result }
    ensures high { result ≤ℤ pos (2 ^ 74) }
{
    number as i128 * offset as i128
}

// Over the reads, number times offset.
fn sum_of_offsets(reads: &[Read], numbers: &[u32]) -> i128
    requires offsets { All HasSmallOffset reads.now }
    requires few { length reads.now ≤ most_reads }
    requires one_each { length numbers.now ≡ length reads.now }
    ensures value { result ≡ sum_of_offsets reads.now numbers.now }
    ensures low { neg_ℤ (pos (2 ^ 88)) ≤ℤ result }
    ensures high { result ≤ℤ pos (2 ^ 88) }
{
    let mut sum = 0;
    for (i, read) in reads.iter().enumerate() {
        sum += product(numbers[i], read.offset);
    }
    sum
}

// The value of a certificate.
fn value(reads: &[Read], hold: &[u32], need: &[u32]) -> i128
    requires offsets { All HasSmallOffset reads.now }
    requires few { length reads.now ≤ most_reads }
    requires holds { length hold.now ≡ length reads.now }
    requires needs { length need.now ≡ length reads.now }
    ensures { result ≡ value_of reads.now hold.now need.now }
{
    sum_of_offsets(reads, need) - sum_of_offsets(reads, hold)
}

// Whether the value of a certificate is the total storage.
fn has_value(net: &Net, delays: &[u64], hold: &[u32], need: &[u32]) -> bool
    requires assignment { IsAssignment net.now.weights delays.now }
    requires delays { HasShortDelays delays.now }
    requires meets { MeetsWindows net.now.reads delays.now }
    requires holds { length hold.now ≡ length net.now.reads }
    requires needs { length need.now ≡ length net.now.reads }
    ensures value { IsTrue result ↔ (value_of net.now.reads hold.now need.now
        ≡ pos (total_storage net.now.weights net.now.reads delays.now)) }
    ensures net { IsNet net.now.weights net.now.reads }
{
    let value = value(net.reads(), hold, need);
    value >= 0 && value as u128 == storage(net, delays)
}

/// Whether a certificate fits an assignment of delays that meets the windows: it is balanced, and
/// its value is the total storage. Where the answer is true, no assignment that meets the windows
/// has less storage, whoever made the certificate. The certificate has one hold and one need for
/// each read.
pub fn check(net: &Net, delays: &[u64], flow: &Flow) -> bool
    requires assignment { IsAssignment net.now.weights delays.now }
    requires delays { HasShortDelays delays.now }
    requires meets { MeetsWindows net.now.reads delays.now }
    requires holds { length flow.now.hold ≡ length net.now.reads }
    requires needs { length flow.now.need ≡ length net.now.reads }
    ensures fits { IsTrue result
        ↔ Fits net.now.weights net.now.reads delays.now flow.now.hold flow.now.need }
    ensures least { IsTrue result → IsLeastStorage net.now.weights net.now.reads
        (total_storage net.now.weights net.now.reads delays.now) }
{
    let hold = flow.hold.as_slice();
    let need = flow.need.as_slice();
    let has_value = has_value(net, delays, hold, need);
    has_value && is_balanced(net, hold, need)
}
