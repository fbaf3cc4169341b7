ghost use Rattle.std.specs.Prelude.{◌≡◌, ◌↔◌, IsTrue, ℕ, ◌<◌, ◌++◌, ◌∷◌, [], codes, length, slice_index, IfOk, MatchOption};
ghost use Rattle.delay_net.specs.Certificate.{Fits};
ghost use Rattle.delay_net.specs.Windows.{HasShortDelays, IsAssignment, MeetsWindows, storage_of, total_storage};
ghost use Rattle.design_lines.specs.PlanLines.{total_line};
ghost use Rattle.design_lines.specs.Lines.{GoesOn};
ghost use Rattle.design_reader.specs.Told.{AreStorages};

use crate::NoMemory;
use delay_net::{Flow, Net, check, storage, storages};
use design_lines::{behind_line, total_line};
use std::alloc::Global;

// Whether these are the storages of the tensors, in cells.
fn are_storages(net: &Net, delays: &[u64], told: &[u64]) -> bool
    requires assignment { IsAssignment net.now.weights delays.now }
    requires short { HasShortDelays delays.now }
    requires meets { MeetsWindows net.now.reads delays.now }
    requires as_many { length told.now ≡ length net.now.weights }
    ensures { IsTrue result ↔ AreStorages net.now.reads delays.now told.now }
{
    let greatest = storages(net, delays);
    for (tensor, cells) in told.iter().enumerate() {
        if greatest[tensor] != *cells {
            return false;
        }
    }
    true
}

// What follows the line of the total storage of these delays, if the text goes on with it.
fn total_behind<'a>(
    alloc: Global,
    text: &'a [u8],
    net: &Net,
    delays: &[u64],
) -> Result<Option<&'a [u8]>, NoMemory>
    requires assignment { IsAssignment net.now.weights delays.now }
    requires short { HasShortDelays delays.now }
    requires meets { MeetsWindows net.now.reads delays.now }
    ensures { IfOk result (λ rest. MatchOption rest
        (GoesOn (total_line (total_storage net.now.weights net.now.reads delays.now) ∷ []) text.now → ⊥)
        (λ r. text.now
        ≡ (total_line (total_storage net.now.weights net.now.reads delays.now) ++ codes "\n") ++ r.now)) }
{
    let line = total_line(alloc, storage(net, delays))?;
    Ok(behind_line(line.as_bytes(), text))
}

/// What follows the line of the total, if the storages are those of these delays, the certificate fits them, and the
/// text goes on with that line.
pub(crate) fn total_told<'a>(
    alloc: Global,
    text: &'a [u8],
    net: &Net,
    delays: &[u64],
    told: &[u64],
    flow: &Flow,
) -> Result<Option<&'a [u8]>, NoMemory>
    requires assignment { IsAssignment net.now.weights delays.now }
    requires short { HasShortDelays delays.now }
    requires meets { MeetsWindows net.now.reads delays.now }
    requires as_many { length told.now ≡ length net.now.weights }
    requires holds { length flow.now.hold ≡ length net.now.reads }
    requires needs { length flow.now.need ≡ length net.now.reads }
    ensures { IfOk result (λ rest. MatchOption rest
        (AreStorages net.now.reads delays.now told.now
        → Fits net.now.weights net.now.reads delays.now flow.now.hold flow.now.need
        → GoesOn (total_line (total_storage net.now.weights net.now.reads delays.now) ∷ []) text.now → ⊥)
        (λ r. AreStorages net.now.reads delays.now told.now
        × Fits net.now.weights net.now.reads delays.now flow.now.hold flow.now.need
        × (text.now
        ≡ (total_line (total_storage net.now.weights net.now.reads delays.now) ++ codes "\n") ++ r.now))) }
{
    if are_storages(net, delays, told) && check(net, delays, flow) {
        total_behind(alloc, text, net, delays)
    } else {
        Ok(None)
    }
}
