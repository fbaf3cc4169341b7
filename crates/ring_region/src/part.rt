ghost use Rattle.std.specs.Prelude.{◌≡◌, ◌<◌};
ghost use Rattle.ring_region.specs.machine.Parts.{next_place};

/// A queue's part of the region, and how far it is filled.
#[derive(Clone, Copy)]
pub(crate) struct Part {
    /// The first place of the part.
    pub(crate) begin: usize,
    /// The place after its last one.
    pub(crate) end: usize,
    /// The place of the next item that is put.
    pub(crate) put: usize,
    /// The place of the next item that is taken.
    pub(crate) take: usize,
    /// The number of items.
    pub(crate) held: usize,
}

/// The place after a place, round the part.
pub(crate) fn next_place(part: &Part, place: usize) -> usize
    requires { place < part.now.end }
    ensures { result ≡ next_place part.now.begin part.now.end place }
{
    if place + 1 == part.end {
        part.begin
    } else {
        place + 1
    }
}
