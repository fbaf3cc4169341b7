ghost use Rattle.file_modules.specs.Laws.{BeginsWithNone, EndsWithAll, HandsFirstCells, HandsNextCells, SendsCells};

/// Where each lane whose cell is there holds it, a firing hands on the next cells of the array, from the first to the
/// last. What a source sends are such values.
pub fn firings_hand_on_the_array()
    ensures none { BeginsWithNone }
    ensures all { EndsWithAll }
    ensures next { HandsNextCells }
    ensures first { HandsFirstCells }
    ensures sends { SendsCells }
{}
