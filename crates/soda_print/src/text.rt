ghost use Rattle.std.specs.Prelude.{◌≡◌, ◌++◌, ◌∷◌, [], map, codes, OnOk, if◌then◌else◌, ◌==◌};
ghost use Rattle.std.specs.Fmt.{decimal, signed_decimal};
ghost use Rattle.soda_words.specs.IntType.{IsType};
ghost use Rattle.soda_print.specs.Canonical.{behind_commas, closing, indexes_text, left_items, listed, opening, parted, tile_items, type_text};

use crate::NoMemory;
use soda_words::Ty;
use std::alloc::Global;

/// Adds bytes.
pub(crate) fn add(text: &mut Vec<u8>, bytes: &[u8]) -> Result<(), NoMemory>
    ensures { OnOk result (text.new.items ≡ text.old.items ++ bytes.now) }
{
    text.extend_from_slice(bytes)
}

/// Ends a line.
pub(crate) fn end_line(text: &mut Vec<u8>) -> Result<(), NoMemory>
    ensures { OnOk result (text.new.items ≡ text.old.items ++ codes "\n") }
{
    add(text, b"\n")
}

/// Adds a number in decimal.
pub(crate) fn add_number(alloc: Global, text: &mut Vec<u8>, number: u64) -> Result<(), NoMemory>
    ensures { OnOk result (text.new.items ≡ text.old.items ++ decimal number) }
{
    let digits = format!(in alloc; "{number}")?;
    add(text, digits.as_str().as_bytes())
}

// Adds a component in decimal, behind its sign where it is below 0.
fn add_component(alloc: Global, text: &mut Vec<u8>, component: i64) -> Result<(), NoMemory>
    ensures { OnOk result (text.new.items ≡ text.old.items ++ signed_decimal component) }
{
    let digits = format!(in alloc; "{component}")?;
    add(text, digits.as_str().as_bytes())
}

/// Adds a type.
#[tactic(auto, using(crate::proofs::Appended::appended), unfolding(crate::specs::Canonical::type_text))]
pub(crate) fn add_type(alloc: Global, text: &mut Vec<u8>, ty: Ty) -> Result<(), NoMemory>
    ensures adds { OnOk result (text.new.items ≡ text.old.items ++ type_text ty) }
    ensures allowed { IsType ty }
{
    if ty.signed() {
        add(text, b"int")?;
    } else {
        add(text, b"uint")?;
    }
    add_number(alloc, text, ty.bits() as u64)
}

/// Adds an opening bracket where there is a pair.
pub(crate) fn open(text: &mut Vec<u8>, pairs: u64) -> Result<(), NoMemory>
    ensures { OnOk result (text.new.items ≡ text.old.items ++ opening pairs) }
{
    if pairs == 0 {
        add(text, b"")
    } else {
        add(text, b"(")
    }
}

/// Adds a closing bracket where there is a pair.
pub(crate) fn close(text: &mut Vec<u8>, pairs: u64) -> Result<(), NoMemory>
    ensures { OnOk result (text.new.items ≡ text.old.items ++ closing pairs) }
{
    if pairs == 0 {
        add(text, b"")
    } else {
        add(text, b")")
    }
}

// Adds each component behind a comma and a blank.
#[tactic(auto, using(crate::proofs::Appended::appended))]
fn add_behind_commas(alloc: Global, text: &mut Vec<u8>, components: &[i64]) -> Result<(), NoMemory>
    ensures { OnOk result (text.new.items ≡ text.old.items ++ behind_commas (map signed_decimal components.now)) }
{
    match components {
        [] => Ok(()),
        [component, rest @ ..] => {
            add(text, b", ")?;
            add_component(alloc, text, *component)?;
            add_behind_commas(alloc, text, rest)
        }
    }
}

// Adds the components, parted.
#[tactic(auto, using(crate::proofs::Appended::appended))]
fn add_components(alloc: Global, text: &mut Vec<u8>, components: &[i64]) -> Result<(), NoMemory>
    ensures { OnOk result (text.new.items ≡ text.old.items ++ parted (map signed_decimal components.now)) }
{
    match components {
        [] => Ok(()),
        [component, rest @ ..] => {
            add_component(alloc, text, *component)?;
            add_behind_commas(alloc, text, rest)
        }
    }
}

/// Adds an offset in its brackets.
#[tactic(auto, using(crate::proofs::Appended::appended))]
pub(crate) fn add_offset(
    alloc: Global,
    text: &mut Vec<u8>,
    components: &[i64],
) -> Result<(), NoMemory>
    ensures { OnOk result (text.new.items ≡ text.old.items ++ listed (map signed_decimal components.now)) }
{
    add(text, b"(")?;
    add_components(alloc, text, components)?;
    add(text, b")")
}

/// Adds each index in square brackets.
#[tactic(auto, using(crate::proofs::Appended::appended))]
pub(crate) fn add_indexes(
    alloc: Global,
    text: &mut Vec<u8>,
    indexes: &[u64],
) -> Result<(), NoMemory>
    ensures { OnOk result (text.new.items ≡ text.old.items ++ indexes_text indexes.now) }
{
    match indexes {
        [] => Ok(()),
        [index, rest @ ..] => {
            add(text, b"[")?;
            add_number(alloc, text, *index)?;
            add(text, b"]")?;
            add_indexes(alloc, text, rest)
        }
    }
}

// Adds the fixed extents and `*`, parted.
#[tactic(auto, using(crate::proofs::Appended::appended))]
fn add_extents(alloc: Global, text: &mut Vec<u8>, extents: &[u64]) -> Result<(), NoMemory>
    ensures { OnOk result (text.new.items ≡ text.old.items ++ parted (tile_items extents.now)) }
{
    match extents {
        [] => add(text, b"*"),
        [extent, rest @ ..] => {
            add_number(alloc, text, *extent)?;
            add(text, b", ")?;
            add_extents(alloc, text, rest)
        }
    }
}

/// Adds a tile in its brackets.
#[tactic(auto, using(crate::proofs::Appended::appended))]
pub(crate) fn add_tile(alloc: Global, text: &mut Vec<u8>, extents: &[u64]) -> Result<(), NoMemory>
    ensures { OnOk result (text.new.items ≡ text.old.items ++ listed (tile_items extents.now)) }
{
    add(text, b"(")?;
    add_extents(alloc, text, extents)?;
    add(text, b")")
}

// Adds a zero for each fixed extent and one for the last, parted.
#[tactic(auto, using(crate::proofs::Appended::appended))]
fn add_zeros(text: &mut Vec<u8>, extents: &[u64]) -> Result<(), NoMemory>
    ensures { OnOk result (text.new.items ≡ text.old.items ++ parted (left_items extents.now)) }
{
    match extents {
        [] => add(text, b"0"),
        [_, rest @ ..] => {
            add(text, b"0, ")?;
            add_zeros(text, rest)
        }
    }
}

/// Adds a left side in its brackets.
#[tactic(auto, using(crate::proofs::Appended::appended))]
pub(crate) fn add_left(text: &mut Vec<u8>, extents: &[u64]) -> Result<(), NoMemory>
    ensures { OnOk result (text.new.items ≡ text.old.items ++ listed (left_items extents.now)) }
{
    add(text, b"(")?;
    add_zeros(text, extents)?;
    add(text, b")")
}
