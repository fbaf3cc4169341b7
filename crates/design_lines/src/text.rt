ghost use Rattle.std.specs.Prelude.{◌≡◌, ◌++◌, codes, IfOk, OnOk, string_bytes};
ghost use Rattle.std.specs.Fmt.{decimal};
ghost use Rattle.soda_ir.specs.Program.{plain};
ghost use Rattle.soda_print.specs.Canonical.{tensor_name, type_text};
ghost use Rattle.time_stages.specs.Staged.{type_of};
ghost use Rattle.design_lines.specs.PlanLines.{behind_name, read_front, read_line, read_words, tensor_front, tensor_line, total_line};

use crate::NoMemory;
use delay_net::Read;
use soda_ir::Parts;
use soda_words::{Ty, int32};
use std::alloc::Global;
use time_stages::StagedTensor;

// Adds bytes.
fn add(text: &mut Vec<u8>, bytes: &[u8]) -> Result<(), NoMemory>
    ensures { OnOk result (text.new.items ≡ text.old.items ++ bytes.now) }
{
    text.extend_from_slice(bytes)
}

// Adds the name of a tensor.
#[tactic(auto, unfolding(soda_print::specs::Canonical::tensor_name))]
fn add_name(text: &mut Vec<u8>, parts: &Parts, tensor: u32) -> Result<(), NoMemory>
    ensures { OnOk result (text.new.items ≡ text.old.items ++ tensor_name (plain parts.now) tensor) }
{
    match parts.tensors.get(tensor as usize) {
        Some(tensor) => add(text, tensor.name.as_slice()),
        None => add(text, b""),
    }
}

// The type of a tensor, and `int32` past the last.
fn type_of(parts: &Parts, tensor: u32) -> Ty
    ensures { result ≡ type_of (plain parts.now) tensor }
{
    match parts.tensors.get(tensor as usize) {
        Some(tensor) => tensor.ty,
        None => int32(),
    }
}

// How a type is written.
#[tactic(auto, unfolding(soda_print::specs::Canonical::type_text))]
fn type_word(alloc: Global, ty: Ty) -> Result<String, NoMemory>
    ensures { IfOk result (λ word. string_bytes word ≡ type_text ty) }
{
    let bits = ty.bits();
    if ty.signed() {
        format!(in alloc; "int{bits}")
    } else {
        format!(in alloc; "uint{bits}")
    }
}

// What stands before the name in the line of a tensor.
fn before_name(alloc: Global, number: usize) -> Result<String, NoMemory>
    ensures { IfOk result (λ text. string_bytes text ≡ codes "tensor " ++ (decimal number ++ codes " ")) }
{
    format!(in alloc; "tensor {number} ")
}

// What stands between the name and the delay.
fn behind_name(alloc: Global, turn: u32, ty: Ty) -> Result<String, NoMemory>
    ensures { IfOk result (λ text. string_bytes text ≡ behind_name turn ty) }
{
    let ty = type_word(alloc, ty)?;
    format!(in alloc; "@{turn} {ty} delay ")
}

// What a read is, with its number.
fn read_words(alloc: Global, number: usize, read: Read) -> Result<String, NoMemory>
    ensures { IfOk result (λ text. string_bytes text ≡ read_words number read) }
{
    let reader = read.reader;
    let of = read.of;
    let offset = read.offset;
    format!(in alloc; "read {number} reader {reader} of {of} offset {offset}")
}

// Its age.
fn age_words(alloc: Global, age: u64) -> Result<String, NoMemory>
    ensures { IfOk result (λ text. string_bytes text ≡ codes " age " ++ (decimal age ++ codes " hold ")) }
{
    format!(in alloc; " age {age} hold ")
}

// What the certificate has for it.
fn amount_words(alloc: Global, hold: u32, need: u32) -> Result<String, NoMemory>
    ensures { IfOk result (λ text. string_bytes text ≡ decimal hold ++ (codes " need " ++ decimal need)) }
{
    format!(in alloc; "{hold} need {need}")
}

// A delay and a storage in cells.
fn storage_words(alloc: Global, delay: u64, storage: u64) -> Result<String, NoMemory>
    ensures { IfOk result (λ text. string_bytes text ≡ decimal delay ++ (codes " storage " ++ decimal storage)) }
{
    format!(in alloc; "{delay} storage {storage}")
}

/// Adds what stands before the delay in the line of the staged tensor of this number.
#[tactic(auto, using(crate::proofs::Written::appended))]
pub fn add_tensor_front(
    alloc: Global,
    text: &mut Vec<u8>,
    parts: &Parts,
    number: usize,
    staged: &StagedTensor,
) -> Result<(), NoMemory>
    ensures { OnOk result (text.new.items ≡ text.old.items ++ tensor_front (plain parts.now) number staged.now) }
{
    let before = before_name(alloc, number)?;
    add(text, before.as_bytes())?;
    add_name(text, parts, staged.tensor)?;
    let behind = behind_name(alloc, staged.turn, type_of(parts, staged.tensor))?;
    add(text, behind.as_bytes())
}

/// Adds what stands before the hold in the line of the read of this number, with its age in cells.
#[tactic(auto, using(crate::proofs::Written::appended))]
pub fn add_read_front(
    alloc: Global,
    text: &mut Vec<u8>,
    number: usize,
    read: Read,
    age: u64,
) -> Result<(), NoMemory>
    ensures { OnOk result (text.new.items ≡ text.old.items ++ read_front number read age) }
{
    let words = read_words(alloc, number, read)?;
    add(text, words.as_bytes())?;
    let age = age_words(alloc, age)?;
    add(text, age.as_bytes())
}

/// The line of the total storage in bits.
pub fn total_line(alloc: Global, bits: u128) -> Result<String, NoMemory>
    ensures { IfOk result (λ text. string_bytes text ≡ total_line bits) }
{
    format!(in alloc; "total bits {bits}")
}

// Adds a line.
#[tactic(auto, using(crate::proofs::Written::appended))]
fn add_line(text: &mut Vec<u8>, line: &[u8]) -> Result<(), NoMemory>
    ensures { OnOk result (text.new.items ≡ text.old.items ++ (line.now ++ codes "\n")) }
{
    add(text, line)?;
    add(text, b"\n")
}

/// Adds the line of the staged tensor of this number, with its delay and its storage in cells.
#[tactic(auto, using(crate::proofs::Written::appended))]
pub(crate) fn add_tensor(
    alloc: Global,
    text: &mut Vec<u8>,
    parts: &Parts,
    number: usize,
    staged: &StagedTensor,
    delay: u64,
    storage: u64,
) -> Result<(), NoMemory>
    ensures { OnOk result (text.new.items
        ≡ text.old.items ++ (tensor_line (plain parts.now) number staged.now delay storage ++ codes "\n")) }
{
    add_tensor_front(alloc, text, parts, number, staged)?;
    let numbers = storage_words(alloc, delay, storage)?;
    add_line(text, numbers.as_bytes())
}

/// Adds the line of the read of this number, with its age in cells and the hold and the need of it.
#[tactic(auto, using(crate::proofs::Written::appended))]
pub(crate) fn add_read(
    alloc: Global,
    text: &mut Vec<u8>,
    number: usize,
    read: Read,
    age: u64,
    hold: u32,
    need: u32,
) -> Result<(), NoMemory>
    ensures { OnOk result (text.new.items
        ≡ text.old.items ++ (read_line number read age hold need ++ codes "\n")) }
{
    add_read_front(alloc, text, number, read, age)?;
    let amounts = amount_words(alloc, hold, need)?;
    add_line(text, amounts.as_bytes())
}

/// Adds the line of the total storage in bits.
pub(crate) fn add_total(alloc: Global, text: &mut Vec<u8>, bits: u128) -> Result<(), NoMemory>
    ensures { OnOk result (text.new.items ≡ text.old.items ++ (total_line bits ++ codes "\n")) }
{
    let line = total_line(alloc, bits)?;
    add_line(text, line.as_bytes())
}
