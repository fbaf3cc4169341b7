ghost use Rattle.std.specs.Prelude.{◌≡◌, ◌<◌, ◌^◌, ◌++◌, ◌∷◌, [], length, IfOk, OnOk};
ghost use Rattle.delay_net.specs.Windows.{HasShortDelays};
ghost use Rattle.soda_ir.specs.Program.{plain};
ghost use Rattle.soda_print.specs.Canonical.{ended};
ghost use Rattle.time_stages.specs.Staged.{staged_tensors};
ghost use Rattle.design_reader.specs.Told.{AreReadsTold, AreTold, told_reads, told_tensors};
ghost use Rattle.design_reader.specs.Stops.{IfRefused, IsReadStop, IsTensorStop};

use crate::{NoMemory, TextFail};
use delay_net::Net;
use design_lines::{read_told, tensor_told};
use soda_ir::Parts;
use std::alloc::Global;
use time_stages::StagedTensor;

// Adds one to each of two lists.
fn add_to_each<T: Copy>(
    firsts: &mut Vec<T>,
    seconds: &mut Vec<T>,
    first: T,
    second: T,
) -> Result<(), NoMemory>
    ensures firsts { OnOk result (firsts.new.items ≡ firsts.old.items ++ first ∷ []) }
    ensures seconds { OnOk result (seconds.new.items ≡ seconds.old.items ++ second ∷ []) }
{
    firsts.push(first)?;
    seconds.push(second)?;
    Ok(())
}

/// What the lines of the staged tensors tell, and the text behind them.
#[derive(Drop)]
pub(crate) struct Tensors<'a> {
    /// The delay of each, in cells.
    pub(crate) delays: Vec<u64>,
    /// The storage of each, in cells.
    pub(crate) storages: Vec<u64>,
    /// What follows.
    pub(crate) rest: &'a [u8],
}

/// What the lines of the staged tensors tell. They stand behind so many lines.
pub(crate) fn tensors_told<'a>(
    alloc: Global,
    text: &'a [u8],
    parts: &Parts,
    tensors: &[StagedTensor],
    before: u64,
) -> Result<Tensors<'a>, TextFail>
    requires tensors { tensors.now ≡ staged_tensors (plain parts.now) }
    requires before { before < 2 ^ 40 }
    requires few { length tensors.now < 2 ^ 32 }
    ensures told { IfOk result (λ t. AreTold (plain parts.now) t.delays.items t.storages.items) }
    ensures all { IfOk result (λ t. length t.delays.items ≡ length (staged_tensors (plain parts.now))) }
    ensures text { IfOk result (λ t. text.now
        ≡ ended (told_tensors (plain parts.now) t.delays.items t.storages.items) ++ t.rest.now) }
    ensures refused { IfRefused result (IsTensorStop (plain parts.now) text.now before) }
{
    let mut delays = Vec::new(alloc);
    let mut storages = Vec::new(alloc);
    let mut rest = text;
    for (number, tensor) in tensors.iter().enumerate() {
        let Some(told) = tensor_told(alloc, rest, parts, number, tensor)? else {
            return Err(TextFail::Refused(before + number as u64 + 1));
        };
        add_to_each(&mut delays, &mut storages, told.first, told.second)?;
        rest = told.rest;
    }
    Ok(Tensors {
        delays,
        storages,
        rest,
    })
}

/// What the lines of the reads tell, and the text behind them.
#[derive(Drop)]
pub(crate) struct Reads<'a> {
    /// The hold of each, in bits.
    pub(crate) hold: Vec<u32>,
    /// The need of each, in bits.
    pub(crate) need: Vec<u32>,
    /// What follows.
    pub(crate) rest: &'a [u8],
}

/// What the lines of the reads of a net tell, under these delays. They stand behind so many lines.
pub(crate) fn reads_told<'a>(
    alloc: Global,
    text: &'a [u8],
    net: &Net,
    delays: &[u64],
    before: u64,
) -> Result<Reads<'a>, TextFail>
    requires assignment { length delays.now ≡ length net.now.weights }
    requires short { HasShortDelays delays.now }
    requires before { before < 2 ^ 40 }
    ensures told { IfOk result (λ t. AreReadsTold net.now.reads delays.now t.hold.items t.need.items) }
    ensures all { IfOk result (λ t. length t.hold.items ≡ length net.now.reads) }
    ensures text { IfOk result (λ t. text.now
        ≡ ended (told_reads net.now.reads delays.now t.hold.items t.need.items) ++ t.rest.now) }
    ensures refused { IfRefused result (IsReadStop net.now.reads delays.now text.now before) }
{
    let mut hold = Vec::new(alloc);
    let mut need = Vec::new(alloc);
    let mut rest = text;
    for (number, read) in net.reads().iter().enumerate() {
        let Some(told) = read_told(alloc, rest, number, *read, delays)? else {
            return Err(TextFail::Refused(before + number as u64 + 1));
        };
        add_to_each(&mut hold, &mut need, told.hold, told.need)?;
        rest = told.rest;
    }
    Ok(Reads { hold, need, rest })
}
