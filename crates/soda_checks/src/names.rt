ghost use Rattle.std.specs.Prelude.{◌≡◌, ◌++◌, map, take, IfOk, OnOk};
ghost use Rattle.std.specs.List.{list_any};
ghost use Rattle.soda_checks.specs.Names.{names_of};
ghost use Rattle.soda_checks.specs.Outline.{is_one_of};
ghost use Rattle.soda_words.specs.Names.{is_word};

use crate::{Defined, NoMemory, Outline};
use soda_formula::{InputLine, ParamLine};
use soda_words::{NameTable, Word};
use std::alloc::Global;

/// The names in an outline, each list in text order, as tables to look a name up in.
#[derive(Drop)]
pub struct Names<'a> {
    /// The names of all that is declared.
    pub declared: NameTable<'a>,
    /// The names of the inputs.
    pub inputs: NameTable<'a>,
    /// The names of the locals and outputs.
    pub defined: NameTable<'a>,
    /// The names of the params.
    pub params: NameTable<'a>,
}

// Adds the texts of words.
fn add_words<'a>(names: &mut NameTable<'a>, words: &'a [Word]) -> Result<(), NoMemory>
    ensures { OnOk result (names.new ≡ names.old ++ map (λ w. w.text) words.now) }
{
    for word in words {
        names.add(word.text.as_slice())?;
    }
    Ok(())
}

// Adds the names of inputs.
fn add_inputs<'a>(names: &mut NameTable<'a>, inputs: &'a [InputLine]) -> Result<(), NoMemory>
    ensures { OnOk result (names.new ≡ names.old ++ map (λ i. i.name.text) inputs.now) }
{
    for input in inputs {
        names.add(input.name.text.as_slice())?;
    }
    Ok(())
}

// Adds the names of locals and outputs.
fn add_defined<'a>(names: &mut NameTable<'a>, defined: &'a [Defined]) -> Result<(), NoMemory>
    ensures { OnOk result (names.new ≡ names.old ++ map (λ d. d.name.text) defined.now) }
{
    for line in defined {
        names.add(line.name.text.as_slice())?;
    }
    Ok(())
}

// Adds the names of params.
fn add_params<'a>(names: &mut NameTable<'a>, params: &'a [ParamLine]) -> Result<(), NoMemory>
    ensures { OnOk result (names.new ≡ names.old ++ map (λ q. q.name.text) params.now) }
{
    for param in params {
        names.add(param.name.text.as_slice())?;
    }
    Ok(())
}

// Adds the names in an outline.
fn add_names<'a>(names: &mut Names<'a>, outline: &'a Outline) -> Result<(), NoMemory>
    ensures declared { OnOk result (names.new.declared ≡ names.old.declared ++ (names_of outline.now).declared) }
    ensures inputs { OnOk result (names.new.inputs ≡ names.old.inputs ++ (names_of outline.now).inputs) }
    ensures defined { OnOk result (names.new.defined ≡ names.old.defined ++ (names_of outline.now).defined) }
    ensures params { OnOk result (names.new.params ≡ names.old.params ++ (names_of outline.now).params) }
{
    add_words(&mut names.declared, outline.declared.as_slice())?;
    add_inputs(&mut names.inputs, outline.inputs.as_slice())?;
    add_defined(&mut names.defined, outline.defined.as_slice())?;
    add_params(&mut names.params, outline.params.as_slice())
}

/// The names in an outline.
pub fn make_names<'a>(alloc: Global, outline: &'a Outline) -> Result<Names<'a>, NoMemory>
    ensures { IfOk result (λ names. names ≡ names_of outline.now) }
{
    let mut names = Names {
        declared: NameTable::new(alloc),
        inputs: NameTable::new(alloc),
        defined: NameTable::new(alloc),
        params: NameTable::new(alloc),
    };
    match add_names(&mut names, outline) {
        Ok(()) => Ok(names),
        Err(error) => {
            drop(names);
            Err(error)
        }
    }
}

// Whether the word is one of these names.
#[tactic(auto, using(crate::proofs::Listed::listed))]
pub(crate) fn is_listed(names: &NameTable, word: &Word) -> bool
    ensures { result ≡ list_any (is_word word.now.text) names.now }
{
    names.place(word.text.as_slice()).is_some()
}

// Whether the word is written like one of the first so many of these.
pub(crate) fn is_before(words: &[Word], names: &NameTable, count: usize, word: &Word) -> bool
    requires { names.now ≡ map (λ w. w.text) words.now }
    ensures { result ≡ is_one_of (take count words.now) word.now }
{
    let _ = words;
    match names.place(word.text.as_slice()) {
        Some(place) => place < count,
        None => false,
    }
}
