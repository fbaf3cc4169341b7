ghost use Rattle.std.specs.Prelude.{◌≡◌, ◌++◌, ◌∷◌, [], IfOk, OnOk, map, true, false};
ghost use Rattle.soda_checks.specs.Outline.{casts_in, defined_alone, input_alone, joined, outline_in, outline_of, param_alone, setting_alone, uses_in};
ghost use Rattle.soda_checks.specs.declared.outline.Site.TheVariants.{Size as SiteSize};
ghost use Rattle.soda_formula.specs.Tree.{term_of};
ghost use Rattle.soda_formula.specs.Statements.{plain_line, plain_statement};

use crate::{Defined, NoMemory, Outline, Setting, SettingKind, Site};
use soda_formula::{Extent, FormulaLine, InputLine, ParamLine, Size, Statement, Written};
use soda_words::Word;
use sqlite_items::Items;
use std::alloc::Global;

fn copy_word(alloc: Global, word: &Word) -> Result<Word, NoMemory>
    ensures { IfOk result (λ copy. copy ≡ word.now) }
{
    Ok(Word {
        line: word.line,
        text: Items::from_slice(alloc, word.text.as_slice())?,
    })
}

// Adds the names in a formula, from the left.
#[tactic(auto, using(crate::proofs::Appended::appended))]
fn add_uses(alloc: Global, formula: &Written, found: &mut Items<Site>) -> Result<(), NoMemory>
    ensures { OnOk result (found.new ≡ found.old ++ uses_in (term_of formula.now)) }
{
    match formula {
        Written::Number(_) => Ok(()),
        Written::Cell { tensor, offsets } => {
            found.push(Site::Cell {
                name: copy_word(alloc, tensor)?,
                offsets: Items::from_slice(alloc, offsets.as_slice())?,
            })?;
            Ok(())
        }
        Written::Value { param, indexes } => {
            found.push(Site::Value {
                name: copy_word(alloc, param)?,
                indexes: Items::from_slice(alloc, indexes.as_slice())?,
            })?;
            Ok(())
        }
        Written::Unary(_, a) => add_uses(alloc, a.get(), found),
        Written::Binary(_, a, b) => {
            add_uses(alloc, a.get(), found)?;
            add_uses(alloc, b.get(), found)
        }
        Written::Choice(c, a, b) => {
            add_uses(alloc, c.get(), found)?;
            add_uses(alloc, a.get(), found)?;
            add_uses(alloc, b.get(), found)
        }
        Written::Cast(_, a) => add_uses(alloc, a.get(), found),
    }
}

// Adds the cast words in a formula, from the left.
#[tactic(auto, using(crate::proofs::Appended::appended))]
fn add_casts(alloc: Global, formula: &Written, found: &mut Items<Word>) -> Result<(), NoMemory>
    ensures { OnOk result (found.new ≡ found.old ++ casts_in (term_of formula.now)) }
{
    match formula {
        Written::Number(_) => Ok(()),
        Written::Cell { .. } => Ok(()),
        Written::Value { .. } => Ok(()),
        Written::Unary(_, a) => add_casts(alloc, a.get(), found),
        Written::Binary(_, a, b) => {
            add_casts(alloc, a.get(), found)?;
            add_casts(alloc, b.get(), found)
        }
        Written::Choice(c, a, b) => {
            add_casts(alloc, c.get(), found)?;
            add_casts(alloc, a.get(), found)?;
            add_casts(alloc, b.get(), found)
        }
        Written::Cast(word, a) => {
            found.push(copy_word(alloc, word)?)?;
            add_casts(alloc, a.get(), found)
        }
    }
}

// Adds a setting.
fn add_setting(outline: &mut Outline, line: u64, kind: SettingKind) -> Result<(), NoMemory>
    ensures { OnOk result (outline.new ≡ joined outline.old (setting_alone line kind)) }
{
    outline.settings.push(Setting { line, kind })?;
    Ok(())
}

// Adds the sizes of a param.
fn add_sizes(sizes: &[Size], sites: &mut Items<Site>) -> Result<(), NoMemory>
    ensures { OnOk result (sites.new ≡ sites.old ++ map (λ s. SiteSize s) sizes.now) }
{
    for size in sizes {
        sites.push(Site::Size(*size))?;
    }
    Ok(())
}

// Adds a param.
fn add_param(alloc: Global, outline: &mut Outline, param: &ParamLine) -> Result<(), NoMemory>
    ensures { OnOk result (outline.new ≡ joined outline.old (param_alone param.now)) }
{
    outline.types.push(copy_word(alloc, &param.ty)?)?;
    outline.declared.push(copy_word(alloc, &param.name)?)?;
    outline.params.push(ParamLine {
        ty: copy_word(alloc, &param.ty)?,
        name: copy_word(alloc, &param.name)?,
        sizes: Items::from_slice(alloc, param.sizes.as_slice())?,
    })?;
    add_sizes(param.sizes.as_slice(), &mut outline.sites)
}

// A copy of a tile, if there is one.
fn copy_tile(alloc: Global, tile: &Option<Items<Extent>>) -> Result<Option<Items<Extent>>, NoMemory>
    ensures { IfOk result (λ copy. copy ≡ tile.now) }
{
    match tile {
        Some(tile) => {
            let copy = Items::from_slice(alloc, tile.as_slice())?;
            Ok(Some(copy))
        }
        None => Ok(None),
    }
}

// Adds an input.
fn add_input(alloc: Global, outline: &mut Outline, input: &InputLine) -> Result<(), NoMemory>
    ensures { OnOk result (outline.new ≡ joined outline.old (input_alone input.now)) }
{
    outline.types.push(copy_word(alloc, &input.ty)?)?;
    outline.declared.push(copy_word(alloc, &input.name)?)?;
    outline.inputs.push(InputLine {
        ty: copy_word(alloc, &input.ty)?,
        name: copy_word(alloc, &input.name)?,
        tile: copy_tile(alloc, &input.tile)?,
    })?;
    Ok(())
}

// Adds a local or output.
fn add_defined(
    alloc: Global,
    outline: &mut Outline,
    is_output: bool,
    line: &FormulaLine,
) -> Result<(), NoMemory>
    ensures { OnOk result (outline.new ≡ joined outline.old (defined_alone is_output (plain_line line.now))) }
{
    outline.types.push(copy_word(alloc, &line.ty)?)?;
    add_casts(alloc, &line.formula, &mut outline.types)?;
    outline.declared.push(copy_word(alloc, &line.name)?)?;
    outline.defined.push(Defined {
        is_output,
        ty: copy_word(alloc, &line.ty)?,
        name: copy_word(alloc, &line.name)?,
    })?;
    outline.sites.push(Site::Left {
        name: copy_word(alloc, &line.name)?,
        offsets: Items::from_slice(alloc, line.left.as_slice())?,
    })?;
    add_uses(alloc, &line.formula, &mut outline.sites)
}

// Adds a statement.
#[tactic(auto, using(crate::proofs::Appended::appended), unfolding(crate::specs::Outline::outline_in))]
fn add_statement(
    alloc: Global,
    outline: &mut Outline,
    statement: &Statement,
) -> Result<(), NoMemory>
    ensures { OnOk result (outline.new ≡ joined outline.old (outline_in (plain_statement statement.now))) }
{
    match statement {
        Statement::Kernel { line, .. } => add_setting(outline, *line, SettingKind::Kernel),
        Statement::BurstWidth { line, width } => {
            outline.bursts.push(*width)?;
            add_setting(outline, *line, SettingKind::BurstWidth)
        }
        Statement::UnrollFactor { line, factor } => {
            outline.unrolls.push(*factor)?;
            add_setting(outline, *line, SettingKind::UnrollFactor)
        }
        Statement::Iterate { line, times } => {
            outline.iterates.push(*times)?;
            add_setting(outline, *line, SettingKind::Iterate)
        }
        Statement::Border { line, preserve } => {
            outline.preserves.push(*preserve)?;
            add_setting(outline, *line, SettingKind::Border)
        }
        Statement::Cluster { line } => add_setting(outline, *line, SettingKind::Cluster),
        Statement::Param(param) => add_param(alloc, outline, param),
        Statement::Input(input) => add_input(alloc, outline, input),
        Statement::Local(line) => add_defined(alloc, outline, false, line),
        Statement::Output(line) => add_defined(alloc, outline, true, line),
    }
}

// Adds statements.
fn add_statements(
    alloc: Global,
    outline: &mut Outline,
    statements: &[Statement],
) -> Result<(), NoMemory>
    ensures { OnOk result (outline.new ≡ joined outline.old (outline_of (map plain_statement statements.now))) }
{
    for statement in statements {
        add_statement(alloc, outline, statement)?;
    }
    Ok(())
}

/// What the conditions look at of statements.
pub fn make_outline(alloc: Global, statements: &[Statement]) -> Result<Outline, NoMemory>
    ensures { IfOk result (λ outline. outline ≡ outline_of (map plain_statement statements.now)) }
{
    let mut outline = Outline {
        settings: Items::new(alloc),
        bursts: Items::new(alloc),
        unrolls: Items::new(alloc),
        iterates: Items::new(alloc),
        preserves: Items::new(alloc),
        types: Items::new(alloc),
        declared: Items::new(alloc),
        params: Items::new(alloc),
        inputs: Items::new(alloc),
        defined: Items::new(alloc),
        sites: Items::new(alloc),
    };
    match add_statements(alloc, &mut outline, statements) {
        Ok(()) => Ok(outline),
        Err(error) => {
            drop(outline);
            Err(error)
        }
    }
}
