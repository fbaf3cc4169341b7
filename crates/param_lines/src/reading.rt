ghost use Rattle.std.specs.Prelude.{◌≡◌, ℕ, true, None, [], map, IfOk, OnOk};
ghost use Rattle.soda_ir.specs.Program.{plain, plain_param};
ghost use Rattle.soda_eval.specs.Runs.{HasValues, place_types};
ghost use Rattle.param_lines.specs.Lines.{rows_of};
ghost use Rattle.param_lines.specs.Params.{AreAllFine, GivesParams, IsFirstWrong, RefusesLine, joined, values_at};
ghost use Rattle.param_lines.specs.pieces.Slots.{are_apart};

use crate::line_fail::LineFail;
use crate::row::read_row;
use crate::splitting::split_line;
use soda_ir::{Param, Program};
use soda_words::{NameTable, NoMemory};
use sqlite_items::Items;
use std::alloc::Global;

/// The most bytes of a params file.
pub const MOST_PARAMS: usize = 8_388_608;

// The names of params, in order.
fn names_of(alloc: Global, params: &[Param]) -> Result<NameTable<'_>, NoMemory>
    ensures { IfOk result (λ names. names ≡ map (λ p. p.name) (map plain_param params.now)) }
{
    let mut names = NameTable::new(alloc);
    for param in params {
        let _is_new = names.add(param.name.as_slice())?;
    }
    Ok(names)
}

// An empty slot for each param.
fn empty_slots(alloc: Global, params: &[Param]) -> Result<Vec<Option<Items<i128>>>, NoMemory>
    ensures { IfOk result (λ slots. slots.items ≡ map (values_at []) (map plain_param params.now)) }
{
    let mut slots = Vec::new(alloc);
    for _param in params {
        slots.push(None)?;
    }
    Ok(slots)
}

// Reads all lines, each into the slot of its param.
fn read_rows(
    alloc: Global,
    params: &[Param],
    names: &NameTable,
    slots: &mut [Option<Items<i128>>],
    bytes: &[u8],
) -> Result<(), LineFail>
    requires names { names.now ≡ map (λ p. p.name) (map plain_param params.now) }
    requires apart { are_apart (map plain_param params.now) ≡ true }
    requires empty { slots.old ≡ map (values_at []) (map plain_param params.now) }
    ensures fine { OnOk result (AreAllFine (map plain_param params.now) (rows_of bytes.now)) }
    ensures filled { OnOk result (slots.new ≡ map (values_at (rows_of bytes.now)) (map plain_param params.now)) }
    ensures wrong { (line : ℕ) → result ≡ Err (LineFail.Line line)
        → IsFirstWrong (map plain_param params.now) (rows_of bytes.now) line }
{
    let mut rest = bytes;
    let mut number: u64 = 0;
    while rest.len() > 0 {
        let (line, after) = split_line(rest);
        number += 1;
        if !read_row(alloc, params, names, slots, line)? {
            return Err(LineFail::Line(number));
        }
        rest = after;
    }
    Ok(())
}

// The slots of all params, once all lines were read with these names.
fn filled_slots(
    alloc: Global,
    params: &[Param],
    names: &NameTable,
    bytes: &[u8],
) -> Result<Vec<Option<Items<i128>>>, LineFail>
    requires names { names.now ≡ map (λ p. p.name) (map plain_param params.now) }
    requires apart { are_apart (map plain_param params.now) ≡ true }
    ensures fine { OnOk result (AreAllFine (map plain_param params.now) (rows_of bytes.now)) }
    ensures filled { IfOk result (λ slots. slots.items
        ≡ map (values_at (rows_of bytes.now)) (map plain_param params.now)) }
    ensures wrong { (line : ℕ) → result ≡ Err (LineFail.Line line)
        → IsFirstWrong (map plain_param params.now) (rows_of bytes.now) line }
{
    let mut slots = empty_slots(alloc, params)?;
    read_rows(alloc, params, names, slots.as_mut_slice(), bytes)?;
    Ok(slots)
}

// The slots of all params, once all lines were read.
fn read_slots(
    alloc: Global,
    params: &[Param],
    bytes: &[u8],
) -> Result<Vec<Option<Items<i128>>>, LineFail>
    requires { are_apart (map plain_param params.now) ≡ true }
    ensures fine { OnOk result (AreAllFine (map plain_param params.now) (rows_of bytes.now)) }
    ensures filled { IfOk result (λ slots. slots.items
        ≡ map (values_at (rows_of bytes.now)) (map plain_param params.now)) }
    ensures wrong { (line : ℕ) → result ≡ Err (LineFail.Line line)
        → IsFirstWrong (map plain_param params.now) (rows_of bytes.now) line }
{
    let names = names_of(alloc, params)?;
    filled_slots(alloc, params, &names, bytes)
}

// The values of all slots in order; line 0 where one is empty.
fn join(alloc: Global, slots: &[Option<Items<i128>>]) -> Result<Vec<i128>, LineFail>
    ensures values { IfOk result (λ values. Some values.items ≡ joined slots.now) }
    ensures lacking { (line : ℕ) → result ≡ Err (LineFail.Line line) → (line ≡ 0) × (joined slots.now ≡ None) }
{
    let mut values = Vec::new(alloc);
    for slot in slots {
        match slot {
            Some(more) => values.extend_from_slice(more.as_slice())?,
            None => return Err(LineFail::Line(0)),
        }
    }
    Ok(values)
}

/// The values of a program's params, from the bytes of a params file: one value for each place of all params, in order,
/// each in its param's range. A line has the name of a param and its values as decimals, the last index changing
/// fastest, separated by white space; lines of white space only are passed over.
///
/// `Line(0)` first where there are more than `MOST_PARAMS` bytes; then `Line` with the number of the first line, from
/// 1, that isn't of this form, names no param or names one again; then `Line(0)` where a param has no line. `Memory`
/// where memory was refused.
pub fn read_params(alloc: Global, program: &Program, bytes: &[u8]) -> Result<Vec<i128>, LineFail>
    ensures given { IfOk result (λ values. GivesParams (plain program.now).params bytes.now values.items) }
    ensures in_range { IfOk result (λ values. HasValues (place_types (plain program.now).params) values.items) }
    ensures refused { (line : ℕ) → result ≡ Err (LineFail.Line line)
        → RefusesLine (plain program.now).params bytes.now line }
{
    if bytes.len() > MOST_PARAMS {
        return Err(LineFail::Line(0));
    }
    let slots = read_slots(alloc, program.parts().params.as_slice(), bytes)?;
    join(alloc, slots.as_slice())
}
