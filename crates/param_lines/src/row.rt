ghost use Rattle.std.specs.Prelude.{◌≡◌, true, length, map, Some, IfOk};
ghost use Rattle.array_bytes.specs.Runs.{runs};
ghost use Rattle.soda_ir.specs.Program.{plain_param};
ghost use Rattle.param_lines.specs.Values.{decimal_value};
ghost use Rattle.param_lines.specs.pieces.Slots.{are_taken, is_taken, slots_with, values_for, values_in};

use crate::number::value_in;
use crate::splitting::next_run;
use soda_ir::{Param, value_count};
use soda_words::{NameTable, NoMemory, Ty};
use sqlite_items::Items;
use std::alloc::Global;
use std::slice;

// The numbers of the type that the words of a text write, if each writes one.
fn read_numbers(alloc: Global, ty: Ty, text: &[u8]) -> Result<Option<Items<i128>>, NoMemory>
    ensures { IfOk result (λ found. found ≡ values_in ty (runs text.now)) }
{
    let mut values = Vec::new(alloc);
    let mut rest = text;
    while let Some((word, after)) = next_run(rest) {
        match value_in(ty, word) {
            Some(value) => {
                values.push(value)?;
                rest = after;
            }
            None => return Ok(None),
        }
    }
    Ok(Some(Items::from_vec(values)))
}

// The values of a param that the words of a text are, if they are some.
fn read_values(alloc: Global, param: &Param, text: &[u8]) -> Result<Option<Items<i128>>, NoMemory>
    ensures { IfOk result (λ found. found ≡ values_for (plain_param param.now) (runs text.now)) }
{
    let Some(values) = read_numbers(alloc, param.ty, text)? else {
        return Ok(None);
    };
    if values.len() as u128 == value_count(slice::from_ref(param)) {
        Ok(Some(values))
    } else {
        drop(values);
        Ok(None)
    }
}

// Puts the values of a param into its slot, and says whether the words are its values and the slot was empty.
fn fill(
    alloc: Global,
    param: &Param,
    slot: &mut Option<Items<i128>>,
    text: &[u8],
) -> Result<bool, NoMemory>
    ensures fine { IfOk result (λ fine. fine ≡ is_taken (plain_param param.now) slot.old (runs text.now)) }
    ensures filled { IfOk result (λ fine. fine ≡ true → slot.new ≡ Some (map decimal_value (runs text.now))) }
{
    if slot.is_some() {
        return Ok(false);
    }
    *slot = read_values(alloc, param, text)?;
    Ok(slot.is_some())
}

/// Reads a line: puts its values into the slot of the param that it names. Says whether the line is of white space
/// only, or gives a param whose slot was empty its values. There is a slot and a name for each param, in order.
pub(crate) fn read_row(
    alloc: Global,
    params: &[Param],
    names: &NameTable,
    slots: &mut [Option<Items<i128>>],
    line: &[u8],
) -> Result<bool, NoMemory>
    requires names { names.now ≡ map (λ p. p.name) (map plain_param params.now) }
    requires slots { length slots.old ≡ length params.now }
    ensures fine { IfOk result (λ fine. fine ≡ are_taken (map plain_param params.now) slots.old (runs line.now)) }
    ensures filled { IfOk result (λ fine. fine ≡ true
        → slots.new ≡ slots_with (map plain_param params.now) slots.old (runs line.now)) }
{
    let Some((name, text)) = next_run(line) else {
        return Ok(true);
    };
    let Some(place) = names.place(name) else {
        return Ok(false);
    };
    let fine = fill(alloc, &params[place], &mut slots[place], text)?;
    Ok(fine)
}
