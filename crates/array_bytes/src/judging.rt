ghost use Rattle.std.specs.Prelude.{◌≡◌, ℕ, List};
ghost use Rattle.int_types.specs.Ranges.{InRange};
ghost use Rattle.array_bytes.specs.Values.{text_value};
ghost use Rattle.array_bytes.specs.Machine.Scans.{IsOfFile, IsRunOf, Judges, OrFault};
ghost use Rattle.std.specs.Prelude.{IfOk, Some};

use crate::CellFault;
use crate::run::Run;
use int_types::{Ty, in_range};

// The number as the cell with this number of its own, or its fault.
pub(crate) fn of_type(ty: Ty, number: u64, value: i128) -> Result<i128, CellFault>
    ensures range { IfOk result (λ v. InRange ty v) }
    ensures own { OrFault IsOfFile result }
    ensures judged { Judges ty number (Some value) result }
{
    if in_range(ty, value) {
        Ok(value)
    } else {
        Err(CellFault::CellRange(number))
    }
}

// The run as the cell with this number, or its fault.
pub(crate) fn judge(ty: Ty, number: u64, run: Run) -> Result<i128, CellFault>
    ensures range { IfOk result (λ v. InRange ty v) }
    ensures own { OrFault IsOfFile result }
    ensures judged { (bytes : List ℕ) → IsRunOf run bytes → Judges ty number (text_value bytes) result }
{
    let _bits = ty.bits();
    match run.value() {
        Some(value) => of_type(ty, number, value),
        None => Err(CellFault::BadCell(number)),
    }
}
