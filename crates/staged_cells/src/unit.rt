ghost use Rattle.std.specs.Prelude.{◌≡◌, ◌^◌, ◌≤◌, ℕ, List, ℤ, Some, IfOk, false, length, pos, slice_get, ◌+ℤ◌, ◌<ℤ◌};
ghost use Rattle.soda_words.specs.Limits.{most_cells};
ghost use Rattle.soda_ir.specs.Counts.{is_input};
ghost use Rattle.soda_ir.specs.Program.{plain};
ghost use Rattle.soda_eval.specs.Runs.{HasValues, cells_at, place_types};
ghost use Rattle.time_stages.specs.declared.staging.StagedTensor.{StagedTensor};
ghost use Rattle.time_stages.specs.Staged.{staged, staged_tensors};
ghost use Rattle.staged_cells.specs.Cells.{port_types};
ghost use Rattle.staged_cells.specs.Sends.{computed};

use soda_ir::Program;
use std::alloc::{AllocError, Global};
use time_stages::Staged;

/// A computing module: from the values at its ports it makes what it sends, firing after firing.
pub trait Unit {
    /// What it sends for the cell of a number, from the values at its ports.
    ghost value: { Self → List ℤ → ℤ → ℤ };

    /// The number of the cell that its next firing is about. There may be no such cell.
    ghost place: { Self → ℤ };

    /// How far the next firing's cell stands behind it.
    ghost step: { Self → ℕ };

    /// How many ports it has.
    ghost count: { Self → ℕ };

    /// The computing module of a staged tensor, about to fire for the cell of the number `first`, and then each time
    /// for the cell that stands `stride` behind. The staged program is that of the program, an array has at most
    /// `most_cells` cells, `params` has the values of all params in order, in range, and the tensor is no input.
    fn make(
        alloc: Global,
        program: &Program,
        staging: &Staged,
        rows: u64,
        params: &[i128],
        tensor: u32,
        first: i64,
        stride: u32,
    ) -> Result<Self, AllocError>
        requires staging { staging.now ≡ staged (plain program.now) }
        requires cells { cells_at (plain program.now) rows ≤ most_cells }
        requires params { HasValues (place_types (plain program.now).params) params.now }
        requires tensor { (s : StagedTensor) × (slice_get (staged_tensors (plain program.now)) tensor ≡ Some s)
            × (is_input (plain program.now) s.tensor ≡ false) }
        ensures value { IfOk result (λ made. (ports : List ℤ) (z : ℤ) → value made ports z
            ≡ computed (plain program.now) rows params.now tensor ports z) }
        ensures place { IfOk result (λ made. place made ≡ first) }
        ensures step { IfOk result (λ made. step made ≡ stride) }
        ensures count { IfOk result (λ made. count made ≡ length (port_types (plain program.now) tensor)) };

    /// Does the next firing, and gives what is sent. Cells have numbers below 2^60.
    fn next(&mut self, ports: &[i128]) -> i128
        requires ports { length ports.now ≡ count self.old }
        requires small { place self.old <ℤ pos (2 ^ 60) }
        ensures value { result ≡ value self.old ports.now (place self.old) }
        ensures same { value self.new ≡ value self.old }
        ensures place { place self.new ≡ place self.old +ℤ pos (step self.old) }
        ensures step { step self.new ≡ step self.old }
        ensures count { count self.new ≡ count self.old };
}
