ghost use Rattle.std.specs.Prelude.{◌≡◌, ℕ, ◌+◌, ◌*◌, ◌≤◌, ◌<◌, ◌^◌, ◌++◌, ◌∷◌, [], List, Bool, length, ℤ, false, true};

use crate::CellFault;
use crate::judging::judge;
use crate::limits::{MOST_RUN, SPARE_BYTES};
use crate::run::Run;
use crate::space::is_space;
use int_types::Ty;

/// What some bytes end in.
#[derive(Clone, Copy, Debug, PartialEq, Eq)]
pub enum Found {
    /// Nothing yet: more bytes are wanted.
    Nothing,
    /// The next cell, which is in its type's range.
    Cell(i128),
    /// The first fault.
    Fault(CellFault),
}

/// Reads the cells of a text from its bytes, which come in pieces.
#[derive(Clone, Copy)]
pub struct TextScan {
    pub(crate) ty: Ty,
    // How many cells the text has.
    pub(crate) cells: u64,
    // How many bytes may still come.
    pub(crate) left: u64,
    // How many cells were found.
    pub(crate) number: u64,
    // The run that is being read.
    pub(crate) run: Run,
    ghost within: { number ≤ cells },
    ghost over: { number ≡ cells → run.counted ≡ 0 },
}

impl TextScan {
    ghost use Rattle.std.specs.Prelude.{IfOk};
    ghost use Rattle.array_bytes.specs.Values.{text_value};
    ghost use Rattle.array_bytes.specs.Sizes.{most_bytes};
    ghost use Rattle.array_bytes.specs.Machine.Scans.{IsScanOf, IsRunOf, Judges, Takes, Finds, Closes, Spends, IfCell, IfFault, IfNothing, IsOfFile, OrFault, KeepsKind, Counts, CountsOne};
    ghost use Rattle.int_types.specs.Ranges.{InRange};

    /// The reader of a text of so many cells, at most 2^24, before its first byte.
    pub fn new(ty: Ty, cells: u64) -> TextScan
        requires few { cells ≤ 2 ^ 24 }
        ensures ty { result.ty ≡ ty }
        ensures cells { result.cells ≡ cells }
        ensures number { result.number ≡ 0 }
        ensures fresh { IsScanOf false result [] [] }
    {
        TextScan {
            ty,
            cells,
            left: MOST_RUN as u64 * cells + SPARE_BYTES,
            number: 0,
            run: Run::new(),
        }
    }

    /// How many cells were found.
    pub fn number(&self) -> u64
        ensures value { result ≡ self.now.number }
        ensures within { result ≤ self.now.cells }
    {
        self.number
    }

    /// How many cells the text has.
    pub fn cells(&self) -> u64
        ensures { result ≡ self.now.cells }
    {
        self.cells
    }

    // The cell that the run is, which has come to its end, or its fault. There are cells still to come.
    fn end_run(&mut self) -> Result<i128, CellFault>
        requires { self.old.number < self.old.cells }
        ensures kind { KeepsKind self.old self.new }
        ensures left { self.new.left ≡ self.old.left }
        ensures next { CountsOne self.old.number self.new.number result }
        ensures range { IfOk result (λ v. InRange self.old.ty v) }
        ensures own { OrFault IsOfFile result }
        ensures begun { IsRunOf self.new.run [] }
        ensures judged { (run : List ℕ) → IsRunOf self.old.run run
            → Judges self.old.ty self.old.number (text_value run) result }
    {
        let run = self.run;
        self.run = Run::new();
        let judged = judge(self.ty, self.number, run);
        if judged.is_ok() {
            self.number += 1;
        }
        judged
    }

    // Takes one byte.
    #[inline]
    fn take(&mut self, byte: u8) -> Found
        ensures kind { KeepsKind self.old self.new }
        ensures spent { Spends self.old.left self.new.left 1 result }
        ensures next { Counts self.old.number self.new.number result }
        ensures range { IfCell (InRange self.old.ty) result }
        ensures own { IfFault IsOfFile result }
        ensures took { (bytes : List ℕ) → (cells : List ℤ) → IsScanOf false self.old bytes cells
            → Takes self.new bytes byte cells result }
    {
        if self.left == 0 {
            return Found::Fault(CellFault::TooLong);
        }
        self.left -= 1;
        if is_space(byte) {
            if self.run.counted == 0 {
                Found::Nothing
            } else {
                match self.end_run() {
                    Ok(cell) => Found::Cell(cell),
                    Err(fault) => Found::Fault(fault),
                }
            }
        } else if self.number == self.cells {
            Found::Fault(CellFault::TooMany)
        } else {
            self.run.push(byte);
            Found::Nothing
        }
    }

    /// Takes bytes up to the end of the next cell, or to the first fault, or all of them, and says how many.
    pub fn scan(&mut self, bytes: &[u8]) -> (usize, Found)
        ensures count { result.0 ≤ length bytes.now }
        ensures all { IfNothing (result.0 ≡ length bytes.now) result.1 }
        ensures kind { KeepsKind self.old self.new }
        ensures spent { Spends self.old.left self.new.left result.0 result.1 }
        ensures next { Counts self.old.number self.new.number result.1 }
        ensures range { IfCell (InRange self.old.ty) result.1 }
        ensures own { IfFault IsOfFile result.1 }
        ensures found { (before : List ℕ) → (cells : List ℤ) → IsScanOf false self.old before cells
            → Finds self.new before bytes.now cells result.0 result.1 }
    {
        for (index, byte) in bytes.iter().enumerate() {
            match self.take(*byte) {
                Found::Nothing => {}
                found => return (index + 1, found),
            }
        }
        (bytes.len(), Found::Nothing)
    }

    /// The last cell, which the end of the file ends, or the fault that the end leaves. There are cells still to come.
    pub fn close(&mut self) -> Result<i128, CellFault>
        requires { self.old.number < self.old.cells }
        ensures kind { KeepsKind self.old self.new }
        ensures left { self.new.left ≡ self.old.left }
        ensures next { CountsOne self.old.number self.new.number result }
        ensures range { IfOk result (λ v. InRange self.old.ty v) }
        ensures own { OrFault IsOfFile result }
        ensures closed { (closed : Bool) → (bytes : List ℕ) → (cells : List ℤ)
            → IsScanOf closed self.old bytes cells → Closes self.new bytes cells result }
    {
        if self.run.counted == 0 {
            Err(CellFault::TooFew(self.number))
        } else {
            self.end_run()
        }
    }
}
